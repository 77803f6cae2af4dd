//! Lines that are put together in an array, each before what stands there already.

ghost use Rattle.std.specs.Prelude.{◌*◌, ◌≤◌, ◌∷◌, [], length, map};
ghost use Rattle.tl_record.specs.Lines.{joined_lines};
ghost use Rattle.tl_cert_output.specs.Writing.{line_of};
ghost use Rattle.tl_cert.specs.Text;
ghost use Rattle.tl_cert.specs.Text.{number, coordinate_text, rectangle, numbered_line, leaf_line, item_lines, nodes_lines};
ghost use Rattle.tl_cert.specs.Keeping.Putting.{HasRoom, Puts};

use crate::certificate::Counts;
use itoa::write_digits;
use tl_geom::Rect;
use tl_tree_index::TreeNode;

// Puts a line for each number, one behind the other, before what stands at `end`, and tells where they start.
#[inline(always)]
pub fn put_numbers(letter: u8, numbers: &[u32], text: &mut [u8], end: usize) -> usize
    requires { HasRoom (13 * length numbers.now) end text.old }
    ensures { Puts (13 * length numbers.now) end result text.old text.new
        (joined_lines (map (numbered_line (letter ∷ [])) numbers.now)) }
{
    let mut start = end;
    let mut left = numbers.len();
    while left > 0 {
        left -= 1;
        start = put_number(letter, numbers[left], text, start);
    }
    start
}

// Puts a line of a letter and a number before what stands at `end`, and tells where it starts.
#[inline(always)]
pub fn put_number(letter: u8, number: u32, text: &mut [u8], end: usize) -> usize
    requires { HasRoom 13 end text.old }
    ensures { Puts 13 end result text.old text.new (line_of (numbered_line (letter ∷ []) number)) }
{
    let feed = put_byte(b'\n', text, end);
    let word = put_word(number, text, feed);
    put_byte(letter, text, word)
}

// Puts a byte before what stands at `end`, and tells where it is.
#[inline(always)]
fn put_byte(byte: u8, text: &mut [u8], end: usize) -> usize
    requires { HasRoom 1 end text.old }
    ensures { Puts 1 end result text.old text.new (byte ∷ []) }
{
    text[end - 1] = byte;
    end - 1
}

// Puts a space and a number before what stands at `end`, and tells where they start.
#[inline(always)]
fn put_word(n: u32, text: &mut [u8], end: usize) -> usize
    requires { HasRoom 11 end text.old }
    ensures { Puts 11 end result text.old text.new (number n) }
{
    let digits = write_digits(u64::from(n), text, end);
    put_byte(b' ', text, digits)
}

// Puts a space and a coordinate_text before what stands at `end`, and tells where they start.
#[inline(always)]
fn put_coordinate(z: i32, text: &mut [u8], end: usize) -> usize
    requires { HasRoom 12 end text.old }
    ensures { Puts 12 end result text.old text.new (coordinate_text z) }
{
    let digits = write_digits(u64::from(z.unsigned_abs()), text, end);
    if z < 0 {
        let sign = put_byte(b'-', text, digits);
        return put_byte(b' ', text, sign);
    }
    put_byte(b' ', text, digits)
}

// Puts a letter and a rectangle's coordinates before what stands at `end`, and tells where they start.
fn put_rectangle(letter: u8, rect: Rect, text: &mut [u8], end: usize) -> usize
    requires { HasRoom 49 end text.old }
    ensures { Puts 49 end result text.old text.new (letter ∷ rectangle rect) }
{
    let ymax = put_coordinate(rect.ymax, text, end);
    let xmax = put_coordinate(rect.xmax, text, ymax);
    let ymin = put_coordinate(rect.ymin, text, xmax);
    let xmin = put_coordinate(rect.xmin, text, ymin);
    put_byte(letter, text, xmin)
}

// Puts the number of an inner node's children before what stands at `end`, where the version says it, and tells where
// that starts.
#[inline(always)]
fn put_children(version: u8, children: u8, text: &mut [u8], end: usize) -> usize
    requires { HasRoom 11 end text.old }
    ensures { Puts 11 end result text.old text.new (Text.children version children) }
{
    if version > 1 {
        return put_word(u32::from(children), text, end);
    }
    end
}

// Puts an inner node's line before what stands at `end`, and tells where it starts.
#[inline(always)]
fn put_inner(version: u8, rect: Rect, children: u8, text: &mut [u8], end: usize) -> usize
    requires { HasRoom 61 end text.old }
    ensures { Puts 61 end result text.old text.new (line_of (Text.inner_line version rect children)) }
{
    let feed = put_byte(b'\n', text, end);
    let behind = put_children(version, children, text, feed);
    put_rectangle(b'B', rect, text, behind)
}

// Puts a leaf's line and those of its items before what stands at `end`, and tells where they start.
#[inline(always)]
fn put_leaf(rect: Rect, items: &[u32], text: &mut [u8], end: usize) -> usize
    requires few { length items.now ≤ 8 }
    requires room { HasRoom 165 end text.old }
    ensures { Puts 165 end result text.old text.new
        (joined_lines (leaf_line rect (length items.now) ∷ item_lines items.now)) }
{
    let behind = put_numbers(b'S', items, text, end);
    let feed = put_byte(b'\n', text, behind);
    let count = put_word(items.len() as u32, text, feed);
    put_rectangle(b'L', rect, text, count)
}

// Puts a node's lines before what stands at `end`, and tells where they start.
pub fn put_node(version: u8, node: &TreeNode, text: &mut [u8], end: usize) -> usize
    requires { HasRoom 165 end text.old }
    ensures { Puts 165 end result text.old text.new (joined_lines (nodes_lines version (node.now ∷ []))) }
{
    match node {
        TreeNode::Inner(rect, children) => put_inner(version, *rect, *children, text, end),
        TreeNode::Leaf(rect, items) => put_leaf(*rect, items.as_slice(), text, end),
    }
}

// Puts the line of the counts before what stands at `end`, and tells where it starts.
pub fn put_counts(counts: Counts, text: &mut [u8], end: usize) -> usize
    requires { HasRoom 46 end text.old }
    ensures { Puts 46 end result text.old text.new (line_of (Text.counts_line counts)) }
{
    let feed = put_byte(b'\n', text, end);
    let polygons = put_word(counts.polygons, text, feed);
    let nodes = put_word(counts.nodes, text, polygons);
    let segments = put_word(counts.segments, text, nodes);
    let chains = put_word(counts.chains, text, segments);
    put_byte(b'C', text, chains)
}
