//! The text of a certificate, on its way to a sink.

ghost use Rattle.std.specs.Prelude.{◌≡◌, ◌⊎◌, ◌≤◌, ◌∷◌, [], length, map};
ghost use Rattle.tl_record.specs.Lines.{joined_lines};
ghost use Rattle.tl_cert_output.specs.Writing.{line_of};
ghost use Rattle.tl_cert_output.specs.Printing.{Prints, stands};
ghost use Rattle.tl_cert.specs.Text;
ghost use Rattle.tl_cert.specs.Text.{numbered_line, nodes_lines, tree_lines, darts_lines};
ghost use Rattle.tl_cert.specs.Text.{all_darts_lines, certificate_text};
ghost use Rattle.tl_cert.specs.Beginnings.{IsTextOf};
ghost use Rattle.tl_cert.specs.Writing.{WritesCertificate};

use crate::certificate::{Certificate, Counts};
use crate::put::{put_counts, put_node, put_number, put_numbers};
use crate::range::look_at_certificate;
use crate::stop::WriteStop;
use itoa::write_digits;
use tl_cert_output::{Page, Printer};
use tl_record::Sink;
use tl_tree_index::TreeNode;

// Room for the line of the counts: a letter, four spaces, four numbers of up to ten digits and a line feed.
const COUNTS_ROOM: usize = 46;

// Room for a letter, a space, a number of up to twenty digits and a line feed.
const NUMBER_ROOM: usize = 23;

// How many lines of a number of 32 bits are put together before they are handed on.
const BATCH: usize = 16;

// Room for as many, each of a letter, a space, up to ten digits and a line feed.
const BATCH_ROOM: usize = 208;

// Room for as many and the line before them.
const LIST_ROOM: usize = 221;

// Room for a node's line and those of eight items: a letter, four coordinates of up to twelve bytes each with their space,
// a number and a line feed, and eight lines of up to 13 bytes.
const NODE_ROOM: usize = 165;

/// Writes the text of the certificate, and takes no memory. An error says that a write failed: what was written then is
/// a beginning of the text.
pub fn write_cert<W: Sink>(certificate: &Certificate, out: &mut W) -> Result<(), WriteStop>
    ensures writes { WritesCertificate W.contents W.failure_count out.old out.new (certificate_text certificate.now) result }
    // The text is that of a certificate: its numbers are in range, as those of its types are.
    ensures text { IsTextOf certificate.now (certificate_text certificate.now) }
{
    look_at_certificate(certificate);
    let mut printer = Printer::new(out);
    print_whole(certificate, &mut printer);
    match printer.finish() {
        Ok(()) => Ok(()),
        Err(_) => Err(WriteStop::Device),
    }
}

// Prints the text on a page that goes to a sink.
fn print_whole<W: Sink>(certificate: &Certificate, printer: &mut Printer<'_, W>)
    ensures same { printer.new.out.ghost_name ≡ printer.old.out.ghost_name }
    ensures prints { Prints W.contents W.failure_count (stands printer.old) (stands printer.new) (certificate_text certificate.now) }
{
    print_cert(certificate, printer);
}

/// Prints the text of the certificate.
pub fn print_cert<P: Page>(certificate: &Certificate, page: &mut P)
    ensures { P.adds page.old page.new (certificate_text certificate.now) }
{
    let version = certificate.version();
    write_head(version, certificate.counts(), page);
    write_tree(version, certificate.tree(), page);
    write_dart_lists(b'N', b'R', certificate.rounds(), page);
    write_dart_lists(b'W', b'K', certificate.walks(), page);
    page.add(b"END\n");
}

// Writes the version and the counts.
fn write_head<P: Page>(version: u8, counts: Counts, page: &mut P)
    requires { (version ≡ 1) ⊎ (version ≡ 2) }
    ensures { P.adds page.old page.new
        (joined_lines (Text.head_line version ∷ Text.counts_line counts ∷ [])) }
{
    page.add(head_line(version));
    write_counts(counts, page);
}

// Writes the counts.
fn write_counts<P: Page>(counts: Counts, page: &mut P)
    ensures { P.adds page.old page.new
        (line_of (Text.counts_line counts)) }
{
    let mut text = [0; COUNTS_ROOM];
    let start = put_counts(counts, &mut text, COUNTS_ROOM);
    page.add(&text[start..]);
}

// Writes the number of nodes, and the nodes.
fn write_tree<P: Page>(version: u8, nodes: &[TreeNode], page: &mut P)
    ensures { P.adds page.old page.new
        (joined_lines (tree_lines version nodes.now)) }
{
    write_number(b'T', nodes.len(), page);
    write_nodes(version, nodes, page);
}

fn write_nodes<P: Page>(version: u8, nodes: &[TreeNode], page: &mut P)
    ensures { P.adds page.old page.new
        (joined_lines (nodes_lines version nodes.now)) }
{
    let mut text = [0; NODE_ROOM];
    for node in nodes {
        write_node(version, node, &mut text, page);
    }
}

// Writes a node's lines, which are put together in this array.
fn write_node<P: Page>(version: u8, node: &TreeNode, text: &mut [u8; NODE_ROOM], page: &mut P)
    ensures { P.adds page.old page.new
        (joined_lines (nodes_lines version (node.now ∷ []))) }
{
    let start = put_node(version, node, text, NODE_ROOM);
    page.add(&text[start..]);
}

// Writes the number of lists behind one letter, and the lists, each behind the other letter.
fn write_dart_lists<P: Page>(letter: u8, each: u8, lists: &[Vec<u32>], page: &mut P)
    ensures { let all = map (λ l. l.items) lists.now in
        P.adds page.old page.new
        (joined_lines (numbered_line (letter ∷ []) (length all) ∷ all_darts_lines (each ∷ []) all)) }
{
    write_number(letter, lists.len(), page);
    write_each_dart_list(each, lists, page);
}

fn write_each_dart_list<P: Page>(letter: u8, lists: &[Vec<u32>], page: &mut P)
    ensures { P.adds page.old page.new
        (joined_lines (all_darts_lines (letter ∷ []) (map (λ l. l.items) lists.now))) }
{
    let mut text = [0; LIST_ROOM];
    for darts in lists {
        write_dart_list(letter, darts.as_slice(), &mut text, page);
    }
}

// Writes the number of darts behind the letter, and the darts. A few of them are put together in this array.
fn write_dart_list<P: Page>(letter: u8, darts: &[u32], text: &mut [u8; LIST_ROOM], page: &mut P)
    ensures { P.adds page.old page.new
        (joined_lines (darts_lines (letter ∷ []) darts.now)) }
{
    if darts.len() <= BATCH {
        return write_short_list(letter, darts, text, page);
    }
    write_number(letter, darts.len(), page);
    write_numbers(b'D', darts, page);
}

// Writes the number of a few darts behind the letter, and the darts, all of them at once.
fn write_short_list<P: Page>(letter: u8, darts: &[u32], text: &mut [u8; LIST_ROOM], page: &mut P)
    requires { length darts.now ≤ 16 }
    ensures { P.adds page.old page.new
        (joined_lines (darts_lines (letter ∷ []) darts.now)) }
{
    let behind = put_numbers(b'D', darts, text, LIST_ROOM);
    let start = put_number(letter, darts.len() as u32, text, behind);
    page.add(&text[start..]);
}

// Writes a line for each number: the letter and the number.
fn write_numbers<P: Page>(letter: u8, numbers: &[u32], page: &mut P)
    ensures { P.adds page.old page.new
        (joined_lines (map (numbered_line (letter ∷ [])) numbers.now)) }
{
    let mut written = 0;
    while written < numbers.len() {
        let count = (numbers.len() - written).min(BATCH);
        write_batch(letter, &numbers[written..written + count], page);
        written += count;
    }
}

// Writes a line for each of a few numbers, all of them at once.
fn write_batch<P: Page>(letter: u8, numbers: &[u32], page: &mut P)
    requires { length numbers.now ≤ 16 }
    ensures { P.adds page.old page.new
        (joined_lines (map (numbered_line (letter ∷ [])) numbers.now)) }
{
    let mut text = [0; BATCH_ROOM];
    let start = put_numbers(letter, numbers, &mut text, BATCH_ROOM);
    page.add(&text[start..]);
}

// Writes a line of a letter and a number.
fn write_number<P: Page>(letter: u8, number: usize, page: &mut P)
    ensures { P.adds page.old page.new
        (line_of (numbered_line (letter ∷ []) number)) }
{
    let mut line = [b'\n'; NUMBER_ROOM];
    let digits = write_digits(number as u64, &mut line, NUMBER_ROOM - 1);
    line[digits - 1] = b' ';
    line[digits - 2] = letter;
    page.add(&line[digits - 2..]);
}

// The line of the version, with its line feed.
fn head_line(version: u8) -> &'static [u8]
    requires { (version ≡ 1) ⊎ (version ≡ 2) }
    ensures { result.now ≡ line_of (Text.head_line version) }
{
    if version == 1 {
        return b"TIGERCERT 1\n".as_slice();
    }
    b"TIGERCERT 2\n".as_slice()
}
