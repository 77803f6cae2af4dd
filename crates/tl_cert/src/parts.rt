//! The parts of a certificate, each read from its lines.

ghost use Rattle.std.specs.Prelude.{◌≡◌, ◌⊎◌, ◌<◌, ◌≤◌, ◌^◌, ◌∷◌, [], ℕ, suc};
ghost use Rattle.tl_cert.specs.Text.{item_lines, nodes_lines, tree_lines, darts_lines};
ghost use Rattle.tl_cert.specs.Keeping.Lines.{at, TellsRead};
ghost use Rattle.tl_cert.specs.Keeping.Steps.{start, counted, tree};
ghost use Rattle.tl_cert.specs.Keeping.Parts.{Reads, AreItems, AreVersionedCounts, versioned_lines, IsTree};
ghost use Rattle.tl_cert.specs.Keeping.Parts.{AreDarts, letter_of, among, IsNodeRead};

use crate::certificate::Counts;
use crate::line_kind::{CountsLine, Head, Numbered, TreeSize, roots_of};
use crate::lines::Lines;
use crate::node_line::{NodeLine, NodeStart};
use crate::stop::CertStop;
use arrayvec::ArrayVec;
use std::alloc::Global;
use tl_record::Source;
use tl_tree_index::TreeNode;

/// The two kinds of lists of darts.
#[derive(Clone, Copy)]
pub enum DartLists {
    Rounds,
    Walks,
}

/// The letter before the number of darts of such a list.
fn letter(lists: DartLists) -> u8
    ensures { result ≡ letter_of lists }
{
    match lists {
        DartLists::Rounds => b'R',
        DartLists::Walks => b'K',
    }
}

/// Reads the head and the counts, and gives the counts and the version.
pub fn read_counts<R: Source>(lines: &mut Lines, source: &mut R) -> Result<(Counts, u8), CertStop>
    requires { lines.old.lines < 2 ^ 126 }
    ensures reads { Reads R.remaining AreVersionedCounts versioned_lines start (at lines.old source.old) (at lines.new source.new) result }
    ensures failures { TellsRead (R.failure_count source.old) (R.failure_count source.new) result }
    ensures same_reference { R.reference source.new ≡ R.reference source.old }
{
    let version = match lines.read(source, &Head) {
        Ok(version) => version,
        Err(stop) => return Err(stop),
    };
    match lines.read(source, &CountsLine) {
        Ok(counts) => Ok((counts, version)),
        Err(stop) => Err(stop),
    }
}

/// Reads so many items of a leaf.
fn read_items<R: Source>(
    lines: &mut Lines,
    source: &mut R,
    count: u8,
) -> Result<ArrayVec<u32, 8>, CertStop>
    requires lines { lines.old.lines < 2 ^ 126 }
    requires count { count ≤ 8 }
    ensures reads { (v p r : ℕ) →
        Reads R.remaining (AreItems count) (λ v. item_lines v.items) (tree v p r count) (at lines.old source.old) (at lines.new source.new) result }
    ensures failures { TellsRead (R.failure_count source.old) (R.failure_count source.new) result }
    ensures same_reference { R.reference source.new ≡ R.reference source.old }
{
    let mut items = lines.items_at_once(count);
    let taken = items.len() as u8;
    for index in taken..count {
        match lines.read(
            source,
            &Numbered {
                letter: b'S',
                least: 0,
            },
        ) {
            Ok(item) => items.push(item),
            Err(stop) => return Err(stop),
        }
    }
    Ok(items)
}

/// Reads a list of darts with their number.
#[inline(always)]
pub fn read_darts<R: Source>(
    alloc: Global,
    lines: &mut Lines,
    source: &mut R,
    lists: DartLists,
) -> Result<Vec<u32>, CertStop>
    requires { lines.old.lines < 2 ^ 126 }
    ensures reads { (others : ℕ) → Reads R.remaining AreDarts (λ v. darts_lines (letter_of lists ∷ []) v.items)
        (among lists (suc others) 0) (at lines.old source.old) (at lines.new source.new) result }
    ensures failures { TellsRead (R.failure_count source.old) (R.failure_count source.new) result }
    ensures same_reference { R.reference source.new ≡ R.reference source.old }
{
    let count = match lines.read(
        source,
        &Numbered {
            letter: letter(lists),
            least: 1,
        },
    ) {
        Ok(count) => count,
        Err(stop) => return Err(stop),
    };
    let mut darts = match lines.darts_at_once(alloc, count) {
        Ok(darts) => darts,
        Err(_) => return Err(CertStop::Memory),
    };
    let taken = darts.len() as u32;
    for index in taken..count {
        match lines.read(
            source,
            &Numbered {
                letter: b'D',
                least: 0,
            },
        ) {
            Ok(dart) => match darts.push(dart) {
                Ok(()) => {}
                Err(_) => return Err(CertStop::Memory),
            },
            Err(stop) => return Err(stop),
        }
    }
    Ok(darts)
}

/// Reads a node, where so many subtrees and nodes are to come besides it and its children, and gives its number of
/// children too.
fn read_node<R: Source>(
    lines: &mut Lines,
    source: &mut R,
    version: u8,
    subtrees: u32,
    left: u32,
) -> Result<(TreeNode, u8), CertStop>
    requires lines { lines.old.lines < 2 ^ 125 }
    requires version { (version ≡ 1) ⊎ (version ≡ 2) }
    ensures reads { Reads R.remaining (IsNodeRead version subtrees left) (λ read. nodes_lines version (read.0 ∷ []))
        (tree version (suc subtrees) (suc left) 0) (at lines.old source.old) (at lines.new source.new) result }
    ensures failures { TellsRead (R.failure_count source.old) (R.failure_count source.new) result }
    ensures same_reference { R.reference source.new ≡ R.reference source.old }
{
    match lines.read(
        source,
        &NodeLine {
            version,
            subtrees,
            nodes: left,
        },
    ) {
        Ok(NodeStart::Inner(rect, children)) => Ok((TreeNode::Inner(rect, children), children)),
        Ok(NodeStart::Leaf(rect, count)) => match read_items(lines, source, count) {
            Ok(items) => Ok((TreeNode::Leaf(rect, items), 0)),
            Err(stop) => Err(stop),
        },
        Err(stop) => Err(stop),
    }
}

/// Reads the nodes of a tree with their number.
pub fn read_tree<R: Source>(
    alloc: Global,
    lines: &mut Lines,
    source: &mut R,
    version: u8,
) -> Result<Vec<TreeNode>, CertStop>
    requires lines { lines.old.lines < 2 ^ 124 }
    requires version { (version ≡ 1) ⊎ (version ≡ 2) }
    ensures reads { Reads R.remaining (λ v. IsTree version v.items) (λ v. tree_lines version v.items) (counted version)
        (at lines.old source.old) (at lines.new source.new) result }
    ensures failures { TellsRead (R.failure_count source.old) (R.failure_count source.new) result }
    ensures same_reference { R.reference source.new ≡ R.reference source.old }
{
    let count = match lines.read(source, &TreeSize { version }) {
        Ok(count) => count,
        Err(stop) => return Err(stop),
    };
    let mut nodes = Vec::new(alloc);
    let mut subtrees = roots_of(count);
    let mut left = count;
    while left > 0 {
        left -= 1;
        subtrees -= 1;
        match read_node(lines, source, version, subtrees, left) {
            Ok((node, children)) => {
                subtrees += u32::from(children);
                match nodes.push(node) {
                    Ok(()) => {}
                    Err(_) => return Err(CertStop::Memory),
                }
            }
            Err(stop) => return Err(stop),
        }
    }
    Ok(nodes)
}
