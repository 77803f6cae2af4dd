//! The lines of nodes.

ghost use Rattle.std.specs.Prelude.{◌≡◌, ◌<◌, ◌≤◌, ◌+◌, ◌↔◌, ◌∷◌, ◌++◌, ℕ};
ghost use Rattle.std.specs.Prelude.{IsTrue, MatchOption, IfSome, length};
ghost use Rattle.tl_cert.specs.Certificates.{IsInRange};
ghost use Rattle.tl_cert.specs.Text.{number, children};
ghost use Rattle.tl_cert.specs.Keeping.Words.{StandsFirst};
ghost use Rattle.tl_cert.specs.Keeping.Kinds.{node_line, NodeFits, ChildrenFit, children_told};
ghost use Rattle.tl_cert.specs.Keeping.Steps.{CanHave};

use crate::front::{front_rectangle, front_small};
use crate::line_kind::{LineKind, can_have};
use crate::number::{behind, last_number, next_behind, split_rectangle};
use tl_geom::Rect;

// How many children or items a node has at most, and how many children at least.
const MOST: u8 = 8;

const LEAST_CHILDREN: u8 = 2;

// How many bytes a node's line has at most: a letter, four coordinates of up to twelve bytes each with their space, another
// space, a digit and a line feed.
const MOST_BYTES: usize = 52;

/// What the line of a node tells of it.
#[derive(Clone, Copy)]
pub enum NodeStart {
    /// An inner node with its number of children.
    Inner(Rect, u8),
    /// A leaf with its number of items.
    Leaf(Rect, u8),
}

/// The number that the bytes spell behind a space, where it is from `least` to 8.
fn small_number(bytes: &[u8], least: u8) -> Option<u8>
    ensures { MatchOption result ((k : ℕ) → least ≤ k → k ≤ 8 → ¬ (bytes.now ≡ number k))
        (λ k. (bytes.now ≡ number k) × (least ≤ k) × (k ≤ 8)) }
{
    let Some(k) = last_number(bytes) else {
        return None;
    };
    if k < u32::from(least) {
        return None;
    }
    if k > u32::from(MOST) {
        return None;
    }
    Some(k as u8)
}

/// How many children the bytes tell of.
fn child_count(version: u8, bytes: &[u8]) -> Option<u8>
    ensures { MatchOption result ((k : ℕ) → ChildrenFit version k → ¬ (bytes.now ≡ children version k))
        (λ k. (bytes.now ≡ children version k) × ChildrenFit version k) }
{
    if version >= 2 {
        return small_number(bytes, LEAST_CHILDREN);
    }
    if !bytes.is_empty() {
        return None;
    }
    Some(LEAST_CHILDREN)
}

/// The inner node whose line goes on with these bytes.
fn inner_start(version: u8, bytes: &[u8]) -> Option<NodeStart>
    ensures { MatchOption result
        ((r : Rect) (k : ℕ) → IsInRange r → ChildrenFit version k
        → ¬ (66 ∷ bytes.now ≡ node_line version (NodeStart.Inner r k)))
        (λ node. NodeFits version node × (66 ∷ bytes.now ≡ node_line version node)) }
{
    let Some((rect, others)) = split_rectangle(bytes) else {
        return None;
    };
    let Some(k) = child_count(version, others) else {
        return None;
    };
    Some(NodeStart::Inner(rect, k))
}

/// The leaf whose line goes on with these bytes.
fn leaf_start(bytes: &[u8]) -> Option<NodeStart>
    ensures { MatchOption result
        ((version : ℕ) (r : Rect) (k : ℕ) → IsInRange r → 1 ≤ k → k ≤ 8
        → ¬ (76 ∷ bytes.now ≡ node_line version (NodeStart.Leaf r k)))
        (λ node. (version : ℕ) → NodeFits version node × (76 ∷ bytes.now ≡ node_line version node)) }
{
    let Some((rect, others)) = split_rectangle(bytes) else {
        return None;
    };
    let Some(k) = small_number(others, 1) else {
        return None;
    };
    Some(NodeStart::Leaf(rect, k))
}

/// What the line of a node tells, in a certificate of this version.
fn node_start(version: u8, line: &[u8]) -> Option<NodeStart>
    ensures { MatchOption result ((node : NodeStart) → NodeFits version node → ¬ (line.now ≡ node_line version node))
        (λ node. NodeFits version node × (line.now ≡ node_line version node)) }
{
    if let Some(others) = behind(line, b'B') {
        return inner_start(version, others);
    }
    let Some(others) = behind(line, b'L') else {
        return None;
    };
    leaf_start(others)
}

/// How many children the bytes tell of, up to the line's end, and the bytes behind it. None says nothing.
#[inline(always)]
fn front_children(version: u8, bytes: &[u8]) -> Option<(u8, &[u8])>
    requires { 3 ≤ length bytes.now }
    ensures { IfSome result (λ front. (bytes.now ≡ children version front.0 ++ (10 ∷ front.1.now))
        × ChildrenFit version front.0) }
{
    if version >= 2 {
        return front_small(bytes, LEAST_CHILDREN);
    }
    let Some(rest) = next_behind(bytes, b'\n') else {
        return None;
    };
    Some((LEAST_CHILDREN, rest))
}

/// The node whose line stands whole at the front of the bytes, and the line's length. None says nothing.
#[inline(always)]
fn front_node(version: u8, bytes: &[u8]) -> Option<(NodeStart, usize)>
    ensures { IfSome result (λ front. NodeFits version front.0 × StandsFirst bytes.now (node_line version front.0) front.1) }
{
    // A node's line is no longer: behind this nothing is short of bytes.
    if bytes.len() < MOST_BYTES {
        return None;
    }
    let Some((rect, others)) = front_rectangle(&bytes[1..]) else {
        return None;
    };
    if bytes[0] == b'L' {
        let Some((items, rest)) = front_small(others, 1) else {
            return None;
        };
        return Some((NodeStart::Leaf(rect, items), bytes.len() - rest.len() - 1));
    }
    if bytes[0] != b'B' {
        return None;
    }
    let Some((k, rest)) = front_children(version, others) else {
        return None;
    };
    Some((NodeStart::Inner(rect, k), bytes.len() - rest.len() - 1))
}

/// How many children a node has.
fn children_of(node: &NodeStart) -> u8
    ensures { result ≡ children_told node.now }
{
    match node {
        NodeStart::Inner(_, children) => *children,
        NodeStart::Leaf(_, _) => 0,
    }
}

/// The first line of a node, in a certificate of this version, where so many subtrees and nodes are to come besides it
/// and its children.
#[derive(Clone, Copy)]
pub struct NodeLine {
    pub version: u8,
    pub subtrees: u32,
    pub nodes: u32,
}

impl NodeLine {
    /// Whether the trees can still have so many nodes, where this node comes next.
    #[inline(always)]
    fn can_begin(&self, node: &NodeStart) -> bool
        ensures { IsTrue result
            ↔ CanHave self.now.version (children_told node.now + self.now.subtrees) self.now.nodes }
    {
        let trees = u64::from(children_of(node)) + u64::from(self.subtrees);
        can_have(self.version, trees, u64::from(self.nodes))
    }
}

impl LineKind for NodeLine {
    type Value = NodeStart;

    ghost spelt = { λ kind node. node_line kind.version node };

    ghost fits = { λ kind node. NodeFits kind.version node
        × CanHave kind.version (children_told node + kind.subtrees) kind.nodes };

    fn parse(&self, line: &[u8]) -> Option<NodeStart> {
        let Some(node) = node_start(self.version, line) else {
            return None;
        };
        if !self.can_begin(&node) {
            return None;
        }
        Some(node)
    }

    #[inline(always)]
    fn front(&self, bytes: &[u8]) -> Option<(NodeStart, usize)> {
        let Some((node, len)) = front_node(self.version, bytes) else {
            return None;
        };
        if !self.can_begin(&node) {
            return None;
        }
        Some((node, len))
    }
}
