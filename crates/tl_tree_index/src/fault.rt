//! What can be wrong with a tree.

/// Why a tree doesn't fit its items.
#[derive(Clone, Copy, Debug, PartialEq, Eq)]
pub enum TreeFault {
    /// A leaf has this index, and there is no such item.
    UnknownIndex(u32),
    /// This index stands in the leaves more than once.
    IndexTwice(u32),
    /// This item stands in no leaf.
    IndexMissing(u32),
    /// The rectangle of the node with this number, in preorder from 0, doesn't hold all points of the rectangle of an
    /// item below it.
    RectTooSmall(u32),
}

/// Why no tree is made of nodes.
#[derive(Clone, Copy, Debug, PartialEq, Eq)]
pub enum TreeStop {
    /// A node has a depth above 64, where the root has depth 1.
    TooDeep,
    /// Memory was refused.
    Memory,
}
