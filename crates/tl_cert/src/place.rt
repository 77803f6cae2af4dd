//! The parts of a certificate, and the places between them.

use crate::certificate::Counts;
use tl_tree_index::TreeNode;

/// A part of a certificate.
#[derive(Drop)]
pub enum CertPart {
    /// The map's counts, and the certificate's version.
    Counts(Counts, u8),
    /// The nodes of the tree, in preorder.
    Tree(Vec<TreeNode>),
    /// The darts of a round.
    Round(Vec<u32>),
    /// The darts of a walk.
    Walk(Vec<u32>),
}

/// Which part comes next.
#[derive(Clone, Copy)]
pub enum NextPart {
    /// The head and the counts.
    Start,
    /// The tree, in this version.
    Counted(u8),
    /// The number of rounds, in this version.
    Treed(u8),
    /// So many rounds, and then the number of walks.
    Rounds(u32),
    /// So many walks, and then the end.
    Walks(u32),
}
