//! A certificate: what a stranger says of a map, before anyone has checked it.

ghost use Rattle.std.specs.Prelude.{◌≡◌, ◌⊎◌, MatchOption, map};
ghost use Rattle.tl_tree_index.specs.Preorder.{IsPreorder};
ghost use Rattle.tl_cert.specs.Certificates.{MakesCertificate, IsCounted, AreDartLists, made};

use crate::collected::Parts;
use std::marker::Model;
use tl_tree_index::TreeNode;

/// How many chains, segments, nodes and polygons a map has.
#[derive(Clone, Copy, PartialEq, Eq)]
pub struct Counts {
    pub chains: u32,
    pub segments: u32,
    pub nodes: u32,
    pub polygons: u32,
}

/// A certificate of version 1 or 2: the map's counts, a tree of rectangles in preorder over its segments, the darts that
/// start at each node in their order round it, and the rings of darts. What they say need not be true of any map.
#[derive(Drop)]
pub struct Certificate {
    parts: Parts,
}

impl Model for Certificate {
    ghost use Rattle.tl_cert.specs.Certificates.{TheCertificate, MakesCertificate};

    ghost Value = { TheCertificate };

    ghost view = { λ c. c.parts };

    ghost invariant = { λ c. MakesCertificate c.parts };
}

impl Certificate {
    /// A certificate of these parts, where they make one: the nodes are a preorder of one whole tree or none, each leaf
    /// has an item and each round and walk a dart, no list is longer than a `u32` counts, the version is 1 or 2, and each
    /// inner node of version 1 has two children. It takes no memory.
    pub fn new(
        counts: Counts,
        tree: Vec<TreeNode>,
        rounds: Vec<Vec<u32>>,
        walks: Vec<Vec<u32>>,
        version: u8,
    ) -> Option<Certificate>
        ensures { MatchOption result
            (¬ MakesCertificate (made version counts tree.items rounds.items walks.items))
            (λ c. (c ≡ made version counts tree.items rounds.items walks.items) × MakesCertificate c) }
    {
        let parts = Parts::new(counts, tree, rounds, walks, version);
        if !parts.make_certificate() {
            return None;
        }
        Some(Certificate::of_parts(parts))
    }

    /// The certificate that these parts make.
    pub(crate) fn of_parts(parts: Parts) -> Certificate
        requires { MakesCertificate parts }
        ensures { result ≡ parts }
    {
        Certificate { parts }
    }

    /// What is known of each certificate: its parts make one.
    pub(crate) fn look_at_parts(&self)
        ensures { MakesCertificate self.now }
    {
        let _parts = &self.parts;
    }

    /// The version, 1 or 2.
    pub fn version(&self) -> u8
        ensures version { result ≡ self.now.version }
        ensures known { (result ≡ 1) ⊎ (result ≡ 2) }
    {
        self.parts.version
    }

    /// How many chains, segments, nodes and polygons the map is said to have.
    pub fn counts(&self) -> Counts
        ensures { result ≡ self.now.counts }
    {
        self.parts.counts
    }

    /// The nodes of the tree, in preorder.
    pub fn tree(&self) -> &[TreeNode]
        ensures tree { result.now ≡ self.now.tree }
        ensures preorder { IsPreorder self.now.tree }
        ensures counted { IsCounted self.now.tree }
    {
        self.parts.tree.as_slice()
    }

    /// The darts of each round.
    pub fn rounds(&self) -> &[Vec<u32>]
        ensures rounds { map (λ r. r.items) result.now ≡ self.now.rounds }
        ensures each { AreDartLists self.now.rounds }
    {
        self.parts.rounds.as_slice()
    }

    /// The darts of each walk.
    pub fn walks(&self) -> &[Vec<u32>]
        ensures walks { map (λ w. w.items) result.now ≡ self.now.walks }
        ensures each { AreDartLists self.now.walks }
    {
        self.parts.walks.as_slice()
    }

    /// The same certificate in version 2. It takes no memory.
    pub fn to_v2(self) -> Certificate
        ensures { result ≡ record self { version = 2 } }
    {
        Certificate {
            parts: self.parts.in_version_2(),
        }
    }
}
