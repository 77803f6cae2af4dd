//! Parts of a certificate, as they are collected.

ghost use Rattle.std.specs.Prelude.{◌≡◌, ◌⊎◌, ◌↔◌, [], IsTrue, OnOk, All, map};
ghost use Rattle.tl_cert.specs.Given.{with_part};
ghost use Rattle.tl_cert.specs.Certificates.{MakesCertificate, IsNode, IsDartList, AreDartLists, made};

use crate::certificate::Counts;
use crate::place::CertPart;
use std::alloc::{AllocError, Global};
use std::marker::Model;
use tl_tree_index::{TreeNode, is_preorder};

/// A version, counts, the nodes of a tree, rounds and walks, whether they make a certificate or not.
#[derive(Drop)]
pub struct Parts {
    pub version: u8,
    pub counts: Counts,
    pub tree: Vec<TreeNode>,
    pub rounds: Vec<Vec<u32>>,
    pub walks: Vec<Vec<u32>>,
}

impl Model for Parts {
    ghost use Rattle.std.specs.Prelude.{map};
    ghost use Rattle.tl_cert.specs.Certificates.{TheCertificate};

    ghost Value = { TheCertificate };

    ghost view = { λ c. record {
      version = c.version;
      counts = c.counts;
      tree = c.tree.items;
      rounds = map (λ r. r.items) c.rounds.items;
      walks = map (λ w. w.items) c.walks.items;
    } };
}

impl Parts {
    /// These parts.
    pub fn new(
        counts: Counts,
        tree: Vec<TreeNode>,
        rounds: Vec<Vec<u32>>,
        walks: Vec<Vec<u32>>,
        version: u8,
    ) -> Parts
        ensures { result ≡ made version counts tree.items rounds.items walks.items }
    {
        Parts {
            version,
            counts,
            tree,
            rounds,
            walks,
        }
    }

    /// No part yet: what a reader of parts starts with.
    pub fn empty(alloc: Global) -> Parts
        ensures { (result.tree ≡ []) × (result.rounds ≡ []) × (result.walks ≡ []) }
    {
        Parts {
            version: 1,
            counts: Counts {
                chains: 0,
                segments: 0,
                nodes: 0,
                polygons: 0,
            },
            tree: Vec::new(alloc),
            rounds: Vec::new(alloc),
            walks: Vec::new(alloc),
        }
    }

    /// Takes one more part, which is the first, or comes behind those that were taken.
    pub fn take(&mut self, part: CertPart) -> Result<(), AllocError>
        ensures { OnOk result (self.new ≡ with_part self.old part) }
    {
        match part {
            CertPart::Counts(counts, version) => {
                self.counts = counts;
                self.version = version;
            }
            CertPart::Tree(nodes) => self.tree = nodes,
            CertPart::Round(darts) => self.rounds.push(darts)?,
            CertPart::Walk(darts) => self.walks.push(darts)?,
        }
        Ok(())
    }

    /// Whether they make a certificate.
    pub fn make_certificate(&self) -> bool
        ensures { IsTrue result ↔ MakesCertificate self.now }
    {
        is_known(self.version)
            && is_preorder(self.tree.as_slice())
            && self.tree.len() <= MOST
            && are_nodes(self.version, self.tree.as_slice())
            && are_dart_lists(self.rounds.as_slice())
            && are_dart_lists(self.walks.as_slice())
    }

    /// The same parts in version 2.
    pub fn in_version_2(self) -> Parts
        ensures { result ≡ record self { version = 2 } }
    {
        Parts { version: 2, ..self }
    }
}

// The greatest length of a list.
const MOST: usize = u32::MAX as usize;

fn is_known(version: u8) -> bool
    ensures { IsTrue result ↔ ((version ≡ 1) ⊎ (version ≡ 2)) }
{
    version == 1 || version == 2
}

fn is_node(version: u8, node: &TreeNode) -> bool
    ensures { IsTrue result ↔ IsNode version node.now }
{
    match node {
        TreeNode::Inner(_, children) => version != 1 || *children == 2,
        TreeNode::Leaf(_, items) => !items.is_empty(),
    }
}

fn are_nodes(version: u8, nodes: &[TreeNode]) -> bool
    ensures { IsTrue result ↔ All (IsNode version) nodes.now }
{
    for node in nodes {
        if !is_node(version, node) {
            return false;
        }
    }
    true
}

fn is_dart_list(darts: &[u32]) -> bool
    ensures { IsTrue result ↔ IsDartList darts.now }
{
    0 < darts.len() && darts.len() <= MOST
}

fn are_dart_lists(lists: &[Vec<u32>]) -> bool
    ensures { IsTrue result ↔ AreDartLists (map (λ l. l.items) lists.now) }
{
    lists.len() <= MOST && is_each_dart_list(lists)
}

fn is_each_dart_list(lists: &[Vec<u32>]) -> bool
    ensures { IsTrue result ↔ All (λ l. IsDartList l.items) lists.now }
{
    for darts in lists {
        if !is_dart_list(darts.as_slice()) {
            return false;
        }
    }
    true
}
