//! That the numbers of a certificate have 32 bits, as those of the types that hold them do.

ghost use Rattle.std.specs.Prelude.{All, map};
ghost use Rattle.tl_cert.specs.Certificates.{IsCertificate, IsInRange, IsNodeInRange, AreCountsInRange, IsNumber};

use crate::certificate::{Certificate, Counts};
use tl_geom::Rect;
use tl_tree_index::TreeNode;

/// Looks at each number of a certificate once, so that it is known of all of them that they are in range.
pub fn look_at_certificate(certificate: &Certificate)
    ensures { IsCertificate certificate.now }
{
    certificate.look_at_parts();
    look_at_counts(certificate.counts());
    look_at_nodes(certificate.tree());
    look_at_lists(certificate.rounds());
    look_at_lists(certificate.walks());
}

fn look_at_counts(counts: Counts)
    ensures { AreCountsInRange counts }
{
    let _chains = counts.chains;
    let _segments = counts.segments;
    let _nodes = counts.nodes;
    let _polygons = counts.polygons;
}

fn look_at_nodes(nodes: &[TreeNode])
    ensures { All IsNodeInRange nodes.now }
{
    for node in nodes {
        look_at_node(node);
    }
}

fn look_at_node(node: &TreeNode)
    ensures { IsNodeInRange node.now }
{
    match node {
        TreeNode::Inner(rect, _) => look_at_rect(*rect),
        TreeNode::Leaf(rect, items) => {
            look_at_rect(*rect);
            look_at_list(items.as_slice());
        }
    }
}

fn look_at_rect(rect: Rect)
    ensures { IsInRange rect }
{
    let _xmin = rect.xmin;
    let _ymin = rect.ymin;
    let _xmax = rect.xmax;
    let _ymax = rect.ymax;
}

fn look_at_lists(lists: &[Vec<u32>])
    ensures { All (All IsNumber) (map (λ l. l.items) lists.now) }
{
    for list in lists {
        look_at_list(list.as_slice());
    }
}

fn look_at_list(list: &[u32])
    ensures { All IsNumber list.now }
{}
