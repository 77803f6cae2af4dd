//! The certificate that is proposed for a map.

ghost use Rattle.std.specs.Prelude.{◌*◌, ◌≤◌, length, All, IfOk, MatchOption};
ghost use Rattle.tl_tree_index.specs.Preorder.{IsPreorder};
ghost use Rattle.tl_tree_index.specs.Trees.{depth, tree_of};
ghost use Rattle.tl_tree_index.specs.Packed.{IsEvenlySplit};
ghost use Rattle.tl_check_planar.specs.Planar.{IsPlanar};
ghost use Rattle.tl_check_sides.specs.Lists.{HoldOnce};
ghost use Rattle.tl_check_sides.specs.Sides.{SidesAgree};
ghost use Rattle.tl_check_sides.specs.Rounds.{AreRounds};
ghost use Rattle.tl_check_sides.specs.Walks.{AreWalks};
ghost use Rattle.tl_check_faces.specs.Crossings.Headings.{AreProper, HeadApart};
ghost use Rattle.tl_cert.specs.Certificates.{AreDartLists, IsCounted, IsNode};
ghost use Rattle.tl_check_verdict.specs.Valid.{AreCounts, IsTree};
ghost use Rattle.tl_build_propose.specs.Keeping.Lists.{lists_in};
ghost use Rattle.tl_build_propose.specs.Keeping.Proposed.{IsProposal};
ghost use Rattle.tl_build_propose.specs.Keeping.Sorting.{AreStarts};
ghost use Rattle.tl_build_propose.specs.Keeping.Counted.{HaveWalksInAgreement};

use crate::counted::count_traced;
use crate::rounds::{cut_rounds, sort_starts};
use crate::walks::{link_darts, trace_walks};
use std::alloc::{AllocError, Global};
use tl_cert::{Certificate, Counts};
use tl_check_planar::Segments;
use tl_check_sides::HeadedDart;
use tl_map_county::Map;
use tl_tree_index::{TreeNode, pack};

/// The certificate of version 2 that is proposed for a map.
pub fn propose(alloc: Global, map: &Map) -> Result<Certificate, AllocError>
    // Its counts are the map's, its tree fits the segments, is split evenly and has at most 8 levels, and its rounds
    // and its walks hold each dart once; where the chains are planar, they are the map's.
    ensures { IfOk result (IsProposal map.now) }
{
    let counts = counts_of(map);
    let tree = propose_tree(alloc, map)?;
    let (rounds, walks) = propose_rings(alloc, map)?;
    match Certificate::new(counts, tree, rounds, walks, 2) {
        Some(certificate) => Ok(certificate),
        None => unreachable!(),
    }
}

/// The counts of a map.
fn counts_of(map: &Map) -> Counts
    ensures { AreCounts map.now result }
{
    Counts {
        chains: map.chains(),
        segments: map.segments(),
        nodes: map.nodes(),
        polygons: map.polygons(),
    }
}

/// The tree over the segments of a map.
fn propose_tree(alloc: Global, map: &Map) -> Result<Vec<TreeNode>, AllocError>
    ensures tree { IfOk result (λ nodes. IsTree map.now nodes.items) }
    ensures shallow { IfOk result (λ nodes. depth (tree_of nodes.items) ≤ 8) }
    ensures split { IfOk result (λ nodes. IsEvenlySplit (tree_of nodes.items)) }
    ensures whole { IfOk result (λ nodes. IsPreorder nodes.items) }
    ensures counted { IfOk result (λ nodes. IsCounted nodes.items) }
    ensures each { IfOk result (λ nodes. All (IsNode 2) nodes.items) }
{
    // that there are at most 8 ^ 8 segments, which need 8 levels
    let _segments = map.segments();
    let nodes = pack(alloc, &Segments::new(map))?;
    Ok(nodes)
}

/// The rounds and the walks of a map.
fn propose_rings(alloc: Global, map: &Map) -> Result<(Vec<Vec<u32>>, Vec<Vec<u32>>), AllocError>
    ensures rounds { IfOk result (λ made.
        HoldOnce (2 * length map.now.chains) (lists_in made.0.items)) }
    ensures walks { IfOk result (λ made.
        HoldOnce (2 * length map.now.chains) (lists_in made.1.items)) }
    ensures are_rounds { IfOk result (λ made. AreProper map.now.chains → IsPlanar map.now.chains →
        AreRounds map.now.chains (lists_in made.0.items)) }
    ensures are_walks { IfOk result (λ made. AreProper map.now.chains → IsPlanar map.now.chains →
        AreWalks map.now.chains (lists_in made.1.items)) }
    ensures rounds_counted { IfOk result (λ made. AreDartLists (lists_in made.0.items)) }
    ensures walks_counted { IfOk result (λ made. AreDartLists (lists_in made.1.items)) }
{
    let starts = sort_starts(alloc, map)?;
    let rounds = rounds_of(alloc, map, &starts)?;
    let walks = walks_of(alloc, map, starts)?;
    Ok((rounds, walks))
}

/// The walks of a map.
pub fn propose_walks(alloc: Global, map: &Map) -> Result<Vec<Vec<u32>>, AllocError>
    ensures hold { IfOk result (λ walks. HoldOnce (2 * length map.now.chains) (lists_in walks.items)) }
    ensures are_walks { IfOk result (λ walks. AreProper map.now.chains → IsPlanar map.now.chains →
        AreWalks map.now.chains (lists_in walks.items)) }
    ensures counted { IfOk result (λ walks. AreDartLists (lists_in walks.items)) }
{
    let starts = sort_starts(alloc, map)?;
    walks_of(alloc, map, starts)
}

/// The rounds of a map, by its sorted darts.
fn rounds_of(alloc: Global, map: &Map, starts: &[HeadedDart]) -> Result<Vec<Vec<u32>>, AllocError>
    requires { AreStarts map.now.chains starts.now }
    ensures hold { IfOk result (λ rounds. HoldOnce (2 * length map.now.chains) (lists_in rounds.items)) }
    ensures are_rounds { IfOk result (λ rounds. AreProper map.now.chains → IsPlanar map.now.chains →
        AreRounds map.now.chains (lists_in rounds.items)) }
    ensures counted { IfOk result (λ rounds. AreDartLists (lists_in rounds.items)) }
{
    let rounds = cut_rounds(alloc, map.nodes(), starts)?;
    Ok(rounds)
}

/// The walks of a map, by its sorted darts, whose list is freed before there are walks.
fn walks_of(alloc: Global, map: &Map, starts: Vec<HeadedDart>) -> Result<Vec<Vec<u32>>, AllocError>
    requires { AreStarts map.now.chains starts.items }
    ensures hold { IfOk result (λ walks. HoldOnce (2 * length map.now.chains) (lists_in walks.items)) }
    ensures are_walks { IfOk result (λ walks. AreProper map.now.chains → HeadApart map.now.chains →
        AreWalks map.now.chains (lists_in walks.items)) }
    ensures counted { IfOk result (λ walks. AreDartLists (lists_in walks.items)) }
{
    // that the nodes of a map are one list
    let _nodes = map.nodes();
    let following = link_darts(alloc, &starts)?;
    drop(starts);
    let walks = trace_walks(alloc, &following)?;
    Ok(walks)
}

/// How many walks a map has where each of them has one side on its left; none is told where one has two. No walk is kept.
pub fn count_walks(alloc: Global, map: &Map) -> Result<Option<u32>, AllocError>
    // Where the chains are planar: they have so many walks, and their sides agree; or where none is told, their sides don't.
    ensures { IfOk result (λ told. AreProper map.now.chains → IsPlanar map.now.chains →
        MatchOption told (¬ SidesAgree map.now.chains) (HaveWalksInAgreement map.now.chains)) }
{
    let starts = sort_starts(alloc, map)?;
    count_walks_of(alloc, map, starts)
}

/// The same by the map's sorted darts, whose list is freed before walks are taken.
fn count_walks_of(
    alloc: Global,
    map: &Map,
    starts: Vec<HeadedDart>,
) -> Result<Option<u32>, AllocError>
    requires { AreStarts map.now.chains starts.items }
    ensures { IfOk result (λ told. AreProper map.now.chains → HeadApart map.now.chains →
        MatchOption told (¬ SidesAgree map.now.chains) (HaveWalksInAgreement map.now.chains)) }
{
    // that the nodes of a map are one list
    let _nodes = map.nodes();
    let following = link_darts(alloc, &starts)?;
    drop(starts);
    count_traced(alloc, map, &following)
}
