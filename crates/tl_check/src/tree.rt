//! The tree of a certificate, and what is begun behind it.

ghost use Rattle.std.specs.Prelude.{◌<◌, ◌≤◌, ◌^◌, [], length, OnOk, IfOk, IfErr};
ghost use Rattle.tl_tree_index.specs.Preorder.{IsPreorder};
ghost use Rattle.tl_tree_index.specs.Trees.{depth, tree_of};
ghost use Rattle.tl_check_sides.specs.Keeping.Rounded.{AreSized, HaveTaken};
ghost use Rattle.tl_check_sides.specs.Cells.Cells.{CellsAgree};
ghost use Rattle.tl_check_verdict.specs.Valid.{AreCounts, IsTree};
ghost use Rattle.tl_check.specs.Keeping.Parts.{LeadsBehindTree, MayEnd};

use crate::search::{Found, search};
use crate::state::{Halt, State};
use std::alloc::Global;
use tl_check_planar::Segments;
use tl_check_sides::Rounds;
use tl_check_sides::cells::find_cells_at_odds;
use tl_check_verdict::{CertFault, MapFault};
use tl_map_county::Map;
use tl_tree::FlatTree;
use tl_tree_index::{TreeNode, TreeStop};

/// Takes the tree, behind counts that are the map's: it fits the map's segments and the chains are planar, or it is wrong,
/// or no further part is looked at.
pub fn take_tree(alloc: Global, map: &Map, nodes: &[TreeNode], budget: u64) -> Result<State, Halt>
    requires whole { IsPreorder nodes.now }
    requires numbered { length nodes.now < 2 ^ 32 }
    ensures { LeadsBehindTree map.now budget (IsTree map.now nodes.now) (λ c. AreCounts map.now c.counts) nodes.now result }
{
    match FlatTree::from_nodes(alloc, nodes) {
        Ok(tree) => search_by(alloc, map, tree, budget),
        Err(TreeStop::TooDeep) => Ok(State::Wrong(CertFault::TooDeep)),
        Err(TreeStop::Memory) => Err(Halt::Memory),
    }
}

/// Looks behind a tree, if it fits the map's segments, for a place where chains meet that they may not, and begins the rounds where
/// there is none.
fn search_by(alloc: Global, map: &Map, tree: FlatTree, budget: u64) -> Result<State, Halt>
    requires shallow { depth (tree_of tree) ≤ 64 }
    ensures { LeadsBehindTree map.now budget (IsTree map.now tree.entry) (λ c. AreCounts map.now c.counts) tree.entry result }
{
    match tree.check(alloc, &Segments::new(map))? {
        Some(fault) => return Ok(State::Wrong(CertFault::Tree(fault))),
        None => {}
    }
    match search(alloc, map, tree, budget)? {
        Found::Meet(meet) => Err(Halt::Fault(MapFault::Meet(meet))),
        Found::Budget => Err(Halt::Budget),
        Found::Planar(left) => {
            let rounds = begin_rounds(alloc, map)?;
            Ok(State::Rounding(rounds, left))
        }
    }
}

/// Begins the rounds of a map, whose zero-cell ids have to agree.
fn begin_rounds(alloc: Global, map: &Map) -> Result<Rounds, Halt>
    ensures agree { OnOk result (CellsAgree map.now.chains) }
    ensures sized { IfOk result (AreSized map.now.chains) }
    ensures none { IfOk result (HaveTaken map.now.chains []) }
    ensures halts { IfErr result (MayEnd map.now) }
{
    match find_cells_at_odds(alloc, map)? {
        Some(odds) => return Err(Halt::Fault(MapFault::Cell(odds))),
        None => {}
    }
    Ok(Rounds::new(alloc, map)?)
}
