//! The search for two ids that are at odds.

ghost use Rattle.std.specs.Prelude.{◌≡◌, ℕ, ◌*◌, length, IsTrue, IsFalse, IsNone, IfSome, IfOk};
ghost use Rattle.tl_check_sides.specs.Cells.Cells.{HasCell, HaveNoCells, CellsAgree, AreCellsAtOdds};
ghost use Rattle.tl_check_sides.specs.Cells.Keeping.Kept.{KeepFirst};

use crate::cells::at_odds::CellsAtOdds;
use crate::cells::kept::{NodeCell, find_repeat, sort_by_id};
use std::alloc::Global;
use tl_map_county::Map;
use tl_tree_index::Memory;

/// Two darts whose zero-cell ids are at odds, if those of a map don't agree. Where there are several such pairs, which
/// one is found is open.
///
/// Of a map in which a dart has an id it holds 24 bytes for each node until it answers, and `Memory` comes where those
/// were refused. Of any other map it takes no memory.
pub fn find_cells_at_odds(alloc: Global, map: &Map) -> Result<Option<CellsAtOdds>, Memory>
    // `None` is answered only where cells agree: of any two darts that have ids, the ids are equal exactly where the
    // darts start at one point.
    ensures agree { IfOk result (λ found. IsNone found → CellsAgree map.now.chains) }
    // The first is below the second, both have ids, these, and either the ids are equal and the starts differ, or the
    // starts are equal and the ids differ.
    ensures at_odds { IfOk result (λ found. IfSome found (λ odds.
        AreCellsAtOdds map.now.chains odds.first odds.second odds.first_id odds.second_id)) }
    // Of a map in which no dart has an id the answer is `None`, and not that memory was refused.
    ensures no_cells { HaveNoCells map.now.chains → result ≡ Ok None }
{
    if !has_cells(map) {
        return Ok(None);
    }
    let Ok(mut kept) = vec![in alloc; None; map.nodes() as usize] else {
        return Err(Memory);
    };
    Ok(find_by_node(map, &mut kept))
}

/// Whether a dart has an id.
fn has_cells(map: &Map) -> bool
    ensures some { IsTrue result → (d : ℕ) × (id : ℕ) × HasCell map.now.chains d id }
    ensures none { IsFalse result → HaveNoCells map.now.chains }
{
    for dart in 0..map.darts() {
        if map.dart_cell(dart).is_some() {
            return true;
        }
    }
    false
}

/// The same, with a place for each node, at none of which an id is kept yet.
fn find_by_node(map: &Map, kept: &mut [Option<NodeCell>]) -> Option<CellsAtOdds>
    requires { KeepFirst map.now.chains 0 kept.old }
    ensures agree { IsNone result → CellsAgree map.now.chains }
    ensures at_odds { IfSome result (λ odds.
        AreCellsAtOdds map.now.chains odds.first odds.second odds.first_id odds.second_id) }
{
    if let Some(found) = keep_first(map, kept) {
        return Some(found);
    }
    sort_by_id(kept);
    find_repeat(kept)
}

/// Keeps of each node the first dart there that has an id, or finds two darts there with two ids.
fn keep_first(map: &Map, kept: &mut [Option<NodeCell>]) -> Option<CellsAtOdds>
    requires { KeepFirst map.now.chains 0 kept.old }
    ensures kept { IsNone result → KeepFirst map.now.chains (2 * length map.now.chains) kept.new }
    ensures at_odds { IfSome result (λ odds.
        AreCellsAtOdds map.now.chains odds.first odds.second odds.first_id odds.second_id) }
{
    for dart in 0..map.darts() {
        let Some(id) = map.dart_cell(dart) else {
            continue;
        };
        let node = map.dart_node(dart) as usize;
        let first = kept[node].unwrap_or(NodeCell { id, dart });
        if first.id != id {
            return Some(CellsAtOdds {
                first: first.dart,
                second: dart,
                first_id: first.id,
                second_id: id,
            });
        }
        kept[node] = Some(first);
    }
    None
}
