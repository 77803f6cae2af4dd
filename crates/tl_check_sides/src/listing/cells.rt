//! All zero-cell ids that are at odds.

ghost use Rattle.std.specs.Prelude.{◌≡◌, ◌<◌, ◌++◌, IfOk, OnOk, length, All};
ghost use Rattle.std.specs.List.Sorted.{IsPermutation};
ghost use Rattle.tl_check_sides.specs.Listing.CellOdds.{AreAllCellsAtOdds};
ghost use Rattle.tl_check_sides.specs.Listing.Keeping.Starts.{AreSorted, HasHead, IsHeadOf};
ghost use Rattle.tl_check_sides.specs.Listing.Keeping.Odds.{AreFirsts, HaveTold, ArePairsSorted, id_odds, start_odds};

use crate::cells::CellsAtOdds;
use crate::listing::starts::{CellStart, first_at_nodes, list_starts, sort_by_id};
use std::alloc::Global;
use tl_map_county::Map;
use tl_tree_index::Memory;

/// All zero-cell ids that are at odds, told by as few pairs of darts as will do: of each id the first dart that has it
/// with the first at each other start, and of each start the first dart there that has an id with the first there of
/// each other id. So an id at several starts gives a pair less than it has starts, and a start with several ids a pair
/// less than it has ids. The pairs come by rising number of the first dart, and of one first by rising number of the
/// second. An error says that memory was refused.
pub fn all_cells_at_odds(alloc: Global, map: &Map) -> Result<Vec<CellsAtOdds>, Memory>
    ensures { IfOk result (λ found. AreAllCellsAtOdds map.now.chains found.items) }
{
    let Ok(mut starts) = list_starts(alloc, map) else {
        return Err(Memory);
    };
    let Ok(firsts) = first_at_nodes(alloc, map.nodes(), &starts) else {
        return Err(Memory);
    };
    sort_by_id(&mut starts);
    let mut found = find_pairs(alloc, map, &starts, &firsts)?;
    sort_pairs(&mut found);
    Ok(found)
}

/// The pairs of all darts that have ids, these by their ids, in an order that is left open.
fn find_pairs(
    alloc: Global,
    map: &Map,
    starts: &[CellStart],
    firsts: &[Option<CellStart>],
) -> Result<Vec<CellsAtOdds>, Memory>
    requires starts { AreSorted map.now.chains starts.now }
    requires firsts { AreFirsts map.now.chains firsts.now }
    requires known { All (λ s. s.node < length firsts.now) starts.now }
    ensures { IfOk result (λ found. HaveTold map.now.chains starts.now (length starts.now) found.items) }
{
    let Ok(mut seen) = vec![in alloc; None; firsts.len()] else {
        return Err(Memory);
    };
    let mut found = Vec::new(alloc);
    let mut head = 0;
    for place in 0..starts.len() {
        let start = starts[place];
        head = head_at(starts, place, head);
        if seen[start.node as usize] == Some(start.id) {
            continue;
        }
        seen[start.node as usize] = Some(start.id);
        push_by_id(start, head, &mut found)?;
        push_by_start(start, firsts[start.node as usize], &mut found)?;
    }
    Ok(found)
}

/// The first of the darts with the id of that at a place, if that of the place before it is this one.
fn head_at(starts: &[CellStart], place: usize, head: u32) -> u32
    requires within { place < length starts.now }
    requires before { HasHead starts.now place head }
    ensures { IsHeadOf starts.now place result }
{
    let start = starts[place];
    if place == 0 {
        start.dart
    } else if starts[place - 1].id == start.id {
        head
    } else {
        start.dart
    }
}

/// Appends the pair of a dart with the first that has its id, unless it is that one.
fn push_by_id(start: CellStart, head: u32, found: &mut Vec<CellsAtOdds>) -> Result<(), Memory>
    ensures { OnOk result (found.new.items ≡ found.old.items ++ id_odds start head) }
{
    if head == start.dart {
        return Ok(());
    }
    let odds = CellsAtOdds {
        first: head,
        second: start.dart,
        first_id: start.id,
        second_id: start.id,
    };
    if found.push(odds).is_err() {
        Err(Memory)
    } else {
        Ok(())
    }
}

/// Appends the pair of a dart with the first at its start that has an id, unless that one has the same id.
fn push_by_start(
    start: CellStart,
    first: Option<CellStart>,
    found: &mut Vec<CellsAtOdds>,
) -> Result<(), Memory>
    ensures { OnOk result (found.new.items ≡ found.old.items ++ start_odds start first) }
{
    let Some(first) = first else {
        return Ok(());
    };
    if first.id == start.id {
        return Ok(());
    }
    let odds = CellsAtOdds {
        first: first.dart,
        second: start.dart,
        first_id: first.id,
        second_id: start.id,
    };
    if found.push(odds).is_err() {
        Err(Memory)
    } else {
        Ok(())
    }
}

/// Sorts pairs by their first darts, and those of one first by their second, in place.
fn sort_pairs(found: &mut Vec<CellsAtOdds>)
    ensures ordered { ArePairsSorted found.new.items }
    ensures moved { IsPermutation found.old.items found.new.items }
{
    found.sort_unstable_by_key(|odds| (odds.first, odds.second));
}
