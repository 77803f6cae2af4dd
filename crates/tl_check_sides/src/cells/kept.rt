//! The ids that are kept: of each node the one of the first dart there that has one.

ghost use Rattle.std.specs.Prelude.{◌≡◌, IsNone, IfSome};
ghost use Rattle.std.specs.List.{AllPairs};
ghost use Rattle.std.specs.List.Sorted.{IsPermutation};
ghost use Rattle.tl_check_sides.specs.Cells.Keeping.Kept.{kept_id, AreById, HaveTwoIds, AreRepeat, HasRepeat};

use crate::cells::at_odds::CellsAtOdds;

/// A dart and the id at its start.
#[derive(Clone, Copy)]
pub struct NodeCell {
    pub id: u64,
    pub dart: u32,
}

/// Sorts what is kept by id, in place.
pub fn sort_by_id(kept: &mut [Option<NodeCell>])
    ensures ordered { AreById kept.new }
    ensures moved { IsPermutation kept.old kept.new }
{
    kept.sort_unstable_by_key(|cell| id_of(*cell));
}

/// The id of what is kept.
fn id_of(cell: Option<NodeCell>) -> Option<u64>
    ensures { result ≡ kept_id cell }
{
    match cell {
        Some(cell) => Some(cell.id),
        None => None,
    }
}

/// Two darts with one id, of what is kept by rising id.
pub fn find_repeat(kept: &[Option<NodeCell>]) -> Option<CellsAtOdds>
    requires { AreById kept.now }
    ensures none { IsNone result → AllPairs HaveTwoIds kept.now }
    ensures some { IfSome result (HasRepeat kept.now) }
{
    for place in 1..kept.len() {
        if let Some(found) = repeat(kept[place - 1], kept[place]) {
            return Some(found);
        }
    }
    None
}

/// The darts of both, where both are there and have one id.
fn repeat(one: Option<NodeCell>, other: Option<NodeCell>) -> Option<CellsAtOdds>
    ensures none { IsNone result → HaveTwoIds one other }
    ensures some { IfSome result (AreRepeat one other) }
{
    let (Some(a), Some(b)) = (one, other) else {
        return None;
    };
    if a.id != b.id {
        return None;
    }
    Some(CellsAtOdds {
        first: a.dart.min(b.dart),
        second: a.dart.max(b.dart),
        first_id: a.id,
        second_id: b.id,
    })
}
