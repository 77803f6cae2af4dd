//! All places where sides disagree.

ghost use Rattle.std.specs.Prelude.{◌<◌, ◌+◌, zero, IfOk, OnOk};
ghost use Rattle.tl_map_county.specs.Darts.{dart_left};
ghost use Rattle.tl_check_sides.specs.Sides.{dart_count};
ghost use Rattle.tl_check_sides.specs.Listing.Disagreements.{AreAllDisagreements};
ghost use Rattle.tl_check_sides.specs.Listing.Keeping.Grouped.{AreNextTo};
ghost use Rattle.tl_check_sides.specs.Listing.Keeping.Telling.{AreDisagreementsBefore};

use crate::listing::groups::Groups;
use crate::{Disagreement, HeadedDart};
use std::alloc::Global;
use tl_map_county::{Map, reverse_dart};
use tl_tree_index::Memory;

/// All pairs of darts, the second next after the first about their node, where what is on the left of the first isn't
/// what is on the right of the second: by rising number of the first, and of one first by rising number of the next. An
/// error says that memory was refused.
///
/// Each pair of a dart and a next one is looked at. There are as many as darts, but where several darts head in one
/// direction about one node. Any two of those overlap, so the pairs more are at most four times as many as the map's
/// meets.
pub fn all_disagreements(alloc: Global, map: &Map) -> Result<Vec<Disagreement>, Memory>
    ensures { IfOk result (λ found. AreAllDisagreements map.now.chains found.items) }
{
    let mut found = Vec::new(alloc);
    // So all sides of a map without polygons are the outside, and none differ.
    map.names_its_polygons();
    if map.polygons() == 0 {
        return Ok(found);
    }
    let Ok(groups) = Groups::new(alloc, map) else {
        return Err(Memory);
    };
    for dart in 0..map.darts() {
        push_next(map, dart, groups.next_after(map, dart), &mut found)?;
    }
    Ok(found)
}

/// Appends the pairs of a dart and those that are next after it where sides disagree.
fn push_next(
    map: &Map,
    dart: u32,
    next: &[HeadedDart],
    found: &mut Vec<Disagreement>,
) -> Result<(), Memory>
    requires known { dart < dart_count map.now.chains }
    requires next { AreNextTo map.now.chains dart next.now }
    requires found { AreDisagreementsBefore map.now.chains dart zero found.old.items }
    ensures { OnOk result (AreDisagreementsBefore map.now.chains (dart + 1) zero found.new.items) }
{
    let left = map.dart_left(dart);
    for place in 0..next.len() {
        let other = next[place].dart;
        if left.is(map.dart_left(reverse_dart(other))) {
            continue;
        }
        if found
            .push(Disagreement {
                first: dart,
                next: other,
            })
            .is_err()
        {
            return Err(Memory);
        }
    }
    Ok(())
}
