//! All places where a map's chains meet that they may not.
ghost use Rattle.std.specs.Prelude.{IfOk, length};
ghost use Rattle.tl_map_county.specs.Segments.{segments_before};
ghost use Rattle.tl_map_county.specs.Remaining.{remaining};
ghost use Rattle.tl_check_planar.specs.Planar.{IsPlanar};
ghost use Rattle.tl_check_planar.specs.Rectangles.{segment_rect};
ghost use Rattle.tl_check_planar.specs.Searching.{MayTell};
ghost use Rattle.tl_tree_index.specs.Searches.{IsConflict};
ghost use Rattle.tl_check_planar.specs.Listing.Conflicts.{AreAllConflicts};
ghost use Rattle.tl_check_planar.specs.Listing.Meets.{AreAllMeets};
ghost use Rattle.tl_check_planar.specs.Listing.Keeping.Marking.{AreMarkedSegments};
ghost use Rattle.tl_check_planar.specs.Listing.Keeping.Telling.{IsMeetOf};

use crate::listing::conflicts::all_conflicts;
use crate::listing::marks::is_marked;
use crate::{Meet, Segments};
use std::alloc::Global;
use tl_geom::Rational;
use tl_map_county::Map;
use tl_tree_index::{BoxIndex, Conflict, Memory};

/// All meets of a map's segments, by an index that fits them, by rising `s` and of one `s` by rising `t`, where the chains that aren't
/// marked are planar among themselves. One search is made for each segment of a chain that is marked, and none for the others. A chain
/// that has no mark isn't marked. An error says that memory was refused.
pub fn all_meets<X: BoxIndex>(
    alloc: Global,
    index: &X,
    map: &Map,
    marks: &[bool],
) -> Result<Vec<Meet>, Memory>
    requires fits { X.fits index.now (segments_before map.now.chains (length map.now.chains))
        (segment_rect map.now.chains) }
    requires planar { IsPlanar (remaining marks.now map.now.chains) }
    ensures { IfOk result (λ meets. AreAllMeets map.now.chains meets.items) }
{
    let segments = mark_segments(alloc, map, marks)?;
    let conflicts = all_conflicts(alloc, index, &Segments::new(map), &segments)?;
    drop(segments);
    meets_of(alloc, map, &conflicts)
}

/// The mark of its chain for each segment of a map.
fn mark_segments(alloc: Global, map: &Map, marks: &[bool]) -> Result<Vec<bool>, Memory>
    ensures { IfOk result (λ segments. AreMarkedSegments map.now.chains marks.now segments.items) }
{
    let count = map.segments();
    let Ok(mut segments) = Vec::with_capacity(alloc, count as usize) else {
        return Err(Memory);
    };
    for s in 0..count {
        if segments
            .push(is_marked(marks, map.segment_chain(s)))
            .is_err()
        {
            return Err(Memory);
        }
    }
    Ok(segments)
}

/// The meets of conflicts, in their order.
fn meets_of(alloc: Global, map: &Map, conflicts: &[Conflict<Rational>]) -> Result<Vec<Meet>, Memory>
    requires { AreAllConflicts (segments_before map.now.chains (length map.now.chains)) (MayTell map.now.chains)
        conflicts.now }
    ensures { IfOk result (λ meets. AreAllMeets map.now.chains meets.items) }
{
    let Ok(mut meets) = Vec::with_capacity(alloc, conflicts.len()) else {
        return Err(Memory);
    };
    for place in 0..conflicts.len() {
        if meets.push(meet_of(map, conflicts[place])).is_err() {
            return Err(Memory);
        }
    }
    Ok(meets)
}

/// The meet of a conflict.
fn meet_of(map: &Map, conflict: Conflict<Rational>) -> Meet
    requires { IsConflict (segments_before map.now.chains (length map.now.chains)) (MayTell map.now.chains)
        conflict.i conflict.j conflict.c }
    ensures { IsMeetOf map.now.chains conflict result }
{
    Meet {
        tlid: map.chain(map.segment_chain(conflict.i)).tlid,
        s: conflict.i,
        other: map.chain(map.segment_chain(conflict.j)).tlid,
        t: conflict.j,
        at: conflict.c,
    }
}
