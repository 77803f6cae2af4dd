//! What is found of chains that meet and of misplaced points, by a plain list.

use std::alloc::Global;
use tl_check_inside::{Misplaced, find_misplaced};
use tl_check_planar::{Meeting, Segments, first_meet};
use tl_check_points::listing::all_misplaced;
use tl_geom::Rational;
use tl_map_county::Map;
use tl_tree::{Items, PlainList};

/// Whether the two segments of a map conflict at a point, and meet there, which is found in one test.
pub fn meet_at(map: &Map, at: Rational) -> bool {
    let segments = Segments::new(map);
    if segments.len() != 2 || segments.conflict(0, 1) != Some(at) {
        return false;
    }
    match first_meet(map, &PlainList::new(map.segments()), 1) {
        Meeting::Found(meet) => {
            meet.at == at && (meet.s, meet.t) == (0, 1) && (meet.tlid, meet.other) == (1, 2)
        }
        _ => false,
    }
}

/// Whether this is found of the points of a map's polygons, and is the first of all that is wrong with them.
pub fn is_misplaced(alloc: Global, map: &Map, wanted: Option<Misplaced>) -> bool {
    let index = PlainList::new(map.segments());
    let Ok(found) = find_misplaced(alloc, map, &index) else {
        return false;
    };
    match all_misplaced(alloc, &index, map) {
        Ok(all) => found == wanted && all.first().copied() == wanted,
        Err(_) => false,
    }
}
