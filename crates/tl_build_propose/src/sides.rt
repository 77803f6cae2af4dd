//! Sides along the walks of a map.

ghost use Rattle.std.specs.Prelude.{MatchOption};
ghost use Rattle.tl_check_sides.specs.Sides.{IsRing, SidesAgree};
ghost use Rattle.tl_check_sides.specs.Walks.{AreWalks};
ghost use Rattle.tl_check_faces.specs.Crossings.Headings.{HeadApart};
ghost use Rattle.tl_build_propose.specs.Keeping.Lists.{lists_in};
ghost use Rattle.tl_build_propose.specs.Keeping.Siding.{HasOneLeft, IsOfDifferingSides};

use tl_check_verdict::MapFault;
use tl_map_county::{Map, reverse_dart};

/// Two sides that are at odds, if sides don't agree: they do where each walk has one side on its left.
pub fn find_sides_at_odds(map: &Map, walks: &[Vec<u32>]) -> Option<MapFault>
    requires walks { AreWalks map.now.chains (lists_in walks.now) }
    requires apart { HeadApart map.now.chains }
    ensures { MatchOption result (SidesAgree map.now.chains) (IsOfDifferingSides map.now) }
{
    for walk in walks {
        match side_at_odds(map, walk) {
            Some(fault) => return Some(fault),
            None => {}
        }
    }
    None
}

/// Where a ring comes from one side on its left to another, if it does.
fn side_at_odds(map: &Map, ring: &[u32]) -> Option<MapFault>
    requires { IsRing map.now.chains ring.now }
    ensures { MatchOption result (HasOneLeft map.now.chains ring.now) (IsOfDifferingSides map.now) }
{
    let left = map.dart_left(ring[0]);
    for place in 1..ring.len() {
        let dart = ring[place];
        if !map.dart_left(dart).is(left) {
            return Some(MapFault::Side {
                node: map.dart_start(dart),
                first: dart,
                next: reverse_dart(ring[place - 1]),
            });
        }
    }
    None
}
