//! Where a point lies.

ghost use Rattle.std.specs.Prelude.{◌≡◌, ◌<◌, List, length, All, IfOk};
ghost use Rattle.tl_geom.specs.declared.point.Point.{Point};
ghost use Rattle.tl_map_county.specs.Segments.{segments_before};
ghost use Rattle.tl_check_planar.specs.Rectangles.{segment_rect};
ghost use Rattle.tl_check_inside.specs.declared.flanks.Flanks.{Flanks};
ghost use Rattle.tl_check_inside.specs.Inside.{AreCrossed};
ghost use Rattle.tl_check_inside.specs.Places.{IsOffChains, IsPlaceOf};
ghost use Rattle.tl_check_inside.specs.Keeping.Tallies.{AreTallies, TellCounts};

use crate::crossed::list_crossed;
use crate::flanks::{Flanks, list_flanks};
use crate::held::chain_at;
use crate::landmarks::unbalanced_landmarks;
use crate::listing::unbalanced;
use crate::place::Place;
use crate::reach::has_points_in_reach;
use crate::tallies::{no_counts, tally};
use std::alloc::Global;
use tl_geom::Point;
use tl_map_county::Map;
use tl_tree_index::{BoxIndex, Memory};

/// Where a point lies in a map, by any index that fits the map's segments: on the lowest chain that holds it, or on none,
/// in the polygons and the landmarks whose counts aren't 0. The map need not be sound. It stops where memory was refused,
/// and nowhere else.
pub fn locate<X: BoxIndex>(
    alloc: Global,
    map: &Map,
    index: &X,
    point: Point,
) -> Result<Place, Memory>
    requires fits { X.fits index.now (segments_before map.now.chains (length map.now.chains)) (segment_rect map.now.chains) }
    // The lowest chain that holds the point; or, where none does, by rising numbers exactly the polygons and the
    // landmarks whose counts there aren't 0.
    ensures { IfOk result (IsPlaceOf map.now point) }
{
    let mut hits = Vec::new(alloc);
    match chain_at(map, index, point, &mut hits)? {
        Some(c) => return Ok(Place::OnChain(c)),
        None => {}
    }
    has_points_in_reach(map);
    list_crossed(map, index, point, &mut hits)?;
    place_by(alloc, map, &hits)
}

/// Where a point lies that is on no chain and whose ray crosses these segments.
fn place_by(alloc: Global, map: &Map, crossed: &[u32]) -> Result<Place, Memory>
    requires known { All (λ s. s < segments_before map.now.chains (length map.now.chains)) crossed.now }
    ensures { IfOk result (λ place. (q : Point) → AreCrossed map.now.chains q crossed.now → IsOffChains map.now.chains q
        → IsPlaceOf map.now q place) }
{
    let mut flanks = Vec::new(alloc);
    list_flanks(map, crossed, &mut flanks)?;
    place_by_flanks(alloc, map, &flanks)
}

/// Where a point lies that is on no chain and whose counts these flanks tell.
fn place_by_flanks(alloc: Global, map: &Map, flanks: &[Flanks]) -> Result<Place, Memory>
    ensures { IfOk result (λ place. (q : Point) → TellCounts map.now.chains q flanks.now → IsOffChains map.now.chains q
        → IsPlaceOf map.now q place) }
{
    let polygons = map.polygons() as usize;
    let mut near = no_counts(alloc, polygons)?;
    let mut far = no_counts(alloc, polygons)?;
    tally(flanks, &mut near, &mut far);
    place_in(alloc, map, &near, &far)
}

/// The polygons and the landmarks that a point off all chains is in, by the counts of polygons.
fn place_in(alloc: Global, map: &Map, near: &[u64], far: &[u64]) -> Result<Place, Memory>
    requires nears { length near.now ≡ length map.now.polygons }
    requires fars { length far.now ≡ length map.now.polygons }
    ensures { IfOk result (λ place. (q : Point) (crossed : List Flanks) → TellCounts map.now.chains q crossed
        → AreTallies crossed near.now far.now → IsOffChains map.now.chains q → IsPlaceOf map.now q place) }
{
    let polygons = unbalanced(alloc, map, near, far)?;
    let landmarks = unbalanced_landmarks(alloc, map, near, far)?;
    Ok(Place::In {
        polygons,
        landmarks,
    })
}
