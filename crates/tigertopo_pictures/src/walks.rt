//! The walks of a map, one by one.

ghost use Rattle.std.specs.Prelude.{◌≡◌, ◌*◌, ◌<◌, ◌≤◌, ℕ, List, IfSome, Some, length, map as map_list, slice_index};
ghost use Rattle.tl_map_county.specs.TheMap.{MapChain};
ghost use Rattle.tl_map_county.specs.Sides.{IsSideAmong};
ghost use Rattle.tl_check_sides.specs.Lists.{list_at};
ghost use Rattle.tl_check_sides.specs.Walks.{AreWalks};
ghost use Rattle.tigertopo_pictures.specs.Walks.{polygon_on, walk_polygon as polygon_of_walk};

use tl_map_county::{Map, Side};

/// The walk of this number.
pub fn walk_at(walks: &[Vec<u32>], number: usize) -> &[u32]
    requires { number < length walks.now }
    ensures walk { result.now ≡ list_at (map_list (λ w. w.items) walks.now) number }
    ensures some { (chains : List MapChain) → AreWalks chains (map_list (λ w. w.items) walks.now) → 0 < length result.now }
    ensures few { (chains : List MapChain) → AreWalks chains (map_list (λ w. w.items) walks.now) → length result.now ≤ 2 * length chains }
    ensures darts { (chains : List MapChain) → AreWalks chains (map_list (λ w. w.items) walks.now) →
        (k : ℕ) → k < length result.now → slice_index result.now k < 2 * length chains }
{
    walks[number].as_slice()
}

/// The polygon on the left of a walk.
pub fn walk_polygon(map: &Map, walk: &[u32]) -> Option<u32>
    requires some { 0 < length walk.now }
    requires darts { (k : ℕ) → k < length walk.now → slice_index walk.now k < 2 * length map.now.chains }
    ensures polygon { result ≡ polygon_of_walk map.now.chains walk.now }
    ensures among { IfSome result (λ p. p < length map.now.polygons) }
{
    polygon_of(map, map.dart_left(walk[0]))
}

/// The polygon on a side of the map.
pub fn polygon_of(map: &Map, side: Side) -> Option<u32>
    requires { IsSideAmong (length map.now.polygons) side }
    ensures polygon { result ≡ polygon_on (Some side) }
    ensures among { IfSome result (λ p. p < length map.now.polygons) }
{
    match side {
        Side::Polygon(polygon) => Some(polygon),
        Side::Outside => None,
    }
}
