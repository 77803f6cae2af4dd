//! Laws of the definitions, each the contract of a function that does nothing.

ghost use Rattle.std.specs.Prelude.{◌≡◌, ℕ, ℤ, Some, Contains, slice_get};
ghost use Rattle.tl_geom.specs.declared.point.Point.{Point};
ghost use Rattle.tl_map_county.specs.declared.polygons.Polygon.{Polygon};
ghost use Rattle.tl_map_county.specs.TheMap.{MapLandmark};
ghost use Rattle.tl_check_inside.specs.declared.place.Place.{Place};
ghost use Rattle.tl_check_inside.specs.Inside.{IsPolygonCount, IsLandmarkCount, total};
ghost use Rattle.tl_check_inside.specs.Places.{IsPlaceOf};
ghost use Rattle.tl_check_inside.specs.Placed.{ArePlaced};
ghost use Rattle.tl_check_inside.specs.Alone.{IsAlone};

use tl_map_county::Map;

/// At each point a landmark's count is the sum of the counts of its polygons.
pub fn a_landmarks_count_is_the_sum_of_its_polygons(map: &Map)
    ensures { (q : Point) (l : ℕ) (landmark : MapLandmark) (n : ℤ) (counts : ℕ → ℤ) →
        slice_get map.now.landmarks l ≡ Some landmark → IsLandmarkCount map.now.chains q landmark.polygons n →
        ((p : ℕ) → Contains landmark.polygons p → IsPolygonCount map.now.chains q p (counts p)) →
        n ≡ total counts landmark.polygons }
{
    let _landmarks = map.landmarks();
}

/// Where the points of all polygons lie as they have to, as on a sound map, at the point of a polygon lies that polygon
/// alone, with exactly the landmarks that it is linked to. So [`crate::locate`] answers.
pub fn a_polygon_is_alone_at_its_point(map: &Map)
    ensures { ArePlaced map.now → (p : ℕ) (polygon : Polygon) (place : Place) → slice_get map.now.polygons p ≡ Some polygon →
        IsPlaceOf map.now polygon.point place → IsAlone map.now p place }
{
    let _landmarks = map.landmarks();
}
