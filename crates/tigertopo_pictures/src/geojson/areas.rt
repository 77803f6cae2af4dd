//! Areas of polygons and of rings.

ghost use Rattle.std.specs.Prelude.{◌≡◌, ◌+◌, ◌*◌, ◌-◌, ◌<◌, ◌≤◌, ◌^◌, ℕ, ◌+ℤ◌, ◌-ℤ◌, ◌*ℤ◌};
ghost use Rattle.std.specs.Prelude.{IfOk, length, map as map_list, slice_index, slice_index_or, pos, Some, unsigned_abs, vec_len};
ghost use Rattle.tl_geom.specs.Plane.{cross as cross_product};
ghost use Rattle.tl_check_sides.specs.Walks.{AreWalks};
ghost use Rattle.tigertopo_pictures.specs.Geojson.Areas.{share, dart_sum as dart_sum_of, AreAreas};
ghost use Rattle.tigertopo_pictures.specs.Geojson.Holes.{ring_area as ring_area_of, AreRingAreas};

use crate::rings::point_at;
use crate::walks::walk_at;
use std::alloc::{AllocError, Global};
use tl_geom::Point;
use tl_map_county::{Map, Side};

/// Twice the area of each polygon, in square millionths of a degree.
pub fn doubled_areas(alloc: Global, map: &Map) -> Result<Vec<i128>, AllocError>
    ensures { IfOk result (λ areas. AreAreas map.now areas.items) }
{
    let mut areas = vec![in alloc; 0; map.polygons() as usize]?;
    for dart in 0..map.darts() {
        add_to(&mut areas, map.dart_left(dart), dart_sum(map, dart));
    }
    Ok(areas)
}

// Adds to the area of the polygon on a side.
fn add_to(areas: &mut Vec<i128>, side: Side, sum: i128)
    requires { (p : ℕ) → p < vec_len areas.old → unsigned_abs (slice_index_or areas.old.items p (pos 0)) + unsigned_abs sum < 2 ^ 127 }
    ensures len { vec_len areas.new ≡ vec_len areas.old }
    ensures value { (p : ℕ) → p < vec_len areas.old →
        slice_index_or areas.new.items p (pos 0) ≡ slice_index_or areas.old.items p (pos 0) +ℤ share p (Some side) sum }
{
    match side {
        Side::Polygon(polygon) if (polygon as usize) < areas.len() => {
            let place = polygon as usize;
            areas[place] = plus(areas[place], sum);
        }
        _ => {}
    }
}

/// Twice the area of each ring, in square millionths of a degree.
pub fn ring_areas(alloc: Global, map: &Map, walks: &[Vec<u32>]) -> Result<Vec<i128>, AllocError>
    requires { AreWalks map.now.chains (map_list (λ w. w.items) walks.now) }
    ensures { IfOk result (λ areas. AreRingAreas map.now.chains (map_list (λ w. w.items) walks.now) areas.items) }
{
    // So a ring has fewer darts than 2^32.
    let _darts = map.darts();
    let mut areas = Vec::new(alloc);
    for number in 0..walks.len() {
        areas.push(ring_area(map, walk_at(walks, number)))?;
    }
    Ok(areas)
}

// Twice the area of a ring.
fn ring_area(map: &Map, walk: &[u32]) -> i128
    requires few { length walk.now < 2 ^ 32 }
    requires darts { (k : ℕ) → k < length walk.now → slice_index walk.now k < 2 * length map.now.chains }
    ensures value { result ≡ ring_area_of map.now.chains walk.now }
    ensures bound { unsigned_abs result ≤ 2 ^ 121 }
{
    let mut sum = 0;
    for dart in walk {
        sum = plus(sum, dart_sum(map, *dart));
    }
    sum
}

// The sum over the steps of a dart.
fn dart_sum(map: &Map, dart: u32) -> i128
    requires { dart < 2 * length map.now.chains }
    ensures value { result ≡ dart_sum_of map.now.chains dart }
    ensures bound { unsigned_abs result ≤ 2 ^ 89 }
{
    // So a chain has at most as many segments.
    let _few = map.segments();
    let points = map.chain(dart / 2).points;
    let mut sum: i128 = 0;
    for place in 1..points.len() {
        let step = cross(
            point_at(points, dart % 2 == 0, place - 1),
            point_at(points, dart % 2 == 0, place),
        );
        sum = plus(sum, step);
    }
    sum
}

// A sum.
fn plus(a: i128, b: i128) -> i128
    requires { unsigned_abs a + unsigned_abs b < 2 ^ 127 }
    ensures value { result ≡ a +ℤ b }
    ensures bound { unsigned_abs result ≤ unsigned_abs a + unsigned_abs b }
{
    a + b
}

// The cross product of two positions.
fn cross(p: Point, q: Point) -> i128
    ensures value { result ≡ cross_product p.x p.y q.x q.y }
    ensures bound { unsigned_abs result ≤ 2 ^ 65 }
{
    difference(product(p.x, q.y), product(p.y, q.x))
}

fn product(a: i32, b: i32) -> i128
    ensures value { result ≡ a *ℤ b }
    ensures bound { unsigned_abs result ≤ 2 ^ 64 }
{
    i128::from(a) * i128::from(b)
}

fn difference(a: i128, b: i128) -> i128
    requires first { unsigned_abs a ≤ 2 ^ 64 }
    requires second { unsigned_abs b ≤ 2 ^ 64 }
    ensures value { result ≡ a -ℤ b }
    ensures bound { unsigned_abs result ≤ 2 ^ 65 }
{
    a - b
}
