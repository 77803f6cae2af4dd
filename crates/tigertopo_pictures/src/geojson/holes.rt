//! Outer rings, and the outer ring in which each hole lies.
//!
//! `areas` are those of the walks, and `outers` the outer rings of each polygon.

ghost use Rattle.std.specs.Prelude.{◌≡◌, ◌*◌, ◌<◌, ◌^◌, ℕ, List, IfOk, IfSome, Some, length, map as map_list, slice_index, if◌then◌else◌};
ghost use Rattle.tl_check_sides.specs.Lists.{list_at};
ghost use Rattle.tl_check_sides.specs.Walks.{AreWalks};
ghost use Rattle.tigertopo_pictures.specs.Groups.{GoesThrough, AreGroups};
ghost use Rattle.tigertopo_pictures.specs.Geojson.Holes.{AreRingAreas, outer_polygon as outer_polygon_of};
ghost use Rattle.tigertopo_pictures.specs.Geojson.Holes.{hole_polygon as hole_polygon_of, home as home_of_walk};
ghost use Rattle.tigertopo_pictures.specs.Geojson.Holes.{holds as holds_point, is_closer as is_closer_ring};
ghost use Rattle.tigertopo_pictures.specs.Geojson.Holes.{innermost as innermost_of, ring_around as ring_around_of};

use crate::geojson::windings::{ring_north, winding};
use crate::groups::Groups;
use crate::walks::{walk_at, walk_polygon};
use std::alloc::{AllocError, Global};
use tl_geom::Point;
use tl_map_county::Map;

/// The polygon of each walk that is an outer ring.
pub fn list_outers(
    alloc: Global,
    map: &Map,
    walks: &[Vec<u32>],
    areas: &[i128],
) -> Result<Vec<Option<u32>>, AllocError>
    requires walks { AreWalks map.now.chains (map_list (λ w. w.items) walks.now) }
    requires areas { AreRingAreas map.now.chains (map_list (λ w. w.items) walks.now) areas.now }
    ensures { IfOk result (λ list. list.items ≡ map_list (outer_polygon_of map.now.chains) (map_list (λ w. w.items) walks.now)) }
{
    let mut list = Vec::new(alloc);
    for number in 0..walks.len() {
        list.push(outer_polygon(map, walks, areas, number))?;
    }
    Ok(list)
}

// The polygon of a walk that is an outer ring.
fn outer_polygon(map: &Map, walks: &[Vec<u32>], areas: &[i128], number: usize) -> Option<u32>
    requires walks { AreWalks map.now.chains (map_list (λ w. w.items) walks.now) }
    requires areas { AreRingAreas map.now.chains (map_list (λ w. w.items) walks.now) areas.now }
    requires number { number < length walks.now }
    ensures { result ≡ outer_polygon_of map.now.chains (list_at (map_list (λ w. w.items) walks.now) number) }
{
    if areas[number] > 0 {
        walk_polygon(map, walk_at(walks, number))
    } else {
        None
    }
}

/// The outer ring in which each walk lies that is a hole.
pub fn list_homes(
    alloc: Global,
    map: &Map,
    walks: &[Vec<u32>],
    areas: &[i128],
    outers: &Groups,
) -> Result<Vec<Option<u32>>, AllocError>
    requires walks { AreWalks map.now.chains (map_list (λ w. w.items) walks.now) }
    requires areas { AreRingAreas map.now.chains (map_list (λ w. w.items) walks.now) areas.now }
    requires outers { AreGroups (length map.now.polygons)
        (map_list (outer_polygon_of map.now.chains) (map_list (λ w. w.items) walks.now)) outers.now }
    ensures { IfOk result (λ list. list.items ≡ map_list (home_of_walk map.now.chains
        (map_list (λ w. w.items) walks.now)) (map_list (λ w. w.items) walks.now)) }
{
    let mut list = Vec::new(alloc);
    for number in 0..walks.len() {
        list.push(home(map, walks, areas, outers, number))?;
    }
    Ok(list)
}

// The outer ring in which a walk lies, if it is a hole.
fn home(
    map: &Map,
    walks: &[Vec<u32>],
    areas: &[i128],
    outers: &Groups,
    number: usize,
) -> Option<u32>
    requires walks { AreWalks map.now.chains (map_list (λ w. w.items) walks.now) }
    requires areas { AreRingAreas map.now.chains (map_list (λ w. w.items) walks.now) areas.now }
    requires outers { AreGroups (length map.now.polygons)
        (map_list (outer_polygon_of map.now.chains) (map_list (λ w. w.items) walks.now)) outers.now }
    requires number { number < length walks.now }
    ensures { result ≡ home_of_walk map.now.chains
        (map_list (λ w. w.items) walks.now) (list_at (map_list (λ w. w.items) walks.now) number) }
{
    match hole_polygon(map, walks, areas, number) {
        Some(polygon) => ring_around(map, walks, areas, outers, polygon, number),
        None => None,
    }
}

// The polygon of a walk that is a hole.
fn hole_polygon(map: &Map, walks: &[Vec<u32>], areas: &[i128], number: usize) -> Option<u32>
    requires walks { AreWalks map.now.chains (map_list (λ w. w.items) walks.now) }
    requires areas { AreRingAreas map.now.chains (map_list (λ w. w.items) walks.now) areas.now }
    requires number { number < length walks.now }
    ensures polygon { result ≡ hole_polygon_of map.now.chains (list_at (map_list (λ w. w.items) walks.now) number) }
    ensures among { IfSome result (λ p. p < length map.now.polygons) }
{
    if areas[number] < 0 {
        walk_polygon(map, walk_at(walks, number))
    } else {
        None
    }
}

// The outer ring of a polygon in which a walk lies. Where the polygon has one, it is looked at no closer.
fn ring_around(
    map: &Map,
    walks: &[Vec<u32>],
    areas: &[i128],
    outers: &Groups,
    polygon: u32,
    number: usize,
) -> Option<u32>
    requires walks { AreWalks map.now.chains (map_list (λ w. w.items) walks.now) }
    requires areas { AreRingAreas map.now.chains (map_list (λ w. w.items) walks.now) areas.now }
    requires polygon { polygon < length outers.now.first }
    requires beside { length walks.now ≡ length outers.now.next }
    requires number { number < length walks.now }
    ensures { (ns : List ℕ) → GoesThrough outers.now.next (slice_index outers.now.first polygon) ns →
        result ≡ ring_around_of map.now.chains (map_list (λ w. w.items) walks.now) (list_at (map_list (λ w. w.items) walks.now) number) ns }
{
    // So walks are fewer than 2^32.
    let _darts = map.darts();
    let first = outers.first(polygon);
    if first >= outers.items() {
        return None;
    }
    if outers.next(first) >= outers.items() {
        return Some(first as u32);
    }
    let q = ring_north(map, walk_at(walks, number));
    Some(innermost(map, walks, areas, outers, q, first) as u32)
}

// Of outer rings from this one on, the innermost that holds a point.
fn innermost(
    map: &Map,
    walks: &[Vec<u32>],
    areas: &[i128],
    outers: &Groups,
    q: Point,
    first: usize,
) -> usize
    requires walks { AreWalks map.now.chains (map_list (λ w. w.items) walks.now) }
    requires areas { AreRingAreas map.now.chains (map_list (λ w. w.items) walks.now) areas.now }
    requires beside { length walks.now ≡ length outers.now.next }
    requires first { first < length walks.now }
    ensures found { (ns : List ℕ) → GoesThrough outers.now.next (slice_index outers.now.next first) ns →
        result ≡ innermost_of map.now.chains (map_list (λ w. w.items) walks.now) q first ns }
    ensures within { result < length walks.now }
{
    let mut found = first;
    let mut at = outers.next(first);
    while at < outers.items() {
        found = closer(map, walks, areas, q, found, at);
        at = outers.next(at);
    }
    found
}

// Of two rings the second, where it holds a point and the first doesn't, or bounds more.
fn closer(
    map: &Map,
    walks: &[Vec<u32>],
    areas: &[i128],
    q: Point,
    number: usize,
    other: usize,
) -> usize
    requires walks { AreWalks map.now.chains (map_list (λ w. w.items) walks.now) }
    requires areas { AreRingAreas map.now.chains (map_list (λ w. w.items) walks.now) areas.now }
    requires number { number < length walks.now }
    requires other { other < length walks.now }
    ensures found { result ≡ if is_closer_ring map.now.chains (map_list (λ w. w.items) walks.now) q number other then other else number }
    ensures within { result < length walks.now }
{
    if is_closer(map, walks, areas, q, number, other) {
        other
    } else {
        number
    }
}

// Whether the second of two rings is the one.
fn is_closer(
    map: &Map,
    walks: &[Vec<u32>],
    areas: &[i128],
    q: Point,
    number: usize,
    other: usize,
) -> bool
    requires walks { AreWalks map.now.chains (map_list (λ w. w.items) walks.now) }
    requires areas { AreRingAreas map.now.chains (map_list (λ w. w.items) walks.now) areas.now }
    requires number { number < length walks.now }
    requires other { other < length walks.now }
    ensures { result ≡ is_closer_ring map.now.chains (map_list (λ w. w.items) walks.now) q number other }
{
    let is_less = areas[other] < areas[number];
    holds(map, walks, q, other) & (!holds(map, walks, q, number) | is_less)
}

// Whether a ring holds a point.
fn holds(map: &Map, walks: &[Vec<u32>], q: Point, number: usize) -> bool
    requires walks { AreWalks map.now.chains (map_list (λ w. w.items) walks.now) }
    requires number { number < length walks.now }
    ensures { result ≡ holds_point map.now.chains (map_list (λ w. w.items) walks.now) q number }
{
    // So a ring has fewer darts than 2^32.
    let _darts = map.darts();
    winding(map, walk_at(walks, number), q) > 0
}
