//! Where faults lie.

ghost use Rattle.std.specs.Prelude.{◌≡◌, IfOk, map as map_list, option_copied, option_map};
ghost use Rattle.tl_geom.specs.Plane.{whole};
ghost use Rattle.tl_map_county.specs.Darts.{dart_start};
ghost use Rattle.tigertopo_faults.specs.Records.SpokenOf.{chains_of};
ghost use Rattle.tigertopo_faults.specs.Lines.Places.{fault_place, place_about, place_at, point_of_key, polygons_of};
ghost use Rattle.tigertopo_faults.specs.Lines.Keyed.{IsIndexOf};

use indexmap::IndexMap;
use std::alloc::{AllocError, Global};
use std::hash::RandomState;
use tl_check_faces::FaceFault;
use tl_check_verdict::{About, MapFault, row};
use tl_geom::{Point, Rational};
use tl_map_county::Map;
use tl_record::PolyKey;

/// Where each of these faults lies on the map that the records draw, in millionths of a degree: where two segments meet, at a node, at a
/// polygon's point, where a dart starts, on the first of two segments that face one another. A fault of the records alone has
/// no place. The error is that memory was refused.
pub fn fault_places(
    alloc: Global,
    hasher: RandomState,
    map: Option<&Map>,
    faults: &[MapFault],
) -> Result<Vec<Option<Rational>>, AllocError>
    ensures { IfOk result (λ places. places.items ≡ map_list (fault_place (option_copied map.entry)) faults.now) }
{
    if faults.is_empty() {
        return Ok(Vec::new(alloc));
    }
    let points = index_points(alloc, hasher, map)?;
    let mut places = Vec::with_capacity(alloc, faults.len())?;
    for fault in faults {
        places.push(place_about(map, &points, &row(fault).about))?;
    }
    Ok(places)
}

/// The place with this number, where there is one.
pub fn place_at(places: &[Option<Rational>], number: usize) -> Option<Rational>
    ensures { result ≡ place_at places.now number }
{
    if number < places.len() {
        places[number]
    } else {
        None
    }
}

// Where a fault lies, by what it is about.
fn place_about(
    map: Option<&Map>,
    points: &IndexMap<PolyKey, Point, RandomState>,
    about: &About,
) -> Option<Rational>
    requires { IsIndexOf (polygons_of (option_copied map)) points.now }
    ensures { result ≡ place_about (option_copied map.entry) about.now }
{
    match about {
        About::Records(_) => None,
        About::Meet(meet) => Some(meet.at),
        About::Darts { node, .. } => Some(Rational::from(*node)),
        About::PolygonAlone(polygon)
        | About::PolygonTlid(polygon, _)
        | About::PolygonOther(polygon, _) => whole_of(point_of(map, points, *polygon)),
        About::Cells(odds) => whole_of(start_of(map, odds.first)),
        About::Faces(FaceFault::Facing { first, .. }) => Some(first.at),
        About::Faces(FaceFault::Outward { face, .. }) => Some(face.at),
    }
}

// The point of the first polygon of a map that has the key, by the index of all points.
fn point_of(
    map: Option<&Map>,
    points: &IndexMap<PolyKey, Point, RandomState>,
    key: PolyKey,
) -> Option<Point>
    requires { IsIndexOf (polygons_of (option_copied map)) points.now }
    ensures { result ≡ point_of_key (polygons_of (option_copied map.entry)) key }
{
    points.get(&key).copied()
}

// A point as a place.
fn whole_of(point: Option<Point>) -> Option<Rational>
    ensures { result ≡ option_map whole point }
{
    match point {
        Some(point) => Some(Rational::from(point)),
        None => None,
    }
}

// Where a dart starts.
fn start_of(map: Option<&Map>, dart: u32) -> Option<Point>
    ensures { result ≡ dart_start (chains_of (option_copied map.entry)) dart }
{
    match map {
        Some(map) if dart / 2 < map.chains() => Some(map.dart_start(dart)),
        _ => None,
    }
}

// The points of a map's polygons by their keys, where there is one.
fn index_points(
    alloc: Global,
    hasher: RandomState,
    map: Option<&Map>,
) -> Result<IndexMap<PolyKey, Point, RandomState>, AllocError>
    ensures { IfOk result (IsIndexOf (polygons_of (option_copied map.entry))) }
{
    match map {
        Some(map) => index_all(alloc, hasher, map),
        None => Ok(IndexMap::with_hasher(alloc, hasher)),
    }
}

// The same of a map: from the last polygon to the first, so that of one key the first stays.
fn index_all(
    alloc: Global,
    hasher: RandomState,
    map: &Map,
) -> Result<IndexMap<PolyKey, Point, RandomState>, AllocError>
    ensures { IfOk result (IsIndexOf map.now.polygons) }
{
    let mut index = IndexMap::with_capacity_and_hasher(alloc, map.polygons() as usize, hasher)?;
    let mut left = map.polygons();
    while left > 0 {
        left -= 1;
        let polygon = map.polygon(left);
        index.insert(polygon.key, polygon.point)?;
    }
    Ok(index)
}
