//! A map in which no side names some polygons.

ghost use Rattle.std.specs.Prelude.{◌≡◌, ◌+◌, ◌<◌, ◌≤◌, ℕ, IfOk, OnOk, IfSome, length};
ghost use Rattle.tl_map_county.specs.Sides.{IsSideAmong};
ghost use Rattle.tl_map_county.specs.Limits.{most_chains, most_polygons, most_segments};
ghost use Rattle.tl_map_county.specs.Rows.{IsTable};
ghost use Rattle.tl_map_county.specs.Keeping.Remaining.{IsOneMore};
ghost use Rattle.tl_check_points.specs.Listing.Hidden.{IsMarked, NameAlike, AreMapsAlikeBut};
ghost use Rattle.tl_check_points.specs.Listing.Keeping.Hiding.{ArePartsBefore};

use crate::listing::marks::is_marked;
use std::alloc::{AllocError, Global};
use tl_geom::Point;
use tl_map_county::{
    CHAIN_LIMIT, ChainRow, ChainSides, Chains, LinkedLandmarks, Map, POLYGON_LIMIT, Polygon, Side,
    SidesOfChains,
};

/// The parts of chains, and what lies on their sides.
#[derive(Drop)]
struct Parts {
    rows: Vec<ChainRow>,
    points: Vec<Point>,
    sides: SidesOfChains,
}

/// The map with the outside where a side names a marked polygon, and without landmarks and zero-cell ids. There is none where the map has
/// more chains or polygons than a county may have, and no map has. The error is that memory was refused.
pub fn hide_polygons(alloc: Global, map: &Map, marks: &[bool]) -> Result<Option<Map>, AllocError>
    ensures { IfOk result (λ made. IfSome made (AreMapsAlikeBut (IsMarked marks.now) map.now)) }
{
    if map.chains() > CHAIN_LIMIT || map.polygons() > POLYGON_LIMIT {
        return Ok(None);
    }
    let parts = hidden_parts(alloc, map, marks)?;
    let polygons = polygons_of(alloc, map)?;
    Ok(Some(map_of(alloc, map, marks, parts, polygons)?))
}

/// The map of these parts.
fn map_of(
    alloc: Global,
    map: &Map,
    marks: &[bool],
    parts: Parts,
    polygons: Vec<Polygon>,
) -> Result<Map, AllocError>
    requires parts { ArePartsBefore (IsMarked marks.now) map.now (length map.now.chains) parts.points.items parts.rows.items parts.sides }
    requires polygons { polygons.items ≡ map.now.polygons }
    requires few { length map.now.chains ≤ most_chains }
    requires limited { length map.now.polygons ≤ most_polygons }
    requires segments { length parts.points.items ≤ most_segments + length parts.rows.items }
    ensures { IfOk result (AreMapsAlikeBut (IsMarked marks.now) map.now) }
{
    let Parts {
        rows,
        points,
        sides,
    } = parts;
    let chains = Chains::new(rows, points, 0);
    Map::new(alloc, chains, sides, polygons, no_landmarks(alloc))
}

/// The chains of a map with the outside where a side names a marked polygon.
fn hidden_parts(alloc: Global, map: &Map, marks: &[bool]) -> Result<Parts, AllocError>
    requires { length map.now.chains ≤ most_chains }
    ensures parts { IfOk result (λ parts. ArePartsBefore (IsMarked marks.now) map.now (length map.now.chains) parts.points.items
        parts.rows.items parts.sides) }
    ensures segments { IfOk result (λ parts. length parts.points.items ≤ most_segments + length parts.rows.items) }
{
    let count = map.chains();
    let polygons = map.polygons();
    let segments = map.segments();
    let mut rows = Vec::with_capacity(alloc, count as usize)?;
    let mut points = Vec::with_capacity(alloc, segments as usize + count as usize)?;
    let mut sides = SidesOfChains::with_capacity(alloc, count as usize)?;
    for c in 0..count {
        let chain = map.chain(c);
        push_row(chain.tlid, chain.points, &mut rows, &mut points)?;
        sides.push(ChainSides {
            left: hidden(marks, chain.left),
            right: hidden(marks, chain.right),
            start_cell: None,
            end_cell: None,
        })?;
    }
    Ok(Parts {
        rows,
        points,
        sides,
    })
}

/// Adds a chain to those that stand in these rows.
fn push_row(
    tlid: u64,
    more: &[Point],
    rows: &mut Vec<ChainRow>,
    points: &mut Vec<Point>,
) -> Result<(), AllocError>
    requires table { IsTable points.old.items rows.old.items }
    requires some { 1 ≤ length more.now }
    requires room { length points.old.items + length more.now < 4294967296 }
    ensures { OnOk result (IsOneMore (record { tlid = tlid; points = more.now }) points.old.items rows.old.items
        points.new.items rows.new.items) }
{
    let first = points.len();
    points.extend_from_slice(more)?;
    rows.push(ChainRow {
        tlid,
        first: first as u32,
        count: more.len() as u32,
    })?;
    Ok(())
}

/// The side, or the outside where it names a marked polygon.
fn hidden(marks: &[bool], side: Side) -> Side
    ensures alike { NameAlike (IsMarked marks.now) side result }
    ensures among { (n : ℕ) → IsSideAmong n side → IsSideAmong n result }
{
    match side {
        Side::Outside => Side::Outside,
        Side::Polygon(p) => {
            if is_marked(marks, p) {
                Side::Outside
            } else {
                Side::Polygon(p)
            }
        }
    }
}

/// The polygons of a map.
fn polygons_of(alloc: Global, map: &Map) -> Result<Vec<Polygon>, AllocError>
    ensures { IfOk result (λ polygons. polygons.items ≡ map.now.polygons) }
{
    let mut polygons = Vec::with_capacity(alloc, map.polygons() as usize)?;
    for p in 0..map.polygons() {
        polygons.push(map.polygon(p))?;
    }
    Ok(polygons)
}

/// No landmark.
fn no_landmarks(alloc: Global) -> LinkedLandmarks
    ensures points { length result.points.items ≡ 0 }
    ensures rows { length result.rows.items ≡ 0 }
{
    LinkedLandmarks {
        points: Vec::new(alloc),
        rows: Vec::new(alloc),
        linked: Vec::new(alloc),
    }
}
