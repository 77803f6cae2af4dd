//! Joins chains with their shapes.

ghost use Rattle.std.specs.Prelude.{◌≡◌, ◌+◌, ◌<◌, ◌≤◌, ◌++◌, List, OnOk, IfOk, MatchResult, length};
ghost use Rattle.std.specs.Prelude.{map, All};
ghost use Rattle.tl_geom.specs.declared.point.Point.{Point};
ghost use Rattle.tl_map_rules.specs.declared.entry.ShapeEntry.{ShapeEntry};
ghost use Rattle.tl_map_county.specs.declared.limits.TheConstants.{CHAIN_LIMIT, SEGMENT_LIMIT};
ghost use Rattle.std.specs.List.{flat_map};
ghost use Rattle.tl_map_rules.specs.Listing.Shapes.{entry_points, IsInside};
ghost use Rattle.tl_map.specs.Keeping.Entries.{AreEntriesRising, AreInOrder, chains_with, joined};
ghost use Rattle.tl_map_county.specs.Rows.{IsTable, chains_in};
ghost use Rattle.tl_map.specs.Keeping.Unbuilt.{StopsFor};
ghost use Rattle.tl_map.specs.Keeping.Rows.{drawn_through, drawn_by, IsAdded, IsUnjoinable};
ghost use Rattle.tl_map.specs.Keeping.Rows.{AreJoinedBy, AreUnjoinable};
ghost use Rattle.tl_map_rules.specs.Keeping.Pairs.{dedup_after};

use crate::unbuilt::Unbuilt;
use std::alloc::{AllocError, Global};
use tl_geom::Point;
use tl_map_county::{CHAIN_LIMIT, ChainRow, Chains, SEGMENT_LIMIT, run_end};
use tl_map_rules::{ChainEntry, ShapeEntry};

/// Appends the points that differ from the one before, where `last` is the one before the first. Gives the last.
fn append_distinct(
    points: &mut Vec<Point>,
    last: Point,
    more: &[Point],
) -> Result<Point, AllocError>
    ensures { IfOk result (λ end. (rest : List Point) →
        points.new.items ++ dedup_after end rest ≡ points.old.items ++ dedup_after last (more.now ++ rest)) }
{
    let mut last = last;
    for point in more {
        if *point != last {
            points.push(*point)?;
            last = *point;
        }
    }
    Ok(last)
}

/// Appends the points of a chain with these shapes.
fn append_chain(
    points: &mut Vec<Point>,
    chain: &ChainEntry,
    run: &[ShapeEntry],
    pool: &[Point],
) -> Result<(), AllocError>
    requires { All (IsInside pool.now) run.now }
    ensures { OnOk result (points.new.items ≡
        points.old.items ++ drawn_through chain.now (flat_map (entry_points pool.now) run.now)) }
{
    let mut last = chain.from;
    points.push(last)?;
    for shape in run {
        let used = &pool[shape.first..shape.first + usize::from(shape.used)];
        last = append_distinct(points, last, used)?;
    }
    append_distinct(points, last, &[chain.to])?;
    Ok(())
}

/// Adds a chain with these shapes.
fn add_chain(
    rows: &mut Vec<ChainRow>,
    points: &mut Vec<Point>,
    chain: &ChainEntry,
    run: &[ShapeEntry],
    pool: &[Point],
) -> Result<(), Unbuilt>
    requires inside { All (IsInside pool.now) run.now }
    requires table { IsTable points.old.items rows.old.items }
    requires room { length rows.old.items < CHAIN_LIMIT }
    requires few { length points.old.items ≤ SEGMENT_LIMIT + length rows.old.items }
    ensures { MatchResult result
        (λ done. IsAdded (drawn_by pool.now chain.now run.now) points.old.items rows.old.items points.new.items rows.new.items)
        (StopsFor (IsUnjoinable (chains_in points.old.items rows.old.items) (drawn_by pool.now chain.now run.now))) }
{
    let first = points.len();
    append_chain(points, chain, run, pool)?;
    let count = points.len() - first;
    if count == 1 {
        return Err(Unbuilt::Faulty);
    }
    if points.len() > SEGMENT_LIMIT as usize + rows.len() + 1 {
        return Err(Unbuilt::Faulty);
    }
    rows.push(ChainRow {
        tlid: chain.tlid,
        first: first as u32,
        count: count as u32,
    })?;
    Ok(())
}

/// The chains with the points of their shapes, in chains and shapes sorted by TLID, where each shape has the TLID of a
/// chain.
pub fn join(
    alloc: Global,
    chains: &[ChainEntry],
    shapes: &[ShapeEntry],
    pool: &[Point],
    skipped: u64,
) -> Result<Chains, Unbuilt>
    requires room { length chains.now ≤ CHAIN_LIMIT }
    requires rising { AreEntriesRising chains.now }
    requires ordered { AreInOrder shapes.now }
    requires inside { All (IsInside pool.now) shapes.now }
    requires known { All (λ s. 1 ≤ chains_with s.tlid chains.now) shapes.now }
    ensures { MatchResult result (AreJoinedBy pool.now shapes.now chains.now skipped)
        (StopsFor (AreUnjoinable (map (joined pool.now shapes.now) chains.now))) }
{
    // Each point but for a few has its place at once, so that the list doesn't grow beside its older self.
    let most = (chains.len() * 2).saturating_add(pool.len());
    let mut points = Vec::with_capacity(alloc, most)?;
    let mut rows = Vec::with_capacity(alloc, chains.len())?;
    let mut start = 0;
    for chain in chains {
        let end = run_end(shapes, start, chain.tlid);
        add_chain(&mut rows, &mut points, chain, &shapes[start..end], pool)?;
        start = end;
    }
    Ok(Chains::new(rows, points, skipped))
}
