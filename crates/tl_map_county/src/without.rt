//! The chains of a map without some that are taken out.

ghost use Rattle.std.specs.Prelude.{◌≡◌, ◌+◌, ◌-◌, ◌<◌, ◌≤◌, ◌^◌, false, All, IfOk, OnOk, Some, slice_get, slice_index_or, length};
ghost use Rattle.tl_map_county.specs.declared.limits.TheConstants.{CHAIN_LIMIT, SEGMENT_LIMIT};
ghost use Rattle.tl_map_county.specs.Chains.{CompleteChain, IsProperChain, segment_count};
ghost use Rattle.tl_map_county.specs.Rows.{IsTable, chains_in};
ghost use Rattle.tl_map_county.specs.Sides.{AreSidesAmong};
ghost use Rattle.tl_map_county.specs.Keeping.Remaining.{IsOneMore, AreAllRemaining};

use crate::chains::{ChainRow, Chains};
use crate::kept::SidesOfChains;
use crate::landmarks::LinkedLandmarks;
use std::alloc::{AllocError, Global};
use tl_geom::Point;

/// Whether a chain is marked. One that has no mark isn't.
fn is_marked(marks: &[bool], c: u32) -> bool
    ensures { result ≡ slice_index_or marks.now c false }
{
    match marks.get(c as usize) {
        Some(mark) => *mark,
        None => false,
    }
}

/// Adds a chain to those that stand in these rows. The error is that memory was refused.
fn add_chain(
    chains: &Chains,
    c: u32,
    rows: &mut Vec<ChainRow>,
    points: &mut Vec<Point>,
) -> Result<(), AllocError>
    requires known { c < length chains.now.chains }
    requires proper { All (λ (chain : CompleteChain). IsProperChain chain.points) chains.now.chains }
    requires table { IsTable points.old.items rows.old.items }
    requires room { length rows.old.items < CHAIN_LIMIT }
    requires few { (chain : CompleteChain) → slice_get chains.now.chains c ≡ Some chain →
        segment_count (chains_in points.old.items rows.old.items) + (length chain.points - 1) ≤ SEGMENT_LIMIT }
    ensures { OnOk result ((chain : CompleteChain) → slice_get chains.now.chains c ≡ Some chain →
        IsOneMore chain points.old.items rows.old.items points.new.items rows.new.items) }
{
    let first = points.len();
    let more = chains.points(c);
    points.extend_from_slice(more)?;
    rows.push(ChainRow {
        tlid: chains.tlid(c),
        first: first as u32,
        count: more.len() as u32,
    })?;
    Ok(())
}

/// The chains that aren't marked, in their order, and their sides. The error is that memory was refused.
pub fn remaining_chains(
    alloc: Global,
    chains: &Chains,
    sides: &SidesOfChains,
    marks: &[bool],
    polygons: u32,
) -> Result<(Chains, SidesOfChains), AllocError>
    requires proper { All (λ (chain : CompleteChain). IsProperChain chain.points) chains.now.chains }
    requires paired { length sides.now ≡ length chains.now.chains }
    requires among { All (AreSidesAmong polygons) sides.now }
    ensures are { IfOk result (λ made. AreAllRemaining marks.now chains.now.chains sides.now polygons made.0.chains made.1) }
    ensures skipped { IfOk result (λ made. made.0.skipped ≡ chains.now.skipped) }
{
    // that there are at most as many chains as a county may have
    chains.has_few_chains();
    let count = chains.len();
    let mut rows = Vec::with_capacity(alloc, count as usize)?;
    let mut points = Vec::with_capacity(alloc, chains.segments() as usize + count as usize)?;
    let mut rest = SidesOfChains::with_capacity(alloc, count as usize)?;
    for c in 0..count {
        if is_marked(marks, c) {
            continue;
        }
        add_chain(chains, c, &mut rows, &mut points)?;
        rest.push(sides.get(c as usize))?;
    }
    Ok((Chains::new(rows, points, chains.skipped()), rest))
}

/// No landmark.
pub fn no_landmarks(alloc: Global) -> LinkedLandmarks
    ensures points { length result.points.items ≡ 0 }
    ensures rows { length result.rows.items ≡ 0 }
{
    LinkedLandmarks {
        points: Vec::new(alloc),
        rows: Vec::new(alloc),
        linked: Vec::new(alloc),
    }
}
