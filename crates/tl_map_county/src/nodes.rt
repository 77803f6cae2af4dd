//! The numbers of nodes.

ghost use Rattle.std.specs.Prelude.{◌≡◌, ◌+◌, ◌*◌, ◌<◌, ◌^◌, All, IfOk, OnOk, Option, length};
ghost use Rattle.std.specs.List.Sorted.{IsPermutation};
ghost use Rattle.tl_map_county.specs.Chains.{CompleteChain, IsProperChain};
ghost use Rattle.tl_map_county.specs.Keeping.Noded.{start_in, TellStarts, AreByPoint, AreDarts, AreNumbered, CountsOn};
ghost use Rattle.tl_map_county.specs.Keeping.Noded.{AreNumberedNodes};

use crate::chains::{Chains, point_along};
use crate::freeing::release;
use crate::presort::{Ranked, presort_by_rank};
use std::alloc::{AllocError, Global};
use tl_geom::Point;

/// The number of the node where each dart starts, and how many nodes there are.
#[derive(Drop)]
pub struct Nodes {
    pub numbers: Vec<u32>,
    pub count: u32,
}

/// The point where a dart starts.
#[derive(Clone, Copy)]
pub struct DartStart {
    pub point: Point,
    pub dart: u32,
}

impl Ranked for DartStart {
    /// From west to east, and at one longitude from south to north.
    fn rank(&self) -> u64 {
        u64::from(from_least(self.point.x)) << 32 | u64::from(from_least(self.point.y))
    }
}

/// How far the coordinate is from the least that there is.
fn from_least(coordinate: i32) -> u32 {
    coordinate.abs_diff(i32::MIN)
}

/// The points where the darts of the chains start, by rising dart.
fn dart_starts(alloc: Global, chains: &Chains) -> Result<Vec<DartStart>, AllocError>
    requires { All (λ (c : CompleteChain). IsProperChain c.points) chains.now.chains }
    ensures starts { IfOk result (λ starts.
        TellStarts (start_in chains.now.chains) (2 * length chains.now.chains) starts.items) }
    ensures room { IfOk result (λ starts. length starts.items < 2 ^ 32) }
{
    let darts = chains.darts();
    let mut starts = Vec::with_capacity(alloc, darts as usize)?;
    for c in 0..chains.len() {
        let points = chains.points(c);
        let dart = 2 * c;
        let first = point_along(points, true, 0);
        starts.push(DartStart { point: first, dart })?;
        let last = point_along(points, false, 0);
        starts.push(DartStart {
            point: last,
            dart: dart + 1,
        })?;
    }
    Ok(starts)
}

/// Sorts the starts of darts by point, in place.
fn sort_starts(alloc: Global, starts: &mut Vec<DartStart>) -> Result<(), AllocError>
    ensures ordered { OnOk result (AreByPoint starts.new.items) }
    ensures moved { IsPermutation starts.old.items starts.new.items }
{
    presort_by_rank(alloc, starts)?;
    starts.sort_unstable_by_key(|start| start.point);
    Ok(())
}

/// How many points there are with one more, in a list where equal ones stand together.
fn count_on(count: u32, previous: Option<Point>, point: Point) -> u32
    requires { count + 1 < 2 ^ 32 }
    ensures { CountsOn count previous point result }
{
    if previous == Some(point) {
        count
    } else {
        count + 1
    }
}

/// Numbers the distinct points of starts that are sorted by point.
fn number_starts(alloc: Global, starts: &[DartStart]) -> Result<Nodes, AllocError>
    requires ordered { AreByPoint starts.now }
    requires darts { AreDarts (length starts.now) starts.now }
    requires room { length starts.now < 2 ^ 32 }
    ensures numbered { IfOk result (λ nodes. AreNumbered starts.now nodes.numbers.items nodes.count) }
    ensures long { IfOk result (λ nodes. length nodes.numbers.items ≡ length starts.now) }
{
    let mut numbers = vec![in alloc; 0u32; starts.len()]?;
    let mut count = 0;
    let mut previous = None;
    for start in starts {
        count = count_on(count, previous, start.point);
        numbers[start.dart as usize] = count - 1;
        previous = Some(start.point);
    }
    Ok(Nodes { numbers, count })
}

/// Numbers the nodes of the chains: the distinct points where their darts start.
pub fn number_nodes(alloc: Global, chains: &Chains) -> Result<Nodes, AllocError>
    requires { All (λ (c : CompleteChain). IsProperChain c.points) chains.now.chains }
    ensures { IfOk result (AreNumberedNodes chains.now.chains) }
{
    let mut starts = dart_starts(alloc, chains)?;
    sort_starts(alloc, &mut starts)?;
    let nodes = number_starts(alloc, &starts)?;
    release(starts);
    Ok(nodes)
}
