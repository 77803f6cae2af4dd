//! The darts of a map about their nodes.

ghost use Rattle.std.specs.Prelude.{◌≡◌, ◌↔◌, IfOk, IsTrue, OnOk};
ghost use Rattle.std.specs.List.Sorted.{IsPermutation};
ghost use Rattle.tl_check_sides.specs.Sides.{dart_count};
ghost use Rattle.tl_check_sides.specs.Headed.{HeadTogether, HeadsFirst, ComesBefore, AreSorted, AreHeaded, AreDartsSorted};

use std::alloc::{AllocError, Global};
use std::cmp::Ordering;
use tl_geom::{Direction, round_cmp};
use tl_map_county::{Keyed, Map, Ranked, presort_by_rank};

/// A dart, with the number of the node where it starts and the direction in which it heads.
#[derive(Clone, Copy)]
pub struct HeadedDart {
    pub node: u32,
    pub dart: u32,
    pub heading: Direction,
}

impl Ranked for HeadedDart {
    /// By its node.
    fn rank(&self) -> u64 {
        u64::from(self.node)
    }

    /// As they are sorted.
    fn compare(&self, other: &HeadedDart) -> Ordering {
        headed_cmp(self, other)
    }
}

impl Keyed for HeadedDart {
    ghost key_of = { λ dart. dart.node };

    /// The number of its node.
    fn key(&self) -> u64 {
        u64::from(self.node)
    }
}

/// The darts of a map, those of each node together and counter-clockwise from east, and those that head in one
/// direction by their numbers. An error says that memory was refused.
pub fn sort_darts(alloc: Global, map: &Map) -> Result<Vec<HeadedDart>, AllocError>
    ensures { IfOk result (λ darts. AreDartsSorted map.now.chains darts.items) }
{
    let mut darts = headed_darts(alloc, map)?;
    sort_about(alloc, &mut darts)?;
    Ok(darts)
}

/// The darts of a map by their numbers.
fn headed_darts(alloc: Global, map: &Map) -> Result<Vec<HeadedDart>, AllocError>
    ensures { IfOk result (λ darts. AreHeaded map.now.chains (dart_count map.now.chains) darts.items) }
{
    // That the map has a list of nodes.
    let _nodes = map.nodes();
    let mut darts = Vec::with_capacity(alloc, map.darts() as usize)?;
    for dart in 0..map.darts() {
        darts.push(HeadedDart {
            node: map.dart_node(dart),
            dart,
            heading: map.dart_heading(dart),
        })?;
    }
    Ok(darts)
}

/// Sorts darts by their nodes, about one node by their headings, and in one direction by their numbers.
fn sort_about(alloc: Global, darts: &mut Vec<HeadedDart>) -> Result<(), AllocError>
    ensures same { IsPermutation darts.old.items darts.new.items }
    ensures sorted { OnOk result (AreSorted darts.new.items) }
{
    presort_by_rank(alloc, darts)?;
    darts.sort_unstable_by(
        |one: &HeadedDart, other: &HeadedDart| -> Ordering
            ensures { (result ≡ Ordering.Less) ↔ ComesBefore one.now other.now }
        { headed_cmp(one, other) },
    );
    Ok(())
}

/// The order of darts by their nodes, about one node by their headings, and in one direction by their numbers.
fn headed_cmp(one: &HeadedDart, other: &HeadedDart) -> Ordering
    ensures { (result ≡ Ordering.Less) ↔ ComesBefore one.now other.now }
{
    match one.node.cmp(&other.node) {
        Ordering::Equal => about_cmp(one, other),
        apart => apart,
    }
}

/// The order of darts of one node.
fn about_cmp(one: &HeadedDart, other: &HeadedDart) -> Ordering
    ensures { (result ≡ Ordering.Less) ↔ HeadsFirst one.now other.now }
{
    match round_cmp(one.heading, other.heading) {
        Ordering::Equal => one.dart.cmp(&other.dart),
        apart => apart,
    }
}

/// Whether two darts head in one direction about one node.
pub fn head_together(one: &HeadedDart, other: &HeadedDart) -> bool
    ensures { IsTrue result ↔ HeadTogether one.now other.now }
{
    one.node == other.node && round_cmp(one.heading, other.heading) == Ordering::Equal
}
