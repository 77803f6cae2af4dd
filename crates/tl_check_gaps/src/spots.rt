//! The points of polygons, on the way of a sweep.
ghost use Rattle.std.specs.Prelude.{◌≡◌, ◌⊎◌, ◌<◌, ℕ, false, true, All, Contains, IfOk, IsTrue, length, slice_index_or};
ghost use Rattle.tl_check_inside.specs.Placed.{ArePlaced};
ghost use Rattle.tl_check_gaps.specs.Keeping.Facing.{IsCounted};
ghost use Rattle.tl_check_active.specs.Blocks.Lined.{list_of};
ghost use Rattle.tl_check_active.specs.Events.{before, joined, AreEvents, AreEventsRising};
ghost use Rattle.tl_check_active.specs.Ranges.{AreInRange};
ghost use Rattle.tl_check_gaps.specs.Keeping.Spotted.{AreMarks};
ghost use Rattle.tl_check_gaps.specs.Keeping.Swept.{IsSwept};

use crate::placing::is_placed;
use crate::rising::RisingPoints;
use std::alloc::{AllocError, Global};
use tl_check_active::Events;
use tl_check_active::blocks::Line;
use tl_map_county::Map;

/// The points of polygons from the lowest to the highest, and the polygons whose points were found to be placed.
#[derive(Drop)]
pub struct InnerPoints {
    points: RisingPoints,
    /// A mark for each polygon whose point was found to be placed.
    pub marks: Vec<bool>,
}

impl InnerPoints {
    /// The points of a map's polygons, none of which is found to be placed yet.
    pub fn new(alloc: Global, map: &Map) -> Result<InnerPoints, AllocError>
        ensures { IfOk result (λ spots. AreMarks map.now spots.marks.items) }
    {
        let points = list_points(alloc, map)?;
        let marks = vec![in alloc; false; map.polygons() as usize]?;
        Ok(InnerPoints { points, marks })
    }

    /// Marks the polygons whose points are below the next event and are found to be placed, by the list of the segments that are active there.
    pub fn mark_below(
        &mut self,
        map: &Map,
        line: &mut Line,
        events: &Events,
        from: usize,
        gaps: Option<u64>,
    ) -> Result<(), AllocError>
        requires events { AreEvents map.now.chains (joined events.now) }
        requires rising { AreEventsRising (joined events.now) }
        requires ranges { AreInRange map.now.chains }
        requires within { from < length events.now }
        requires swept { IsSwept map.now.chains (joined events.now) (before from events.now) (list_of line.old) }
        requires counted { IsCounted map.now.chains gaps (list_of line.old) }
        requires marks { AreMarks map.now self.old.marks.items }
        ensures list { IfOk result (λ done. list_of line.new ≡ list_of line.old) }
        ensures marks { IfOk result (λ done. AreMarks map.now self.new.marks.items) }
    {
        while let Some(polygon) = self.points.next_below(events, from) {
            if is_placed(map, line, events, from, gaps, polygon)? {
                mark(&mut self.marks, polygon);
            }
        }
        Ok(())
    }

    /// Whether all polygons' points were found to be placed.
    pub fn are_placed(&self, map: &Map) -> bool
        requires { AreMarks map.now self.now.marks.items }
        ensures { IsTrue result → ArePlaced map.now }
    {
        are_all(&self.marks)
    }

    /// The polygons whose points were found to be placed, by a mark for each polygon.
    pub fn into_marks(self) -> Vec<bool>
        ensures { result.items ≡ self.marks.items }
    {
        self.marks
    }
}

/// The polygons of a map that have no mark.
pub fn list_unmarked(alloc: Global, map: &Map, marks: &[bool]) -> Result<Vec<u32>, AllocError>
    ensures known { IfOk result (λ polygons. All (λ p. p < length map.now.polygons) polygons.items) }
    ensures others { IfOk result (λ polygons. (p : ℕ) → p < length map.now.polygons →
        Contains polygons.items p ⊎ (slice_index_or marks.now p false ≡ true)) }
{
    let mut polygons = Vec::new(alloc);
    for p in 0..map.polygons() {
        if is_marked(marks, p) {
            continue;
        }
        polygons.push(p)?;
    }
    Ok(polygons)
}

/// Whether a polygon is marked.
fn is_marked(marks: &[bool], polygon: u32) -> bool
    ensures { IsTrue result → slice_index_or marks.now polygon false ≡ true }
{
    match marks.get(polygon as usize) {
        Some(mark) => *mark,
        None => false,
    }
}

/// The points of a map's polygons.
fn list_points(alloc: Global, map: &Map) -> Result<RisingPoints, AllocError> {
    let mut points = RisingPoints::with_capacity(alloc, map.polygons() as usize)?;
    for polygon in 0..map.polygons() {
        points.push(map.polygon(polygon).point)?;
    }
    points.sort(alloc)?;
    Ok(points)
}

/// Marks a polygon.
fn mark(marks: &mut Vec<bool>, polygon: u32)
    ensures long { length marks.new.items ≡ length marks.old.items }
    ensures only { (p : ℕ) → slice_index_or marks.new.items p false ≡ true →
        (slice_index_or marks.old.items p false ≡ true) ⊎ (p ≡ polygon) }
{
    if (polygon as usize) < marks.len() {
        marks[polygon as usize] = true;
    }
}

/// Whether all are marked.
fn are_all(marks: &[bool]) -> bool
    ensures { IsTrue result → (p : ℕ) → p < length marks.now → slice_index_or marks.now p false ≡ true }
{
    for mark in marks {
        if !*mark {
            return false;
        }
    }
    true
}
