//! Marks of polygons.

ghost use Rattle.std.specs.Prelude.{◌≡◌, ◌<◌, ◌↔◌, ◌⊎◌, ℕ, IsTrue, IfOk, OnOk, false, length, slice_index_or, Contains};
ghost use Rattle.std.specs.List.Sorted.{IsStrictlyIncreasing};
ghost use Rattle.tl_check_points.specs.Listing.Hidden.{IsMarked};

use std::alloc::Global;
use tl_check_sides::listing::sort_once;
use tl_tree_index::Memory;

/// Whether a polygon is marked. One that has no mark isn't.
pub fn is_marked(marks: &[bool], p: u32) -> bool
    ensures { IsTrue result ↔ IsMarked marks.now p }
{
    match marks.get(p as usize) {
        Some(mark) => *mark,
        None => false,
    }
}

/// A mark for each of these polygons, and for no other. An error says that memory was refused.
pub fn marks_of(alloc: Global, polygons: &[u32]) -> Result<Vec<bool>, Memory>
    ensures { IfOk result (λ marks. (p : ℕ) → IsMarked marks.items p ↔ Contains polygons.now p) }
{
    let mut marks = Vec::new(alloc);
    for place in 0..polygons.len() {
        mark(&mut marks, polygons[place])?;
    }
    Ok(marks)
}

/// Marks one polygon more.
fn mark(marks: &mut Vec<bool>, p: u32) -> Result<(), Memory>
    ensures { OnOk result ((q : ℕ) → IsMarked marks.new.items q ↔ (IsMarked marks.old.items q ⊎ (q ≡ p))) }
{
    make_room(marks, p)?;
    marks[p as usize] = true;
    Ok(())
}

/// Makes room for the mark of a polygon.
fn make_room(marks: &mut Vec<bool>, p: u32) -> Result<(), Memory>
    ensures room { OnOk result (p < length marks.new.items) }
    ensures same { OnOk result ((q : ℕ) → slice_index_or marks.new.items q false ≡ slice_index_or marks.old.items q false) }
{
    let long = p as usize + 1;
    if marks.len() >= long {
        return Ok(());
    }
    match marks.resize(long, false) {
        Ok(()) => Ok(()),
        Err(_) => Err(Memory),
    }
}

/// Lists those of these numbers that aren't marked, by rising number and each once, in the place of those that were listed.
pub fn list_unmarked(marks: &[bool], numbers: &[u32], kept: &mut Vec<u32>) -> Result<(), Memory>
    ensures rising { OnOk result (IsStrictlyIncreasing kept.new.items) }
    ensures same { OnOk result ((n : ℕ) → Contains kept.new.items n ↔ (Contains numbers.now n × (¬ IsMarked marks.now n))) }
{
    kept.clear();
    for place in 0..numbers.len() {
        let number = numbers[place];
        if is_marked(marks, number) {
            continue;
        }
        if kept.push(number).is_err() {
            return Err(Memory);
        }
    }
    sort_once(kept);
    Ok(())
}
