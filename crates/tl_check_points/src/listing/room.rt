//! What is used anew for each point.

ghost use Rattle.std.specs.Prelude.{IfOk};
ghost use Rattle.tl_check_inside.specs.Keeping.Tallies.{AreClear};

use std::alloc::Global;
use tl_check_inside::{Flanks, no_counts};
use tl_tree_index::Memory;

/// Lists that are filled anew for each point, and counts of all polygons, which are taken back after each.
#[derive(Drop)]
pub struct Room {
    /// The segments that lie east of the point.
    pub hits: Vec<u32>,
    /// The chains that hold it.
    pub held: Vec<u32>,
    /// The sides of the segments that its ray crosses.
    pub crossed: Vec<Flanks>,
    /// The other polygons that it lies in.
    pub odd: Vec<u32>,
    /// Those of them that aren't marked.
    pub others: Vec<u32>,
    /// How often each polygon is on the near side, and how often on the far side.
    pub near: Vec<u64>,
    pub far: Vec<u64>,
}

impl Room {
    /// Empty lists, and counts of nothing for so many polygons.
    pub fn new(alloc: Global, polygons: usize) -> Result<Room, Memory>
        ensures { IfOk result (λ room. AreClear polygons room.near.items room.far.items) }
    {
        let near = no_counts(alloc, polygons)?;
        let far = no_counts(alloc, polygons)?;
        Ok(Room {
            hits: Vec::new(alloc),
            held: Vec::new(alloc),
            crossed: Vec::new(alloc),
            odd: Vec::new(alloc),
            others: Vec::new(alloc),
            near,
            far,
        })
    }
}
