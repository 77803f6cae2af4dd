//! The polygons whose counts aren't 0.

ghost use Rattle.std.specs.Prelude.{◌≡◌, ◌<◌, length, IfOk};
ghost use Rattle.tl_check_inside.specs.Keeping.Listed.{passing, differ_at};

use std::alloc::Global;
use tl_map_county::Map;
use tl_tree_index::Memory;

/// The numbers of the polygons that are near and far not equally often, by rising number.
pub fn unbalanced(alloc: Global, map: &Map, near: &[u64], far: &[u64]) -> Result<Vec<u32>, Memory>
    requires nears { length near.now ≡ length map.now.polygons }
    requires fars { length far.now ≡ length map.now.polygons }
    ensures { IfOk result (λ listed. listed.items ≡ passing (differ_at near.now far.now) (length map.now.polygons)) }
{
    let mut listed = Vec::new(alloc);
    for p in 0..map.polygons() {
        if near[p as usize] != far[p as usize] {
            if listed.push(p).is_err() {
                return Err(Memory);
            }
        }
    }
    Ok(listed)
}
