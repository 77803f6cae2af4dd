//! The darts of a map that have zero-cell ids.

ghost use Rattle.std.specs.Prelude.{◌≡◌, ◌<◌, IfOk, length, All};
ghost use Rattle.std.specs.List.Sorted.{IsPermutation};
ghost use Rattle.tl_check_sides.specs.Sides.{dart_count};
ghost use Rattle.tl_check_sides.specs.Listing.Keeping.Starts.{AreListed, AreById, AreFirstsOf};

use std::alloc::{AllocError, Global};
use tl_map_county::Map;

/// A dart that has an id at its start, with that id and the number of the node.
#[derive(Clone, Copy)]
pub struct CellStart {
    pub id: u64,
    pub node: u32,
    pub dart: u32,
}

/// The darts of a map that have ids, by their numbers.
pub fn list_starts(alloc: Global, map: &Map) -> Result<Vec<CellStart>, AllocError>
    ensures { IfOk result (λ starts. AreListed map.now.chains (dart_count map.now.chains) starts.items) }
{
    // That the map has a list of nodes.
    let _nodes = map.nodes();
    let mut starts = Vec::new(alloc);
    for dart in 0..map.darts() {
        let Some(id) = map.dart_cell(dart) else {
            continue;
        };
        starts.push(CellStart {
            id,
            node: map.dart_node(dart),
            dart,
        })?;
    }
    Ok(starts)
}

/// Sorts darts by their ids, and those of one id by their numbers, in place.
pub fn sort_by_id(starts: &mut Vec<CellStart>)
    ensures ordered { AreById starts.new.items }
    ensures moved { IsPermutation starts.old.items starts.new.items }
{
    starts.sort_unstable_by_key(|start| (start.id, start.dart));
}

/// Of each of so many nodes the first of some darts that starts there.
pub fn first_at_nodes(
    alloc: Global,
    nodes: u32,
    starts: &[CellStart],
) -> Result<Vec<Option<CellStart>>, AllocError>
    requires { All (λ s. s.node < nodes) starts.now }
    ensures firsts { IfOk result (λ firsts. AreFirstsOf starts.now (length starts.now) firsts.items) }
    ensures long { IfOk result (λ firsts. length firsts.items ≡ nodes) }
{
    let mut firsts = vec![in alloc; None; nodes as usize]?;
    for place in 0..starts.len() {
        let start = starts[place];
        if firsts[start.node as usize].is_some() {
            continue;
        }
        firsts[start.node as usize] = Some(start);
    }
    Ok(firsts)
}
