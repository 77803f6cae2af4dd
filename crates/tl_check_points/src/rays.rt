//! Points that are looked at along their rays.

ghost use Rattle.std.specs.Prelude.{All, IfOk, MatchOption};
ghost use Rattle.tl_check_inside.specs.Placed.{IsTrueMisplaced};
ghost use Rattle.tl_check_inside.specs.Keeping.Strips.{IsSiteOf, IsPlacedSite};

use std::alloc::Global;
use tl_check_inside::{Misplaced, Site, find_among};
use tl_check_planar::Segments;
use tl_map_county::Map;
use tl_tree::{FlatTree, PlainList};
use tl_tree_index::{Memory, TreeStop, pack};

/// For so many points at most no tree is packed: sixteen of them take one pass over the map, and a tree takes about as long as that many
/// passes.
const FEW: usize = 256;

/// Looks for one of these points of polygons that is on a chain, isn't inside its polygon or isn't clear of another, along their rays.
pub fn find_along_rays(
    alloc: Global,
    map: &Map,
    sites: &mut Vec<Site>,
) -> Result<Option<Misplaced>, Memory>
    requires sites { All (IsSiteOf map.now) sites.old.items }
    ensures { IfOk result (λ found. MatchOption found (All (IsPlacedSite map.now) sites.old.items) (IsTrueMisplaced map.now)) }
{
    if sites.len() <= FEW {
        return find_among(alloc, map, &PlainList::new(map.segments()), sites);
    }
    let Ok(nodes) = pack(alloc, &Segments::new(map)) else {
        return Err(Memory);
    };
    match FlatTree::from_nodes(alloc, &nodes) {
        Ok(tree) => find_among(alloc, map, &tree, sites),
        Err(TreeStop::Memory) => Err(Memory),
        Err(TreeStop::TooDeep) => unreachable!(),
    }
}
