//! Polygons' points that don't lie where they have to.

ghost use Rattle.std.specs.Prelude.{IfOk, MatchOption};
ghost use Rattle.tl_check_inside.specs.Placed.{ArePlaced, IsTrueMisplaced};
ghost use Rattle.tl_check_inside.specs.Suspects.{AreSuspects};

use crate::by_counts::find_by_counts;
use crate::rays::find_along_rays;
use crate::sites::sites_of;
use std::alloc::Global;
use tl_check_inside::Misplaced;
use tl_map_county::Map;
use tl_tree_index::Memory;

/// Looks for a polygon whose point is on a chain, isn't inside its polygon or isn't clear of another, among these, where the points of all
/// others are known to lie where they have to: by counts that become known in one sweep, or else along the rays of their points. Nothing is
/// asked of sides.
pub fn find_among_suspects(
    alloc: Global,
    map: &Map,
    suspects: &[u32],
) -> Result<Option<Misplaced>, Memory>
    requires { AreSuspects map.now suspects.now }
    // `None` is answered only where the point of each polygon is on no chain, inside its own polygon and clear of every
    // other; what is found is true.
    ensures { IfOk result (λ found. MatchOption found (ArePlaced map.now) (IsTrueMisplaced map.now)) }
{
    let sites = sites_of(alloc, map, suspects)?;
    let mut others = Vec::new(alloc);
    match find_by_counts(alloc, map, &sites, &mut others)? {
        Some(found) => Ok(Some(found)),
        None => find_along_rays(alloc, map, &mut others),
    }
}
