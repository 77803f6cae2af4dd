//! All that is wrong with a map.

ghost use Rattle.std.specs.Prelude.{IfOk};
ghost use Rattle.tl_list.specs.MapListings.{IsListingFor};

use std::alloc::Global;
use tl_check_verdict::report;
use tl_decide::{Asked, Decided, Depth, decide};
use tl_list_text::Listing;
use tl_map_county::Map;
use tl_tree_index::Memory;

/// All faults of a map, or its report where it is sound. Where `faces` are asked for, those that disagree are listed of a map whose chains are
/// planar and whose sides agree. An error says that memory was refused.
pub fn list_map(alloc: Global, map: &Map, faces: bool) -> Result<Listing, Memory>
    ensures { IfOk result (IsListingFor faces map.now) }
{
    let asked = Asked {
        depth: Depth::All,
        faces,
        walks: false,
    };
    let Decided {
        faults,
        touched,
        rings,
        ..
    } = decide(alloc, map, asked)?;
    if faults.is_empty() {
        return Ok(Listing::Sound(report(map, rings)));
    }
    Ok(Listing::Faults { faults, touched })
}
