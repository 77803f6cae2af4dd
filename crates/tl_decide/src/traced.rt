//! The walks of maps, counted or handed out.

ghost use Rattle.std.specs.Prelude.{IfOk, MatchOption, false, true};
ghost use Rattle.tl_check_planar.specs.Planar.{IsPlanar};
ghost use Rattle.tl_check_sides.specs.Sides.{SidesAgree};
ghost use Rattle.tl_decide.specs.Keeping.Tracing.{IsTraced};

use std::alloc::Global;
use tl_build_propose::{count_walks, find_sides_at_odds, propose_walks};
use tl_map_county::Map;
use tl_tree_index::Memory;

/// How many walks a map has, and these walks, where they are asked for.
#[derive(Drop)]
pub struct Traced {
    pub rings: u32,
    pub walks: Vec<Vec<u32>>,
}

/// The walks of a map whose chains are planar, where its sides agree; none where they don't. They are kept only where they are asked for.
pub fn trace(alloc: Global, map: &Map, walks: bool) -> Result<Option<Traced>, Memory>
    requires { IsPlanar map.now.chains }
    ensures { IfOk result (λ told. MatchOption told (¬ SidesAgree map.now.chains) (IsTraced walks map.now)) }
{
    if walks {
        trace_kept(alloc, map)
    } else {
        trace_counted(alloc, map)
    }
}

/// The same, where no walk is kept.
fn trace_counted(alloc: Global, map: &Map) -> Result<Option<Traced>, Memory>
    requires { IsPlanar map.now.chains }
    ensures { IfOk result (λ told. MatchOption told (¬ SidesAgree map.now.chains) (IsTraced false map.now)) }
{
    // that each chain has two points or more
    map.has_proper_chains();
    match count_walks(alloc, map) {
        Ok(Some(rings)) => Ok(Some(Traced {
            rings,
            walks: Vec::new(alloc),
        })),
        Ok(None) => Ok(None),
        Err(_) => Err(Memory),
    }
}

/// The same, where all are kept.
fn trace_kept(alloc: Global, map: &Map) -> Result<Option<Traced>, Memory>
    requires { IsPlanar map.now.chains }
    ensures { IfOk result (λ told. MatchOption told (¬ SidesAgree map.now.chains) (IsTraced true map.now)) }
{
    // that each chain has two points or more
    map.has_proper_chains();
    let Ok(walks) = propose_walks(alloc, map) else {
        return Err(Memory);
    };
    match find_sides_at_odds(map, &walks) {
        Some(_) => Ok(None),
        None => Ok(Some(Traced {
            rings: walks.len() as u32,
            walks,
        })),
    }
}
