//! A step of a sweep at a vertex: the segments that end there leave the list, and those that begin there enter it.
ghost use Rattle.std.specs.Prelude.{IfOk, IfSome, IsTrue};
ghost use Rattle.tl_check_active.specs.Blocks.Lined.{list_of};
ghost use Rattle.tl_check_active.specs.Passed.{HasPassed, IsShifted};

use crate::blocks::{Line, Places};
use crate::finding::go_to_first;
use crate::shifting::{bend, closes, shift};
use crate::vertices::order;
use std::alloc::AllocError;
use tl_geom::Point;
use tl_map_county::Map;

/// The segments that stand west and east of those of a vertex, if there are such.
#[derive(Clone, Copy)]
pub struct BothSides {
    pub west: Option<u32>,
    pub east: Option<u32>,
}

/// Takes segments off the list at the place and puts others in, if the former stand there and all that are neighbours for the first time
/// may be. At a bend of a chain, the commonest vertex, one stands in the stead of another.
#[inline]
fn exchange(map: &Map, line: &mut Line, outs: &[u32], ins: &[u32]) -> Result<bool, AllocError>
    ensures { IfOk result (λ done. IsTrue done → IsShifted map.now.chains outs.now ins.now line.old line.new) }
{
    if outs.len() == 1 && ins.len() == 1 {
        return bend(map, line, outs[0], ins[0]);
    }
    if !shift(map, line, outs, ins)? {
        return Ok(false);
    }
    Ok(closes(map, line))
}

/// Passes the vertex at a point, with the segments that end there and those that begin there in any order, which are sorted; and tells
/// what stands beside these. It answers nothing where those don't stand there, or where a test of neighbours fails. The error is that memory
/// was refused.
pub fn pass(
    map: &Map,
    p: Point,
    line: &mut Line,
    outs: &mut Vec<u32>,
    ins: &mut Vec<u32>,
    places: &mut Places,
) -> Result<Option<BothSides>, AllocError>
    ensures { IfOk result (λ passed. IfSome passed (HasPassed map.now.chains (list_of line.old) line.new
        outs.old.items outs.new.items ins.old.items ins.new.items)) }
{
    order(map, outs);
    order(map, ins);
    go_to_first(map, p, line, places, outs)?;
    let west = line.previous();
    let is_passed = exchange(map, line, outs, ins)?;
    let east = line.next();
    places.keep(line, ins);
    if is_passed {
        Ok(Some(BothSides { west, east }))
    } else {
        Ok(None)
    }
}
