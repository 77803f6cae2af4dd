//! What leaves the list of active segments at a vertex and what enters it, with the tests of all that become neighbours there.
ghost use Rattle.std.specs.Prelude.{◌≡◌, ◌++◌, ◌∷◌, ℕ, Some, [], IfOk, IsTrue, length};
ghost use Rattle.tl_check_planar.specs.ByHeight.Heights.{widest};
ghost use Rattle.tl_check_planar.specs.ByHeight.Neighbours.{AreTested, EachTwo};
ghost use Rattle.tl_check_active.specs.Passed.{IsShifted};
ghost use Rattle.tl_check_active.specs.Blocks.Lined.{list_of};

use crate::blocks::Line;
use crate::neighbours::are_tested;
use std::alloc::AllocError;
use tl_map_county::Map;

/// Takes these segments off the list behind the place, if they stand there in this order.
fn leave(line: &mut Line, outs: &[u32]) -> bool
    ensures front { line.new.front ≡ line.old.front }
    ensures back { IsTrue result → line.old.back ≡ outs.now ++ line.new.back }
{
    for s in outs {
        if line.next() != Some(*s) {
            return false;
        }
        line.take();
    }
    true
}

/// Whether two that are there may be neighbours.
fn may_follow(map: &Map, before: Option<u32>, after: Option<u32>) -> bool
    ensures { IsTrue result → (s t : ℕ) → before ≡ Some s → after ≡ Some t → AreTested widest map.now.chains s t }
{
    match (before, after) {
        (Some(s), Some(t)) => are_tested(map, s, t),
        (None, _) => true,
        (Some(_), None) => true,
    }
}

/// Puts a segment in at the place, if it may stand behind the one before it.
fn enter_one(map: &Map, line: &mut Line, s: u32) -> Result<bool, AllocError>
    ensures back { IfOk result (λ done. IsTrue done → line.new.back ≡ line.old.back) }
    ensures front { IfOk result (λ done. IsTrue done → line.new.front ≡ line.old.front ++ s ∷ []) }
    ensures tested { IfOk result (λ done. IsTrue done → EachTwo (AreTested widest map.now.chains) line.old.front →
        EachTwo (AreTested widest map.now.chains) line.new.front) }
{
    if !may_follow(map, line.previous(), Some(s)) {
        return Ok(false);
    }
    line.put(s)?;
    Ok(true)
}

/// Puts these segments in at the place, in this order, if each may stand behind the one before it.
fn enter(map: &Map, line: &mut Line, ins: &[u32]) -> Result<bool, AllocError>
    ensures back { IfOk result (λ done. IsTrue done → line.new.back ≡ line.old.back) }
    ensures front { IfOk result (λ done. IsTrue done → line.new.front ≡ line.old.front ++ ins.now) }
    ensures tested { IfOk result (λ done. IsTrue done → EachTwo (AreTested widest map.now.chains) line.old.front →
        EachTwo (AreTested widest map.now.chains) line.new.front) }
{
    for s in ins {
        if !enter_one(map, line, *s)? {
            return Ok(false);
        }
    }
    Ok(true)
}

/// Whether those that stand before and behind the place may be neighbours.
pub fn closes(map: &Map, line: &Line) -> bool
    ensures { IsTrue result → EachTwo (AreTested widest map.now.chains) line.now.front →
        EachTwo (AreTested widest map.now.chains) line.now.back → EachTwo (AreTested widest map.now.chains) (list_of line.now) }
{
    may_follow(map, line.previous(), line.next())
}

/// Puts a segment in the stead of the first one behind the place, if that is the one to go and the one before it may be followed
/// by the new one.
fn replace_one(map: &Map, line: &mut Line, out: u32, s: u32) -> Result<bool, AllocError>
    ensures front { IfOk result (λ done. IsTrue done → line.new.front ≡ line.old.front ++ s ∷ []) }
    ensures back { IfOk result (λ done. IsTrue done → line.old.back ≡ out ∷ line.new.back) }
    ensures tested { IfOk result (λ done. IsTrue done → EachTwo (AreTested widest map.now.chains) line.old.front →
        EachTwo (AreTested widest map.now.chains) line.new.front) }
{
    if line.next() != Some(out) || !may_follow(map, line.previous(), Some(s)) {
        return Ok(false);
    }
    line.change(s)?;
    Ok(true)
}

/// Puts segments in the stead of as many behind the place, one by one.
fn replace(map: &Map, line: &mut Line, outs: &[u32], ins: &[u32]) -> Result<bool, AllocError>
    requires long { length outs.now ≡ length ins.now }
    ensures front { IfOk result (λ done. IsTrue done → line.new.front ≡ line.old.front ++ ins.now) }
    ensures back { IfOk result (λ done. IsTrue done → line.old.back ≡ outs.now ++ line.new.back) }
    ensures tested { IfOk result (λ done. IsTrue done → EachTwo (AreTested widest map.now.chains) line.old.front →
        EachTwo (AreTested widest map.now.chains) line.new.front) }
{
    for k in 0..outs.len() {
        if !replace_one(map, line, outs[k], ins[k])? {
            return Ok(false);
        }
    }
    Ok(true)
}

/// Takes these segments off the list at the place and puts those in, if the former stand there and each of the latter may stand
/// behind the one before it. As many as there are of both stand in each other's stead, and only the others move what is behind.
#[inline(always)]
pub fn shift(map: &Map, line: &mut Line, outs: &[u32], ins: &[u32]) -> Result<bool, AllocError>
    ensures front { IfOk result (λ done. IsTrue done → line.new.front ≡ line.old.front ++ ins.now) }
    ensures back { IfOk result (λ done. IsTrue done → line.old.back ≡ outs.now ++ line.new.back) }
    ensures tested { IfOk result (λ done. IsTrue done → EachTwo (AreTested widest map.now.chains) line.old.front →
        EachTwo (AreTested widest map.now.chains) line.new.front) }
{
    let both = outs.len().min(ins.len());
    let (replaced, gone) = outs.split_at(both);
    let (replacing, more) = ins.split_at(both);
    if !replace(map, line, replaced, replacing)? {
        return Ok(false);
    }
    if !leave(line, gone) {
        return Ok(false);
    }
    enter(map, line, more)
}

/// Puts a segment in the stead of another at the place, if that stands there and both neighbours of the new one may be. So it is at
/// a bend of a chain.
pub fn bend(map: &Map, line: &mut Line, out: u32, s: u32) -> Result<bool, AllocError>
    ensures { IfOk result (λ done. IsTrue done → IsShifted map.now.chains (out ∷ []) (s ∷ []) line.old line.new) }
{
    if !replace_one(map, line, out, s)? {
        return Ok(false);
    }
    Ok(closes(map, line))
}
