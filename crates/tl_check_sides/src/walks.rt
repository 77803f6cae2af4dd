//! Walks, taken one after the other.

ghost use Rattle.std.specs.Prelude.{◌≡◌, ℕ, zero, suc, ◌<◌, ◌≤◌, ◌++◌, List, [], length, slice_index, OnOk, IfOk, IfErr};
ghost use Rattle.tl_check_sides.specs.Lists.{and_list};
ghost use Rattle.tl_check_sides.specs.Sides.{dart_count, IsRing};
ghost use Rattle.tl_check_sides.specs.Walks.{AreWalks, IsWalkFault};
ghost use Rattle.tl_check_sides.specs.Keeping.Rounded.{KeepNext};
ghost use Rattle.tl_check_sides.specs.Keeping.Walked.{AreReady, HaveWalked, IsNoRing};

use crate::fault::WalkFault;
use crate::marks::{MarkFault, first_unmarked, mark_darts};
use crate::next::Next;
use std::alloc::Global;
use tl_map_county::Map;
use tl_tree_index::Memory;

/// The walks of a map that were taken so far, none of which was wrong. No walk is kept.
#[derive(Drop)]
pub struct Walks {
    next: Next,
    marks: Vec<bool>,
    taken: u32,
}

/// Why a walk is no ring.
#[derive(Clone, Copy)]
enum NoRing {
    /// A dart doesn't follow the one before it.
    WrongStep,
    /// The first dart doesn't follow the last.
    NotClosed,
}

impl Walks {
    /// No walk taken yet.
    pub fn new(alloc: Global, map: &Map, next: Next) -> Result<Walks, Memory>
        requires next { KeepNext map.now.chains next }
        ensures ready { IfOk result (AreReady map.now.chains) }
        ensures none { IfOk result (HaveWalked map.now.chains []) }
    {
        let Ok(marks) = vec![in alloc; false; map.darts() as usize] else {
            return Err(Memory);
        };
        Ok(Walks {
            next,
            marks,
            taken: 0,
        })
    }

    /// Takes one walk more. A fault is one of all walks up to this one, whatever walks follow; behind it none should be
    /// taken.
    pub fn take(&mut self, map: &Map, walk: &[u32]) -> Result<(), WalkFault>
        requires ready { AreReady map.now.chains self.old }
        requires some { zero < length walk.now }
        ensures ready { AreReady map.now.chains self.new }
        // It is taken behind those that were taken before, and none of them is wrong.
        ensures taken { OnOk result ((walks : List (List ℕ)) →
            HaveWalked map.now.chains walks self.old → HaveWalked map.now.chains (and_list walks walk.now) self.new) }
        // A fault is true of the walks up to this one, whatever walks follow.
        ensures fault { IfErr result (λ fault. (walks more : List (List ℕ)) →
            HaveWalked map.now.chains walks self.old →
            IsWalkFault map.now.chains (and_list walks walk.now ++ more) fault) }
    {
        let number = self.taken;
        match mark_darts(&mut self.marks, walk) {
            Ok(()) => {}
            Err(MarkFault::Unknown(dart)) => return Err(WalkFault::UnknownDart(dart)),
            Err(MarkFault::Twice(dart)) => return Err(WalkFault::DartTwice(dart)),
        }
        match step_round(&self.next, map, walk) {
            Ok(()) => {}
            Err(NoRing::WrongStep) => return Err(WalkFault::WrongStep(number)),
            Err(NoRing::NotClosed) => return Err(WalkFault::NotClosed(number)),
        }
        self.taken = number + 1;
        Ok(())
    }

    /// Ends the walks: how many there are where they are rings in which each dart of the map stands once, or a dart that
    /// is missing.
    pub fn end(self, map: &Map) -> Result<u32, WalkFault>
        requires ready { AreReady map.now.chains self }
        // They are rings in which each dart stands once and nothing else does, and their number is answered.
        ensures whole { IfOk result (λ count. (walks : List (List ℕ)) →
            HaveWalked map.now.chains walks self → AreWalks map.now.chains walks × (count ≡ length walks)) }
        // A fault is true of the walks.
        ensures fault { IfErr result (λ fault. (walks : List (List ℕ)) →
            HaveWalked map.now.chains walks self → IsWalkFault map.now.chains walks fault) }
    {
        match first_unmarked(&self.marks) {
            Some(dart) => Err(WalkFault::DartMissing(dart)),
            None => Ok(self.taken),
        }
    }
}

/// Follows a walk round, from its last dart to its first and on.
fn step_round(next: &Next, map: &Map, walk: &[u32]) -> Result<(), NoRing>
    requires next { KeepNext map.now.chains next.now }
    requires some { zero < length walk.now }
    requires darts { (k : ℕ) → k < length walk.now → slice_index walk.now k < dart_count map.now.chains }
    ensures ring { OnOk result (IsRing map.now.chains walk.now) }
    ensures none { IfErr result (IsNoRing map.now.chains walk.now) }
{
    let last = walk[walk.len() - 1];
    if !next.follows(map, last, walk[0]) {
        return Err(NoRing::NotClosed);
    }
    for place in 1..walk.len() {
        if !next.follows(map, walk[place - 1], walk[place]) {
            return Err(NoRing::WrongStep);
        }
    }
    Ok(())
}
