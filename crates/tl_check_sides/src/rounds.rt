//! Rounds, taken one after the other.

ghost use Rattle.std.specs.Prelude.{◌≡◌, ℕ, zero, suc, ◌<◌, ◌≤◌, ◌++◌, List, [], length, slice_index, IsTrue, IsFalse, OnOk, IfOk, IfErr};
ghost use Rattle.tl_geom.specs.declared.point.Point.{Point};
ghost use Rattle.tl_map_county.specs.Nodes.{AreNodes};
ghost use Rattle.tl_tree_index.specs.Hits.{times};
ghost use Rattle.tl_check_sides.specs.Lists.{and_list};
ghost use Rattle.tl_check_sides.specs.Sides.{dart_count};
ghost use Rattle.tl_check_sides.specs.Rounds.{AreRounds, HasOneNode, HasTwoNodes, AreHeadingsRising, HasFall, IsRoundFault};
ghost use Rattle.tl_check_sides.specs.Keeping.Rounded.{AreLinked, AreHeaded, AreSized, HaveTaken, KeepNext};

use crate::fault::RoundFault;
use crate::marks::{MarkFault, first_unmarked, mark_darts};
use crate::next::Next;
use std::alloc::Global;
use std::cmp::Ordering;
use tl_geom::round_cmp;
use tl_map_county::Map;
use tl_tree_index::Memory;

/// The rounds of a map that were taken so far, none of which was wrong. No round is kept: beside marks, only the next dart
/// about its node of each dart is.
#[derive(Drop)]
pub struct Rounds {
    next: Vec<u32>,
    marks: Vec<bool>,
    nodes: Vec<bool>,
    taken: u32,
}

impl Rounds {
    /// No round taken yet.
    pub fn new(alloc: Global, map: &Map) -> Result<Rounds, Memory>
        ensures sized { IfOk result (AreSized map.now.chains) }
        ensures none { IfOk result (HaveTaken map.now.chains []) }
    {
        let Ok(next) = vec![in alloc; 0; map.darts() as usize] else {
            return Err(Memory);
        };
        let Ok(marks) = vec![in alloc; false; map.darts() as usize] else {
            return Err(Memory);
        };
        let Ok(nodes) = vec![in alloc; false; map.nodes() as usize] else {
            return Err(Memory);
        };
        Ok(Rounds {
            next,
            marks,
            nodes,
            taken: 0,
        })
    }

    /// Takes one round more. A fault is one of all rounds up to this one, whatever rounds follow; behind it none should be
    /// taken.
    pub fn take(&mut self, map: &Map, round: &[u32]) -> Result<(), RoundFault>
        requires sized { AreSized map.now.chains self.old }
        requires some { zero < length round.now }
        ensures sized { AreSized map.now.chains self.new }
        // It is taken behind those that were taken before, and none of them is wrong.
        ensures taken { OnOk result ((rounds : List (List ℕ)) →
            HaveTaken map.now.chains rounds self.old → HaveTaken map.now.chains (and_list rounds round.now) self.new) }
        // A fault is true of the rounds up to this one, whatever rounds follow.
        ensures fault { IfErr result (λ fault. (rounds more : List (List ℕ)) →
            HaveTaken map.now.chains rounds self.old →
            IsRoundFault map.now.chains (and_list rounds round.now ++ more) fault) }
    {
        let number = self.taken;
        match mark_darts(&mut self.marks, round) {
            Ok(()) => {}
            Err(MarkFault::Unknown(dart)) => return Err(RoundFault::UnknownDart(dart)),
            Err(MarkFault::Twice(dart)) => return Err(RoundFault::DartTwice(dart)),
        }
        if !has_one_node(map, round) {
            return Err(RoundFault::StartsElsewhere(number));
        }
        let node = map.dart_node(round[0]) as usize;
        if self.nodes[node] {
            return Err(RoundFault::NodeRepeated(number));
        }
        if !is_rising(map, round) {
            return Err(RoundFault::OrderNotRising(number));
        }
        self.nodes[node] = true;
        link(&mut self.next, round);
        self.taken = number + 1;
        Ok(())
    }

    /// Ends the rounds: they are those of the map, and the next dart of each is known, or a dart is missing.
    pub fn end(self, map: &Map) -> Result<Next, RoundFault>
        requires sized { AreSized map.now.chains self }
        // They are the rounds of the map: each dart once and nothing else, in each the darts of one node with headings
        // that rise strictly counter-clockwise from east, and no two of one node.
        ensures whole { OnOk result ((rounds : List (List ℕ)) →
            HaveTaken map.now.chains rounds self → AreRounds map.now.chains rounds) }
        // The dart that is kept for each is next after it about its node, and no other is.
        ensures next { IfOk result (λ next. (rounds : List (List ℕ)) →
            HaveTaken map.now.chains rounds self → KeepNext map.now.chains next) }
        // A fault is true of the rounds.
        ensures fault { IfErr result (λ fault. (rounds : List (List ℕ)) →
            HaveTaken map.now.chains rounds self → IsRoundFault map.now.chains rounds fault) }
    {
        match first_unmarked(&self.marks) {
            Some(dart) => Err(RoundFault::DartMissing(dart)),
            None => Ok(Next::new(self.next)),
        }
    }
}

/// Whether all darts of a round start at one node.
fn has_one_node(map: &Map, round: &[u32]) -> bool
    requires some { zero < length round.now }
    requires darts { (k : ℕ) → k < length round.now → slice_index round.now k < dart_count map.now.chains }
    requires nodes { (points : List Point) × AreNodes map.now.chains points }
    ensures one { IsTrue result → HasOneNode map.now.chains round.now }
    ensures two { IsFalse result → HasTwoNodes map.now.chains round.now }
{
    let node = map.dart_node(round[0]);
    for place in 0..round.len() {
        if map.dart_node(round[place]) != node {
            return false;
        }
    }
    true
}

/// Whether the headings of a round's darts rise strictly.
fn is_rising(map: &Map, round: &[u32]) -> bool
    requires some { zero < length round.now }
    requires darts { (k : ℕ) → k < length round.now → slice_index round.now k < dart_count map.now.chains }
    ensures rising { IsTrue result → AreHeadingsRising map.now.chains round.now }
    ensures headed { IsTrue result → AreHeaded map.now.chains round.now }
    ensures fall { IsFalse result → HasFall map.now.chains round.now }
{
    let mut heading = map.dart_heading(round[0]);
    for place in 1..round.len() {
        let behind = map.dart_heading(round[place]);
        match round_cmp(heading, behind) {
            Ordering::Less => heading = behind,
            Ordering::Equal | Ordering::Greater => return false,
        }
    }
    true
}

/// Keeps behind each dart of a round the next one.
fn link(next: &mut [u32], round: &[u32])
    requires some { zero < length round.now }
    requires darts { (k : ℕ) → k < length round.now → slice_index round.now k < length next.old }
    requires once { (d : ℕ) → times d round.now ≤ 1 }
    ensures long { length next.new ≡ length next.old }
    ensures linked { AreLinked next.new round.now }
    ensures others { (d : ℕ) → times d round.now ≡ 0 → slice_index next.new d ≡ slice_index next.old d }
{
    let mut last = round[round.len() - 1];
    for place in 0..round.len() {
        next[last as usize] = round[place];
        last = round[place];
    }
}
