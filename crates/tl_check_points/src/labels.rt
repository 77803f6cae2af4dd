//! The gaps between neighbours of the list of active segments, and the segments' labels.
ghost use Rattle.std.specs.Prelude.{◌≡◌, ◌≢◌, ℕ, List, ◌∷◌, Some, IfOk, IsTrue, length, slice_index};
ghost use Rattle.tl_map_county.specs.TheMap.{MapChain};
ghost use Rattle.tl_check_inside.specs.declared.flanks.Flanks.{Flanks as TheFlanks};
ghost use Rattle.tl_check_inside.specs.Inside.{flanks_at};
ghost use Rattle.tl_check_inside.specs.Keeping.Tallies.{flanks_in};
ghost use Rattle.tl_check_gaps.specs.Keeping.Facing.{raised};
ghost use Rattle.tl_check_points.specs.Keeping.Ways.{TellGap, AreKept};
ghost use Rattle.tl_check_points.specs.Keeping.Labels.{AreLabelled, HasEntered};

use crate::agreeing::find_flanks;
use std::alloc::{AllocError, Global};
use tl_check_active::blocks::Line;
use tl_check_inside::Flanks;
use tl_map_county::{Map, Side};

/// So many gaps are made at most for each segment. Where sides agree about each node it takes one.
const GAPS_EACH: u32 = 4;

/// A gap: the sides of the segment on the east of it, and the gap on the east of that segment, by a lower number.
#[derive(Clone, Copy)]
pub struct Gap {
    pub parent: u32,
    pub flanks: Flanks,
}

/// The gaps that were made, and of each segment the gap on the west of it.
#[derive(Drop)]
pub struct Labels {
    /// The gaps by their numbers. The first one is the outside east of all.
    pub gaps: Vec<Gap>,
    /// The numbers of gaps, by the segments' numbers; 0 for a segment that hasn't entered the list.
    pub labels: Vec<u32>,
    /// How many gaps there are at most.
    pub most: u32,
}

impl Labels {
    /// The outside alone, where no segment has entered the list. The error is that memory was refused.
    pub fn new(alloc: Global, map: &Map) -> Result<Labels, AllocError> {
        let segments = map.segments();
        let labels = vec![in alloc; 0u32; segments as usize]?;
        let mut gaps = Vec::new(alloc);
        gaps.push(Gap {
            parent: 0,
            flanks: Flanks {
                near: Side::Outside,
                far: Side::Outside,
            },
        })?;
        Ok(Labels {
            gaps,
            labels,
            most: segments * GAPS_EACH + 1,
        })
    }

    /// The label of a segment, or 0 where there is none.
    fn label(&self, s: u32) -> u32
        ensures { result ≡ slice_index self.now.labels.items s }
    {
        match self.labels.get(s as usize) {
            Some(label) => *label,
            None => 0,
        }
    }

    /// The gap before what stands behind the place.
    pub fn gap_at(&self, line: &Line) -> u32
        ensures { (n : ℕ) (chains : List MapChain) →
            AreLabelled n chains self.now.gaps.items self.now.labels.items line.now.back →
            TellGap n self.now.gaps.items result (flanks_in chains line.now.back) }
    {
        match line.next() {
            Some(s) => self.label(s),
            None => 0,
        }
    }

    /// Makes a gap on the west of a segment that stands west of another gap, and labels the segment. It answers the number of the gap,
    /// or nothing where there are gaps enough.
    fn enter(&mut self, map: &Map, s: u32, east: u32) -> Result<Option<u32>, AllocError>
        ensures kept { IfOk result (λ entered. AreKept (length map.now.polygons) self.old.gaps.items self.new.gaps.items) }
        ensures told { IfOk result (λ entered. (g : ℕ) → entered ≡ Some g → (flanks : List TheFlanks) →
            TellGap (length map.now.polygons) self.old.gaps.items east flanks →
            TellGap (length map.now.polygons) self.new.gaps.items g (flanks_at (raised map.now.chains) s ∷ flanks)) }
        ensures label { IfOk result (λ entered. (g : ℕ) → entered ≡ Some g → slice_index self.new.labels.items s ≡ g) }
        ensures others { (t : ℕ) → t ≢ s → slice_index self.new.labels.items t ≡ slice_index self.old.labels.items t }
    {
        let gap = self.gaps.len();
        if gap >= self.most as usize || east as usize >= gap || s as usize >= self.labels.len() {
            return Ok(None);
        }
        let Some(flanks) = find_flanks(map, s) else {
            return Ok(None);
        };
        self.gaps.push(Gap {
            parent: east,
            flanks,
        })?;
        let number = gap as u32;
        self.labels[s as usize] = number;
        Ok(Some(number))
    }

    /// Labels a segment by the label of another one, in the stead of which it stands. It answers no where there is no such segment.
    pub fn hand_on(&mut self, out: u32, s: u32) -> bool
        ensures gaps { self.new.gaps.items ≡ self.old.gaps.items }
        ensures label { IsTrue result → slice_index self.new.labels.items s ≡ slice_index self.old.labels.items out }
        ensures others { (t : ℕ) → t ≢ s → slice_index self.new.labels.items t ≡ slice_index self.old.labels.items t }
    {
        if s as usize >= self.labels.len() {
            return false;
        }
        let label = self.label(out);
        self.labels[s as usize] = label;
        true
    }

    /// Makes gaps for each of these segments and labels them, from the last one, which stands west of a gap, to the first. It answers the
    /// number of the last gap that was made.
    pub fn enter_all(
        &mut self,
        map: &Map,
        list: &[u32],
        east: u32,
    ) -> Result<Option<u32>, AllocError>
        ensures kept { IfOk result (λ entered. AreKept (length map.now.polygons) self.old.gaps.items self.new.gaps.items) }
        ensures entered { IfOk result (λ entered. (g : ℕ) → entered ≡ Some g → HasEntered (length map.now.polygons) (raised map.now.chains)
            self.old self.new list.now east g) }
    {
        let mut gap = east;
        let mut place = list.len();
        while place > 0 {
            place -= 1;
            let Some(entered) = self.enter(map, list[place], gap)? else {
                return Ok(None);
            };
            gap = entered;
        }
        Ok(Some(gap))
    }
}
