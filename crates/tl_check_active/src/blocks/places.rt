//! Where segments entered the list, by which they are found again.

use crate::blocks::ahead::{AHEAD, SeeksMany, find_blocks};
use crate::blocks::line::Line;
use crate::blocks::search::find_first;
use std::alloc::{AllocError, Global};

/// A segment that leaves the list next, with its block and the place where it entered that.
#[derive(Clone, Copy)]
pub(crate) struct Seen {
    pub segment: u32,
    pub block: usize,
    pub place: usize,
}

/// So often another block has to have been opened for the last vertices, as many as are looked at together, if it pays to look ahead.
const FAR: u32 = 8;

/// Of each segment the place in a block of the list where it entered. What comes and goes moves it, mostly by less than twenty
/// places. Of those that leave the list next the blocks are kept too. Nothing rests on any of it.
#[derive(Drop)]
pub struct Places {
    places: Vec<u16>,
    /// The segments that leave the list next.
    outs: [u32; AHEAD],
    /// The block of each of these.
    blocks: [usize; AHEAD],
    /// The place in its block where each of these entered.
    entered: [u16; AHEAD],
    /// Up to where it was looked ahead.
    end: usize,
    /// How often another block was opened since then.
    opened: u32,
    /// The block that was open last.
    last: usize,
}

impl Places {
    /// Places of so many segments, none of which has entered yet. The error is that memory was refused.
    pub fn new(alloc: Global, segments: usize) -> Result<Places, AllocError> {
        Ok(Places {
            places: vec![in alloc; 0u16; segments]?,
            outs: [u32::MAX; AHEAD],
            blocks: [0; AHEAD],
            entered: [0; AHEAD],
            end: 0,
            opened: 0,
            last: 0,
        })
    }

    /// Whether it was looked ahead to here.
    #[inline]
    pub fn are_ahead(&self, here: usize) -> bool {
        here < self.end
    }

    /// Whether the last places were so far from one another that it pays to look ahead. Else it isn't looked ahead up to here.
    pub fn goes_far(&mut self, end: usize) -> bool {
        let is_far = self.opened >= FAR;
        self.end = end;
        self.opened = 0;
        self.outs = [u32::MAX; AHEAD];
        is_far
    }

    /// Keeps of the segments that leave the list next where they entered and their blocks, each found as that of what is sought by the
    /// same number.
    pub fn look_ahead<S: SeeksMany>(&mut self, sought: &S, line: &Line, outs: &[u32; AHEAD]) {
        self.outs = *outs;
        for one in 0..AHEAD {
            self.entered[one] = self.place(outs[one]);
        }
        self.blocks = [0; AHEAD];
        find_blocks(sought, line, &mut self.blocks);
    }

    /// The place in its block where a segment entered.
    #[inline]
    fn place(&self, s: u32) -> u16 {
        match self.places.get(s as usize) {
            Some(place) => *place,
            None => 0,
        }
    }

    /// The first of these segments, if it was seen ahead.
    pub(crate) fn seen(&self, outs: &[u32]) -> Option<Seen> {
        let segment = outs.first().copied()?;
        let one = find_first(&self.outs, segment)?;
        let block = self.blocks.get(one).copied()?;
        let place = usize::from(self.entered.get(one).copied()?);
        Some(Seen {
            segment,
            block,
            place,
        })
    }

    /// The place of the first of these segments in the open block, if it stands there. It is looked for first about the place where
    /// it entered.
    pub(crate) fn find(&self, line: &Line, outs: &[u32]) -> Option<usize> {
        let s = outs.first().copied()?;
        let near = usize::from(self.places.get(s as usize).copied()?);
        line.find(s, near)
    }

    /// Keeps the places of the segments that entered last, and whether another block was opened for them.
    pub fn keep(&mut self, line: &Line, ins: &[u32]) {
        if line.opened() != self.last {
            self.last = line.opened();
            self.opened = self.opened.saturating_add(1);
        }
        let mut place = line.place().saturating_sub(ins.len());
        for s in ins {
            if let Some(kept) = self.places.get_mut(*s as usize) {
                *kept = u16::try_from(place).unwrap_or(u16::MAX);
            }
            place = place.wrapping_add(1);
        }
    }
}
