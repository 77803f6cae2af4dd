//! The list of numbers, in blocks and parted at its place.
ghost use Rattle.std.specs.Prelude.{◌≡◌, ◌≤◌, IfOk, IfErr, length, take, drop};

use crate::blocks::block::{
    close, first_number, join, keep_place, last_number, lift, list_numbers, take_first,
};
use crate::blocks::search::find_first;
use std::alloc::{AllocError, Global};
use std::marker::Model;
use std::mem;

/// How many numbers a block holds at most.
const MOST: usize = 512;

/// A list of so many blocks is long: it is more than the processor's nearest memory holds, with all that is read of its segments.
const LONG: usize = 8;

/// How far before the place where a number is expected it is looked for first.
const REACH: usize = 32;

/// The numbers of segments from west to east, and a place among them. They stand in blocks, so that what is put in and what
/// is taken off moves few of them. The block of a place is found by the blocks' first numbers, and to open it moves none.
#[derive(Drop)]
pub struct Line {
    alloc: Global,
    /// The blocks from west to east. What stands in the place of the open one doesn't count, nor has it a place where there
    /// has been no other.
    blocks: Vec<Vec<u32>>,
    /// The number of the open block, the one that the place is in.
    opened: usize,
    /// The numbers of the open block.
    items: Vec<u32>,
    /// The place in the open block.
    place: usize,
}

impl Model for Line {
    ghost use Rattle.std.specs.Prelude.{◌≤◌, ◌+◌, ◌++◌, length, take, drop};
    ghost use Rattle.tl_check_active.specs.Blocks.Lined.{TheLine};
    ghost use Rattle.tl_check_active.specs.Blocks.Keeping.Blocks.{numbers_of, AreSome};

    ghost Value = { TheLine };

    ghost view = { λ l. record {
      front = numbers_of (take l.opened l.blocks.items) ++ take l.place l.items.items;
      back = drop l.place l.items.items ++ numbers_of (drop (l.opened + 1) l.blocks.items);
    } };

    ghost invariant = { λ l. (l.place ≤ length l.items.items) × (l.opened ≤ length l.blocks.items) ×
        AreSome (take l.opened l.blocks.items) × AreSome (drop (l.opened + 1) l.blocks.items) };
}

/// Takes the numbers from a place on off a block.
fn take_behind(alloc: Global, items: &mut Vec<u32>, half: usize) -> Result<Vec<u32>, AllocError>
    requires { half ≤ length items.old.items }
    ensures kept { IfOk result (λ behind. items.new.items ≡ take half items.old.items) }
    ensures behind { IfOk result (λ behind. behind.items ≡ drop half items.old.items) }
    ensures stays { IfErr result (λ error. items.new.items ≡ items.old.items) }
{
    let mut behind = Vec::with_capacity(alloc, MOST)?;
    behind.extend_from_slice(&items[half..])?;
    items.truncate(half);
    Ok(behind)
}

impl Line {
    ghost use Rattle.std.specs.Prelude.{◌≡◌, ◌++◌, ◌∷◌, ◌≤◌, [], drop, take, length, slice_get, IfOk};
    ghost use Rattle.tl_check_active.specs.Blocks.Lined.{list_of, last_of};

    /// An empty list.
    pub fn new(alloc: Global) -> Line
        ensures { list_of result ≡ [] }
    {
        Line {
            alloc,
            blocks: Vec::new(alloc),
            opened: 0,
            items: Vec::new(alloc),
            place: 0,
        }
    }

    /// These numbers, parted at a place, in one block.
    pub fn parted(alloc: Global, numbers: Vec<u32>, place: usize) -> Line
        requires within { place ≤ length numbers.items }
        ensures front { result.front ≡ take place numbers.items }
        ensures back { result.back ≡ drop place numbers.items }
    {
        Line {
            alloc,
            blocks: Vec::new(alloc),
            opened: 0,
            items: numbers,
            place,
        }
    }

    /// How many blocks there are. The open one isn't counted where there has been no other.
    pub(crate) fn blocks(&self) -> usize {
        self.blocks.len()
    }

    /// Whether there are so many blocks that places are sought many at a time.
    #[inline]
    pub fn is_long(&self) -> bool {
        self.blocks.len() >= LONG
    }

    /// The number of the open block.
    pub(crate) fn opened(&self) -> usize {
        self.opened
    }

    /// The first number of a block that isn't open.
    pub(crate) fn first(&self, block: usize) -> Option<u32> {
        self.blocks.get(block)?.first().copied()
    }

    /// The first number of a block, be it open or not.
    pub(crate) fn begin(&self, block: usize) -> Option<u32> {
        if block == self.opened {
            self.at(0)
        } else {
            self.first(block)
        }
    }

    /// How many numbers the open block holds.
    pub(crate) fn len(&self) -> usize {
        self.items.len()
    }

    /// The number at a place in the open block, if there is one.
    pub(crate) fn at(&self, place: usize) -> Option<u32> {
        self.items.get(place).copied()
    }

    /// The place in the open block.
    pub(crate) fn place(&self) -> usize {
        self.place
    }

    /// The place of a number in the open block, if it stands there. It is looked for from a little before this place on, and then
    /// before that.
    pub(crate) fn find(&self, s: u32, near: usize) -> Option<usize> {
        let from = near.saturating_sub(REACH).min(self.items.len());
        let (before, behind) = self.items.split_at(from);
        match find_first(behind, s) {
            Some(place) => Some(from.wrapping_add(place)),
            None => find_first(before, s),
        }
    }

    /// Goes to a place in the open block, or to its end.
    pub(crate) fn seek(&mut self, place: usize)
        ensures { list_of self.new ≡ list_of self.old }
    {
        if place < self.items.len() {
            self.place = place;
        } else {
            self.place = self.items.len();
        }
    }

    /// Joins the next block to the open one, if both are small.
    fn join_next(&mut self) -> Result<(), AllocError>
        ensures { IfOk result (λ done. list_of self.new ≡ list_of self.old) }
    {
        join(&mut self.blocks, &mut self.items, self.opened + 1)
    }

    /// Opens a block, if there is one by this number.
    pub(crate) fn open_block(&mut self, block: usize) -> Result<(), AllocError>
        ensures { IfOk result (λ done. list_of self.new ≡ list_of self.old) }
    {
        let last = self.opened;
        keep_place(self.alloc, &mut self.blocks, last)?;
        if block == last || block >= self.blocks.len() {
            return Ok(());
        }
        self.place = 0;
        let gone = close(&mut self.blocks, &mut self.items, last);
        self.opened = if gone && last < block {
            block - 1
        } else {
            block
        };
        lift(&mut self.blocks, &mut self.items, self.opened);
        self.join_next()
    }

    /// The first number behind the place.
    pub fn next(&self) -> Option<u32>
        ensures { result ≡ slice_get self.now.back 0 }
    {
        if self.place < self.items.len() {
            Some(self.items[self.place])
        } else {
            first_number(&self.blocks, self.opened + 1)
        }
    }

    /// The last number before the place.
    pub fn previous(&self) -> Option<u32>
        ensures { result ≡ last_of self.now.front }
    {
        if self.place > 0 {
            Some(self.items[self.place - 1])
        } else {
            last_number(&self.blocks[..self.opened])
        }
    }

    /// Goes before the last number before the place, if there is one. The error is that memory was refused.
    pub fn go_back(&mut self) -> Result<(), AllocError>
        ensures { IfOk result (λ done. list_of self.new ≡ list_of self.old) }
    {
        if self.place > 0 {
            let before = self.place - 1;
            self.seek(before);
            return Ok(());
        }
        let Some(s) = self.previous() else {
            return Ok(());
        };
        let block = self.opened.saturating_sub(1);
        self.open_block(block)?;
        let end = self.items.len();
        let place = self.find(s, end).unwrap_or(end);
        self.seek(place);
        Ok(())
    }

    /// Lists the numbers before the place, from west to east, in the place of those that were listed. The error is that memory was
    /// refused.
    pub fn list_front(&self, numbers: &mut Vec<u32>) -> Result<(), AllocError>
        ensures { IfOk result (λ done. numbers.new.items ≡ self.now.front) }
    {
        list_numbers(&self.blocks[..self.opened], numbers)?;
        numbers.extend_from_slice(&self.items[..self.place])
    }

    /// Takes off the first number behind the place, if there is one.
    pub fn take(&mut self)
        ensures front { self.new.front ≡ self.old.front }
        ensures back { self.new.back ≡ drop 1 self.old.back }
    {
        if self.place < self.items.len() {
            self.items.remove(self.place);
        } else {
            take_first(&mut self.blocks, self.opened + 1);
        }
    }

    /// Parts the open block in two, if it is full.
    fn part(&mut self) -> Result<(), AllocError>
        ensures front { IfOk result (λ done. self.new.front ≡ self.old.front) }
        ensures back { IfOk result (λ done. self.new.back ≡ self.old.back) }
    {
        if self.items.len() < MOST {
            return Ok(());
        }
        keep_place(self.alloc, &mut self.blocks, self.opened)?;
        let half = self.items.len() / 2;
        let behind = take_behind(self.alloc, &mut self.items, half)?;
        if self.place <= half {
            self.blocks.insert(self.opened + 1, behind)?;
            return Ok(());
        }
        self.place -= half;
        let before = mem::replace(&mut self.items, behind);
        self.blocks.insert(self.opened, before)?;
        self.opened += 1;
        Ok(())
    }

    /// Puts a number in at the place in the open block, and goes behind it.
    fn put_open(&mut self, s: u32) -> Result<(), AllocError>
        ensures front { IfOk result (λ done. self.new.front ≡ self.old.front ++ s ∷ []) }
        ensures back { IfOk result (λ done. self.new.back ≡ self.old.back) }
    {
        self.items.insert(self.place, s)?;
        self.place += 1;
        Ok(())
    }

    /// Puts a number in at the place, and goes behind it.
    pub fn put(&mut self, s: u32) -> Result<(), AllocError>
        ensures front { IfOk result (λ done. self.new.front ≡ self.old.front ++ s ∷ []) }
        ensures back { IfOk result (λ done. self.new.back ≡ self.old.back) }
    {
        self.part()?;
        self.put_open(s)
    }

    /// Puts a number in the stead of the first one behind the place, and goes behind it. Of a list without one nothing is taken.
    pub fn change(&mut self, s: u32) -> Result<(), AllocError>
        ensures front { IfOk result (λ done. self.new.front ≡ self.old.front ++ s ∷ []) }
        ensures back { IfOk result (λ done. self.new.back ≡ drop 1 self.old.back) }
    {
        if self.place < self.items.len() {
            self.items[self.place] = s;
            self.place += 1;
            return Ok(());
        }
        self.take();
        self.put(s)
    }
}
