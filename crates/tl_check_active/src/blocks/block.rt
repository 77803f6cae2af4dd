//! Blocks of numbers from west to east, of which one is open. Its numbers are kept apart from the others, and what stands
//! in its place among the blocks doesn't count. None of the others is empty, and small ones are joined.
ghost use Rattle.std.specs.Prelude.{◌≡◌, ◌++◌, ◌+◌, ◌<◌, ◌≤◌, length, slice_get, take, drop, IfOk, IsTrue, IsFalse};
ghost use Rattle.tl_check_active.specs.Blocks.Keeping.Blocks.{numbers_of, AreSome};
ghost use Rattle.tl_check_active.specs.Blocks.Lined.{last_of};

use std::alloc::{AllocError, Global};
use std::mem;

/// How many numbers two blocks have at most that are joined to one.
const JOINED: usize = 256;

/// The last number of blocks.
pub fn last_number(blocks: &[Vec<u32>]) -> Option<u32>
    requires { AreSome blocks.now }
    ensures { result ≡ last_of (numbers_of blocks.now) }
{
    match blocks.last() {
        Some(block) => block.last().copied(),
        None => None,
    }
}

/// The first number of the blocks from one on.
pub fn first_number(blocks: &[Vec<u32>], next: usize) -> Option<u32>
    requires { AreSome (drop next blocks.now) }
    ensures { result ≡ slice_get (numbers_of (drop next blocks.now)) 0 }
{
    match blocks.get(next) {
        Some(block) => block.first().copied(),
        None => None,
    }
}

/// Lists the numbers of blocks, in the place of those that were listed.
pub fn list_numbers(blocks: &[Vec<u32>], numbers: &mut Vec<u32>) -> Result<(), AllocError>
    ensures { IfOk result (λ done. numbers.new.items ≡ numbers_of blocks.now) }
{
    numbers.clear();
    for block in blocks {
        numbers.extend_from_slice(block)?;
    }
    Ok(())
}

/// Takes off the first number of the blocks from one on, if there is one.
pub fn take_first(blocks: &mut Vec<Vec<u32>>, next: usize)
    requires some { AreSome (drop next blocks.old.items) }
    ensures some { AreSome (drop next blocks.new.items) }
    ensures before { take next blocks.new.items ≡ take next blocks.old.items }
    ensures numbers { numbers_of (drop next blocks.new.items) ≡ drop 1 (numbers_of (drop next blocks.old.items)) }
{
    if next >= blocks.len() {
        return;
    }
    if blocks[next].len() > 1 {
        blocks[next].remove(0);
    } else {
        blocks.remove(next);
    }
}

/// Keeps a place for the open block among the others, where it has none. That is so while it is the only one.
pub fn keep_place(alloc: Global, blocks: &mut Vec<Vec<u32>>, place: usize) -> Result<(), AllocError>
    requires { place ≤ length blocks.old.items }
    ensures within { IfOk result (λ done. place < length blocks.new.items) }
    ensures most { place ≤ length blocks.new.items }
    ensures before { take place blocks.new.items ≡ take place blocks.old.items }
    ensures behind { drop (place + 1) blocks.new.items ≡ drop (place + 1) blocks.old.items }
{
    if blocks.len() <= place {
        blocks.push(Vec::new(alloc))?;
    }
    Ok(())
}

/// Closes the open block: its numbers get their place among the others or, where there are none, this place goes. Tells
/// whether it is gone.
pub fn close(blocks: &mut Vec<Vec<u32>>, items: &mut Vec<u32>, place: usize) -> bool
    requires within { place < length blocks.old.items }
    requires before { AreSome (take place blocks.old.items) }
    requires behind { AreSome (drop (place + 1) blocks.old.items) }
    ensures some { AreSome blocks.new.items }
    ensures numbers { numbers_of blocks.new.items ≡ numbers_of (take place blocks.old.items) ++
        (items.old.items ++ numbers_of (drop (place + 1) blocks.old.items)) }
    ensures gone { IsTrue result → length blocks.new.items + 1 ≡ length blocks.old.items }
    ensures stays { IsFalse result → length blocks.new.items ≡ length blocks.old.items }
{
    if items.is_empty() {
        blocks.remove(place);
        return true;
    }
    mem::swap(items, &mut blocks[place]);
    false
}

/// Opens the block in this place, where all are closed.
pub fn lift(blocks: &mut Vec<Vec<u32>>, items: &mut Vec<u32>, place: usize)
    requires within { place < length blocks.old.items }
    requires some { AreSome blocks.old.items }
    ensures within { place < length blocks.new.items }
    ensures before { AreSome (take place blocks.new.items) }
    ensures behind { AreSome (drop (place + 1) blocks.new.items) }
    ensures numbers { numbers_of (take place blocks.new.items) ++
        (items.new.items ++ numbers_of (drop (place + 1) blocks.new.items)) ≡ numbers_of blocks.old.items }
{
    mem::swap(items, &mut blocks[place]);
}

/// Whether a block is to be joined to the open one.
fn are_small(blocks: &[Vec<u32>], items: &[u32], next: usize) -> bool
    ensures { IsTrue result → next < length blocks.now }
{
    match blocks.get(next) {
        Some(block) => block.len() < JOINED && items.len() < JOINED - block.len(),
        None => false,
    }
}

/// Joins the block behind the open one to it, if both are small.
pub fn join(blocks: &mut Vec<Vec<u32>>, items: &mut Vec<u32>, next: usize) -> Result<(), AllocError>
    requires some { AreSome (drop next blocks.old.items) }
    ensures some { AreSome (drop next blocks.new.items) }
    ensures before { take next blocks.new.items ≡ take next blocks.old.items }
    ensures longer { length items.old.items ≤ length items.new.items }
    ensures numbers { IfOk result (λ done. items.new.items ++ numbers_of (drop next blocks.new.items) ≡
        items.old.items ++ numbers_of (drop next blocks.old.items)) }
{
    if are_small(blocks, items, next) {
        let block = blocks.remove(next);
        items.extend_from_slice(&block)?;
    }
    Ok(())
}
