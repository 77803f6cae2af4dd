//! What is sought next in a list, many at a time.

use crate::blocks::line::Line;

/// How many are sought at a time.
pub const AHEAD: usize = 16;

/// What is sought next in a list, by numbers from 0. Nothing rests on what it says.
pub trait SeeksMany {
    /// Whether one of them lies strictly east of a number, so that its place is behind that.
    fn is_east_of(&self, one: usize, number: u32) -> bool;
}

/// Whether one of them lies strictly east of a number, if there is one.
#[inline]
fn is_east<S: SeeksMany>(sought: &S, one: usize, number: Option<u32>) -> bool {
    match number {
        Some(number) => sought.is_east_of(one, number),
        None => false,
    }
}

/// For each of them the last block that begins west of it, or the first one, where all stand at the first one. They are sought
/// together, so that the processor waits for what it reads of many at a time.
pub fn find_blocks<S: SeeksMany>(sought: &S, line: &Line, blocks: &mut [usize; AHEAD]) {
    let mut length = line.blocks();
    while length > 1 {
        let half = length / 2;
        go_east(sought, line, half, blocks);
        length -= half;
    }
}

/// Goes so many blocks to the east with each of them that lies east of where the block there begins.
fn go_east<S: SeeksMany>(sought: &S, line: &Line, half: usize, blocks: &mut [usize; AHEAD]) {
    for one in 0..AHEAD {
        let here = blocks[one];
        let there = here.wrapping_add(half);
        // A choice of two numbers, which the processor needn't guess.
        let is_there = is_east(sought, one, line.begin(there));
        blocks[one] = if is_there { there } else { here };
    }
}
