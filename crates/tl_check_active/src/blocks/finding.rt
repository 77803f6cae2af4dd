//! Places in the list.
ghost use Rattle.std.specs.Prelude.{◌≡◌, IfOk};
ghost use Rattle.tl_check_active.specs.Blocks.Lined.{list_of};

use crate::blocks::line::Line;
use crate::blocks::places::Places;
use std::alloc::AllocError;

/// How many steps are taken at most from the open block on, each eight times as long as the one before.
const STEPS: u32 = 10;

/// What is sought in a list. Nothing rests on what it says.
pub trait Seeks {
    /// Whether it lies strictly east of a number, so that its place is behind that.
    fn is_east_of(&self, number: u32) -> bool;
}

/// Whether what is sought lies strictly east of a number, if there is one.
fn is_east<S: Seeks>(sought: &S, number: Option<u32>) -> bool {
    match number {
        Some(number) => sought.is_east_of(number),
        None => false,
    }
}

/// The first of these blocks that doesn't begin west of what is sought, or the number behind them all. The open one isn't
/// among them.
fn search<S: Seeks>(sought: &S, line: &Line, from: usize, to: usize) -> usize {
    let mut low = from;
    let mut high = to;
    while low < high {
        let middle = low + (high - low) / 2;
        if is_east(sought, line.first(middle)) {
            low = middle + 1;
        } else {
            high = middle;
        }
    }
    low
}

/// The first block east of the open one that doesn't begin west of what is sought. The next block is asked, the eighth, and so
/// on by steps that grow, so that a place nearby is found by few looks.
fn begin_east<S: Seeks>(sought: &S, line: &Line) -> usize {
    let open = line.opened();
    let mut low = open.saturating_add(1);
    for power in 0..STEPS {
        let there = open.saturating_add(1 << (3 * power));
        if !is_east(sought, line.first(there)) {
            return search(sought, line, low, there.min(line.blocks()));
        }
        low = there.saturating_add(1);
    }
    low
}

/// The first block west of the open one that doesn't begin west of what is sought, or else the open one. Blocks are asked by
/// the same steps.
fn begin_west<S: Seeks>(sought: &S, line: &Line) -> usize {
    let open = line.opened();
    let mut high = open;
    for power in 0..STEPS {
        let Some(there) = open.checked_sub(1 << (3 * power)) else {
            break;
        };
        if is_east(sought, line.first(there)) {
            return search(sought, line, there + 1, high);
        }
        high = there;
    }
    search(sought, line, 0, high)
}

/// Opens the last block that begins west of what is sought, or the first one.
fn open<S: Seeks>(line: &mut Line, sought: &S) -> Result<(), AllocError>
    ensures { IfOk result (λ done. list_of line.new ≡ list_of line.old) }
{
    if line.blocks() < 2 {
        return Ok(());
    }
    // Where all that was in the open block has left it, what comes next is in the next block to the east.
    let first = if line.len() > 0 {
        line.at(0)
    } else {
        line.next()
    };
    let behind = if is_east(sought, first) {
        begin_east(sought, line)
    } else {
        begin_west(sought, line)
    };
    line.open_block(behind.saturating_sub(1))
}

/// The place in the open block of the first number that what is sought isn't east of.
fn find<S: Seeks>(sought: &S, line: &Line) -> usize {
    let mut low = 0;
    let mut high = line.len();
    while low < high {
        let middle = low + (high - low) / 2;
        if is_east(sought, line.at(middle)) {
            low = middle + 1;
        } else {
            high = middle;
        }
    }
    low
}

/// Goes to the place of what is sought: before the first number that it isn't east of, as it is found in a list that is in order. The
/// error is that memory was refused.
pub fn go_to<S: Seeks>(line: &mut Line, sought: &S) -> Result<(), AllocError>
    ensures { IfOk result (λ done. list_of line.new ≡ list_of line.old) }
{
    open(line, sought)?;
    line.seek(find(sought, line));
    Ok(())
}

/// The place in the open block of the first of these numbers or, if there is none or it isn't there, of the first number that what
/// is sought isn't east of.
fn find_place<S: Seeks>(sought: &S, line: &Line, places: &Places, numbers: &[u32]) -> usize {
    match places.find(line, numbers) {
        Some(place) => place,
        None => find(sought, line),
    }
}

/// Goes before the first of these numbers, if it stands in the block where it was seen ahead. Tells whether it does.
#[inline(never)]
fn go_ahead(line: &mut Line, places: &Places, numbers: &[u32]) -> Result<bool, AllocError>
    ensures { IfOk result (λ done. list_of line.new ≡ list_of line.old) }
{
    let Some(seen) = places.seen(numbers) else {
        return Ok(false);
    };
    line.open_block(seen.block)?;
    let Some(place) = line.find(seen.segment, seen.place) else {
        return Ok(false);
    };
    line.seek(place);
    Ok(true)
}

/// Goes to the place of what is sought, at which these numbers may stand: before the first of these or, if there is none or it isn't
/// found, as [`go_to`] does. The error is that memory was refused.
#[inline(always)]
pub fn go_to_first<S: Seeks>(
    line: &mut Line,
    sought: &S,
    places: &Places,
    numbers: &[u32],
) -> Result<(), AllocError>
    ensures { IfOk result (λ done. list_of line.new ≡ list_of line.old) }
{
    if line.is_long() && go_ahead(line, places, numbers)? {
        return Ok(());
    }
    open(line, sought)?;
    line.seek(find_place(sought, line, places, numbers));
    Ok(())
}
