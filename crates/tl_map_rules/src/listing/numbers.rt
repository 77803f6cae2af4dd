//! Faults that sorted lists of numbers tell.

ghost use Rattle.std.specs.Prelude.{◌≡◌, OnOk, length};
ghost use Rattle.std.specs.List.Sorted.{IsNonDecreasing, IsPermutation};
ghost use Rattle.tl_map_rules.specs.Listing.Keeping.Told.{Tells};
ghost use Rattle.tl_map_rules.specs.Listing.Keeping.Numbers.{fault_of, StandsNext, IsMissing};

use crate::RecordFault;
use std::alloc::AllocError;
use tl_map_county::first_not_below;

/// The faults that have one number and no more.
#[derive(Clone, Copy)]
pub enum Numbered {
    DuplicateChain,
    ShapeWithoutChain,
    ChainWithoutSides,
    SidesWithoutChain,
    DuplicateSides,
    LinkWithoutLandmark,
}

/// The fault of this number.
fn fault_with(what: Numbered, number: u64) -> RecordFault
    ensures { result ≡ fault_of what number }
{
    match what {
        Numbered::DuplicateChain => RecordFault::DuplicateChain { tlid: number },
        Numbered::ShapeWithoutChain => RecordFault::ShapeWithoutChain { tlid: number },
        Numbered::ChainWithoutSides => RecordFault::ChainWithoutSides { tlid: number },
        Numbered::SidesWithoutChain => RecordFault::SidesWithoutChain { tlid: number },
        Numbered::DuplicateSides => RecordFault::DuplicateSides { tlid: number },
        Numbered::LinkWithoutLandmark => RecordFault::LinkWithoutLandmark { land: number },
    }
}

/// Sorts numbers.
pub fn sort_numbers(numbers: &mut Vec<u64>)
    ensures ordered { IsNonDecreasing numbers.new.items }
    ensures moved { IsPermutation numbers.old.items numbers.new.items }
{
    numbers.sort_unstable();
}

/// Tells the fault of each number that stands next to itself.
pub fn push_repeats(
    faults: &mut Vec<RecordFault>,
    what: Numbered,
    numbers: &[u64],
) -> Result<(), AllocError>
    ensures { OnOk result (Tells (StandsNext (fault_of what) numbers.now (length numbers.now))
        faults.old.items faults.new.items) }
{
    for place in 1..numbers.len() {
        let number = numbers[place];
        if numbers[place - 1] == number {
            faults.push(fault_with(what, number))?;
        }
    }
    Ok(())
}

/// Tells the fault of each number that is not known.
pub fn push_missing(
    faults: &mut Vec<RecordFault>,
    what: Numbered,
    numbers: &[u64],
    known: &[u64],
) -> Result<(), AllocError>
    requires numbers { IsNonDecreasing numbers.now }
    requires known { IsNonDecreasing known.now }
    ensures { OnOk result (Tells (IsMissing (fault_of what) (λ n. n) numbers.now known.now)
        faults.old.items faults.new.items) }
{
    let mut place = 0;
    for number in numbers {
        place = first_not_below(known, place, *number);
        if place == known.len() || known[place] != *number {
            faults.push(fault_with(what, *number))?;
        }
    }
    Ok(())
}
