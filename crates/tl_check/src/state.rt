//! What the checker keeps of a certificate's parts.

ghost use Rattle.std.specs.Prelude.{◌≡◌};
ghost use Rattle.tl_check.specs.declared.state.Halt.TheVariants.{Memory as MemoryHalt};

use crate::search::LeftOpen;
use tl_check_sides::{RoundFault, Rounds, Walks};
use tl_check_verdict::{CertFault, MapFault};
use tl_tree_index::Memory;

/// What was found of the rounds and walks so far, behind counts that are the map's and a tree.
#[derive(Drop)]
pub enum State {
    /// The tree fits, the chains are planar but this is left open, and the rounds have no fault so far.
    Rounding(Rounds, LeftOpen),
    /// The rounds are the map's, sides agree, and the walks have no fault so far.
    Walking(Walks, LeftOpen),
    /// The rounds have ended, and have this fault.
    Unrounded(RoundFault),
    /// Each certificate that begins so has this fault.
    Wrong(CertFault),
}

/// Why no further part is looked at.
#[derive(Clone, Copy)]
pub enum Halt {
    /// The map has this fault.
    Fault(MapFault),
    /// Memory was refused.
    Memory,
    /// More pairs of segments than the budget have rectangles that meet, and as many of these as the budget don't conflict.
    Budget,
}

impl From<Memory> for Halt {
    ghost from_gives = { λ _ halt. halt ≡ MemoryHalt };

    fn from(_error: Memory) -> Halt {
        Halt::Memory
    }
}
