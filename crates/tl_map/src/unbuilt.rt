//! Why nothing is built of records.

ghost use Rattle.std.specs.Prelude.{◌≡◌};
ghost use Rattle.tl_map.specs.declared.unbuilt.Unbuilt.TheVariants.{Memory};

use std::alloc::{AllocError, AllocFailed};

/// Why nothing is built of records. Which faults they have their list says alone.
#[derive(Clone, Copy)]
pub enum Unbuilt {
    /// Memory was refused.
    Memory,
    /// The records have some fault.
    Faulty,
}

impl From<AllocError> for Unbuilt {
    ghost from_gives = { λ _ why. why ≡ Memory };

    fn from(_error: AllocError) -> Unbuilt {
        Unbuilt::Memory
    }
}

impl<T: Drop> From<AllocFailed<T>> for Unbuilt {
    ghost from_gives = { λ _ why. why ≡ Memory };

    fn from(_error: AllocFailed<T>) -> Unbuilt {
        Unbuilt::Memory
    }
}
