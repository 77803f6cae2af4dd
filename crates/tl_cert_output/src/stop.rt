//! Why nothing is decided, made or printed.

ghost use Rattle.std.specs.Prelude.{◌≡◌};
ghost use Rattle.tl_cert_output.specs.declared.stop.Stop.TheVariants.{Memory as MemoryStop, Device as DeviceStop};
ghost use Rattle.tl_cert_output.specs.Stops.{stop_of};

use std::alloc::{AllocError, AllocFailed};
use std::{fmt, io};
use thiserror::Error;
use tl_record::{Cause, ReadStop, Refusal};
use tl_tree_index::Memory;

/// Why nothing is decided, made or printed. Its message is the line that the program prints; it isn't the derive's, which no
/// contract could state.
#[derive(Clone, Copy, PartialEq, Eq, Error)]
pub enum Stop {
    /// This line of the records, counted from 1, is the first that is refused.
    Record { line: u64, cause: Cause },
    /// Memory was refused.
    Memory,
    /// A read or a write failed, or a file can't be opened or made.
    Device,
    /// More pairs of segments than the budget have rectangles that meet, and as many of these as the budget don't conflict.
    Budget,
}

impl fmt::Display for Stop {
    ghost use Rattle.std.specs.Prelude.{Some};
    ghost use Rattle.tl_cert_output.specs.Stops.{stop_text};

    ghost output = { λ stop. Some (stop_text stop) };

    fn fmt<W: fmt::Write>(&self, f: &mut fmt::Formatter<W>) -> fmt::Result {
        match self {
            Stop::Record { line, cause } => {
                let refusal = Refusal {
                    line: *line,
                    cause: *cause,
                };
                refusal.fmt(f)
            }
            Stop::Memory => f.write_str("stopped Memory"),
            Stop::Device => f.write_str("stopped Device"),
            Stop::Budget => f.write_str("stopped Budget"),
        }
    }
}

/// As it is printed.
impl fmt::Debug for Stop {
    fn fmt<W: fmt::Write>(&self, f: &mut fmt::Formatter<W>) -> fmt::Result {
        fmt::Display::fmt(self, f)
    }
}

impl From<AllocError> for Stop {
    ghost from_gives = { λ _ stop. stop ≡ MemoryStop };

    fn from(_error: AllocError) -> Stop {
        Stop::Memory
    }
}

impl<T: Drop> From<AllocFailed<T>> for Stop {
    ghost from_gives = { λ _ stop. stop ≡ MemoryStop };

    fn from(_error: AllocFailed<T>) -> Stop {
        Stop::Memory
    }
}

impl From<Memory> for Stop {
    ghost from_gives = { λ _ stop. stop ≡ MemoryStop };

    fn from(_error: Memory) -> Stop {
        Stop::Memory
    }
}

/// A write failed, or a read did.
impl From<io::Error> for Stop {
    ghost from_gives = { λ _ stop. stop ≡ DeviceStop };

    fn from(_error: io::Error) -> Stop {
        Stop::Device
    }
}

impl From<ReadStop> for Stop {
    ghost from_gives = { λ read stop. stop ≡ stop_of read };

    fn from(stop: ReadStop) -> Stop {
        match stop {
            ReadStop::Refused { line, cause } => Stop::Record { line, cause },
            ReadStop::Device => Stop::Device,
        }
    }
}
