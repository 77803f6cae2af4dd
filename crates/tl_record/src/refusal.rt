//! A line that is refused.

use crate::stop::Cause;
use std::fmt;

/// A line that is refused.
#[derive(Clone, Copy, PartialEq, Eq)]
pub struct Refusal {
    /// The line's number, counted from 1.
    pub line: u64,
    /// Why it is refused.
    pub cause: Cause,
}

impl fmt::Display for Refusal {
    ghost use Rattle.std.specs.Prelude.{Some};
    ghost use Rattle.tl_record.specs.Messages.{refusal_text};

    ghost output = { λ refusal. Some (refusal_text refusal.line refusal.cause) };

    fn fmt<W: fmt::Write>(&self, f: &mut fmt::Formatter<W>) -> fmt::Result {
        let Refusal { line, cause } = self;
        write!(f, "refused line {line} {cause}")
    }
}

/// As it is printed.
impl fmt::Debug for Refusal {
    fn fmt<W: fmt::Write>(&self, f: &mut fmt::Formatter<W>) -> fmt::Result {
        fmt::Display::fmt(self, f)
    }
}

/// Why a reader gives no more refusals.
#[derive(Clone, Copy, Debug, PartialEq, Eq)]
pub enum RefusalStop {
    /// A read of the source failed.
    Device,
    /// It is given up: the source gave no end within 2^64 - 1 bytes.
    Endless,
}
