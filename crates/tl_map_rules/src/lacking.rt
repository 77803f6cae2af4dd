//! Which types of records there are none of.

use crate::fault::RecordFault;
use crate::rows::{FaultRow, lacking_row};
use std::fmt;

/// M14: of which of the types 1, I and P there is no record, where some of each is asked for.
#[derive(Clone, Copy, PartialEq, Eq)]
pub struct Lacking {
    /// There is no type 1 record, and so no chain.
    pub chains: bool,
    /// There is no type I record.
    pub sides: bool,
    /// There is no type P record, and so no polygon.
    pub polygons: bool,
}

/// There is a record of each type, or none is asked for.
pub const NOTHING_LACKING: Lacking = Lacking {
    chains: false,
    sides: false,
    polygons: false,
};

impl Lacking {
    ghost use Rattle.std.specs.Prelude.{◌≡◌, ◌≤◌, length};
    ghost use Rattle.tl_map_rules.specs.Lacking.{lacks, explains};
    ghost use Rattle.tl_map_rules.specs.Messages.{types_text};

    /// Whether there is none of some type.
    pub fn is_some(&self) -> bool
        ensures { result ≡ lacks self.now }
    {
        self.chains || self.sides || self.polygons
    }

    /// Whether a fault hangs on it: the record that it misses is of a type of which there is none.
    pub fn explains(&self, fault: &RecordFault) -> bool
        ensures { result ≡ explains self.now fault.now }
    {
        match fault {
            RecordFault::ShapeWithoutChain { .. } | RecordFault::SidesWithoutChain { .. } => {
                self.chains
            }
            RecordFault::ChainWithoutSides { .. } => self.sides,
            RecordFault::SideWithoutPolygon { .. } | RecordFault::LinkWithoutPolygon { .. } => {
                self.polygons
            }
            RecordFault::DuplicateChain { .. }
            | RecordFault::ShapeSequence { .. }
            | RecordFault::ShapeGap { .. }
            | RecordFault::DuplicateSides { .. }
            | RecordFault::DuplicatePolygon { .. }
            | RecordFault::LinkWithoutLandmark { .. }
            | RecordFault::DegenerateChain { .. }
            | RecordFault::TooMany(_) => false,
        }
    }

    /// The types, as they are printed: a space before each.
    pub fn types(&self) -> &'static str
        ensures types { result.now ≡ types_text self.now }
        ensures short { length result.now ≤ 6 }
    {
        match (self.chains, self.sides, self.polygons) {
            (true, true, true) => " 1 I P",
            (true, true, false) => " 1 I",
            (true, false, true) => " 1 P",
            (true, false, false) => " 1",
            (false, true, true) => " I P",
            (false, true, false) => " I",
            (false, false, true) => " P",
            (false, false, false) => "",
        }
    }
}

impl fmt::Display for Lacking {
    ghost use Rattle.std.specs.Prelude.{Some};
    ghost use Rattle.tl_map_rules.specs.Messages.{lacking_text};

    ghost output = { λ lacking. Some (lacking_text lacking) };

    fn fmt<W: fmt::Write>(&self, f: &mut fmt::Formatter<W>) -> fmt::Result {
        let FaultRow { code, name, about } = lacking_row(*self);
        write!(f, "map fault {code} {name}{about}")
    }
}

/// As it is printed.
impl fmt::Debug for Lacking {
    fn fmt<W: fmt::Write>(&self, f: &mut fmt::Formatter<W>) -> fmt::Result {
        fmt::Display::fmt(self, f)
    }
}
