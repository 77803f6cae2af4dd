//! Why the records have no map.

ghost use Rattle.std.specs.Prelude.{◌≡◌};
ghost use Rattle.tl_map_rules.specs.declared.fault.MapStop.TheVariants.{Memory};
ghost use Rattle.tl_map_rules.specs.Reading.{stop_of};

use crate::lacking::Lacking;
use crate::rows::{FaultRow, record_row};
use std::alloc::{AllocError, AllocFailed};
use std::fmt;
use tl_record::{Cause, PolyKey, ReadStop};

/// What there can be too many of.
#[derive(Clone, Copy, Debug, PartialEq, Eq)]
pub enum Limited {
    Chains,
    Segments,
    Polygons,
    Landmarks,
}

impl Limited {
    ghost use Rattle.std.specs.Prelude.{◌≡◌};
    ghost use Rattle.tl_map_rules.specs.Messages.{limited_text};

    /// The word for it.
    pub fn word(&self) -> &'static str
        ensures { result.now ≡ limited_text self.now }
    {
        match self {
            Limited::Chains => "chains",
            Limited::Segments => "segments",
            Limited::Polygons => "polygons",
            Limited::Landmarks => "landmarks",
        }
    }
}

impl fmt::Display for Limited {
    ghost use Rattle.std.specs.Prelude.{Some};
    ghost use Rattle.tl_map_rules.specs.Messages.{limited_text};

    ghost output = { λ what. Some (limited_text what) };

    fn fmt<W: fmt::Write>(&self, f: &mut fmt::Formatter<W>) -> fmt::Result {
        f.write_str(self.word())
    }
}

/// A fault of the records: no line is refused, and yet they have no map.
#[derive(Clone, Copy, PartialEq, Eq)]
pub enum RecordFault {
    /// M1: two type 1 records have the TLID.
    DuplicateChain { tlid: u64 },
    /// M2: a type 2 record has the TLID, and no type 1 record has.
    ShapeWithoutChain { tlid: u64 },
    /// M3: the RTSQ of the TLID's type 2 records are not 1 to their number, each once.
    ShapeSequence { tlid: u64 },
    /// M4: they are, and a used pair comes after an unused one.
    ShapeGap { tlid: u64 },
    /// M5: a type 1 record has the TLID, and no type I record has.
    ChainWithoutSides { tlid: u64 },
    /// M6: a type I record has the TLID, and no type 1 record has.
    SidesWithoutChain { tlid: u64 },
    /// M7: two type I records have the TLID.
    DuplicateSides { tlid: u64 },
    /// M8: two type P records have the key.
    DuplicatePolygon { polygon: PolyKey },
    /// M9: a side of a type I record with the TLID names a key that no type P record has.
    SideWithoutPolygon { tlid: u64, polygon: PolyKey },
    /// M10: a type 8 record has the LAND, and no type 7 record has.
    LinkWithoutLandmark { land: u64 },
    /// M11: a type 8 record has the key and the LAND, and no type P record has the key.
    LinkWithoutPolygon { polygon: PolyKey, land: u64 },
    /// M12: all points of the chain are one point.
    DegenerateChain { tlid: u64 },
    /// M13: there are more of these than the limit.
    TooMany(Limited),
}

impl fmt::Display for RecordFault {
    ghost use Rattle.std.specs.Prelude.{Some};
    ghost use Rattle.tl_map_rules.specs.Messages.{record_fault_text};

    ghost output = { λ fault. Some (record_fault_text fault) };

    fn fmt<W: fmt::Write>(&self, f: &mut fmt::Formatter<W>) -> fmt::Result {
        let FaultRow { code, name, about } = record_row(self);
        write!(f, "map fault {code} {name}{about}")
    }
}

/// As it is printed.
impl fmt::Debug for RecordFault {
    fn fmt<W: fmt::Write>(&self, f: &mut fmt::Formatter<W>) -> fmt::Result {
        fmt::Display::fmt(self, f)
    }
}

/// Why no map is handed out.
#[derive(Clone, Copy, PartialEq, Eq)]
pub enum MapStop {
    /// This line, counted from 1, is the first that is refused.
    Refused { line: u64, cause: Cause },
    /// A read of the records failed.
    Device,
    /// Memory was refused.
    Memory,
    /// No line is refused, and the records have this fault.
    Fault(RecordFault),
    /// No line is refused, records of each of the types 1, I and P are asked for, and of these there is none.
    NoRecords(Lacking),
}

impl fmt::Display for MapStop {
    ghost use Rattle.std.specs.Prelude.{Some};
    ghost use Rattle.tl_map_rules.specs.Messages.{map_stop_text};

    ghost output = { λ stop. Some (map_stop_text stop) };

    fn fmt<W: fmt::Write>(&self, f: &mut fmt::Formatter<W>) -> fmt::Result {
        match self {
            MapStop::Refused { line, cause } => write!(f, "refused line {line} {cause}"),
            MapStop::Device => f.write_str("stopped Device"),
            MapStop::Memory => f.write_str("stopped Memory"),
            MapStop::Fault(fault) => fault.fmt(f),
            MapStop::NoRecords(lacking) => lacking.fmt(f),
        }
    }
}

/// As it is printed.
impl fmt::Debug for MapStop {
    fn fmt<W: fmt::Write>(&self, f: &mut fmt::Formatter<W>) -> fmt::Result {
        fmt::Display::fmt(self, f)
    }
}

impl From<AllocError> for MapStop {
    ghost from_gives = { λ _ stop. stop ≡ Memory };

    fn from(_error: AllocError) -> MapStop {
        MapStop::Memory
    }
}

impl<T: Drop> From<AllocFailed<T>> for MapStop {
    ghost from_gives = { λ _ stop. stop ≡ Memory };

    fn from(_error: AllocFailed<T>) -> MapStop {
        MapStop::Memory
    }
}

impl From<ReadStop> for MapStop {
    ghost from_gives = { λ read stop. stop ≡ stop_of read };

    fn from(stop: ReadStop) -> MapStop {
        match stop {
            ReadStop::Refused { line, cause } => MapStop::Refused { line, cause },
            ReadStop::Device => MapStop::Device,
        }
    }
}
