//! What each fault of the records says: its code, its name, and what it is about.

ghost use Rattle.std.specs.Prelude.{◌≡◌};
ghost use Rattle.tl_map_rules.specs.Rows.{lacking_row, record_row, row_of};

use crate::fault::{Limited, RecordFault};
use crate::lacking::Lacking;
use std::fmt;
use tl_record::PolyKey;

/// Which of a TLID's records a fault speaks of.
#[derive(Clone, Copy)]
pub enum Which {
    /// Those of type 1.
    Chain,
    /// Those of type 2.
    Shape,
    /// Those of types 1 and 2, which draw its chain.
    Drawn,
    /// Those of type I.
    Sides,
}

/// What a fault of the records is about.
#[derive(Clone, Copy)]
pub enum AboutRecords {
    /// Records of a TLID.
    Tlid(u64, Which),
    /// A polygon.
    Polygon(PolyKey),
    /// Records of type I of a TLID, and a polygon that they name.
    TlidPolygon(u64, PolyKey),
    /// Links to a landmark.
    Land(u64),
    /// Links of a polygon to a landmark.
    PolygonLand(PolyKey, u64),
    /// What there are too many of.
    Limit(Limited),
    /// Types of which there is no record.
    Types(Lacking),
}

/// What a fault says. Each text that tells of one is made of this.
#[derive(Clone, Copy)]
pub struct FaultRow<A> {
    /// As `M1`.
    pub code: &'static str,
    /// As `DuplicateChain`.
    pub name: &'static str,
    pub about: A,
}

impl<A> FaultRow<A> {
    /// A row of these.
    pub fn new(code: &'static str, name: &'static str, about: A) -> FaultRow<A>
        ensures { row_of result ≡ (code.now, name.now, about) }
    {
        FaultRow { code, name, about }
    }
}

/// What a fault of the records says.
pub fn record_row(fault: &RecordFault) -> FaultRow<AboutRecords>
    ensures { row_of result ≡ record_row fault.now }
{
    match *fault {
        RecordFault::DuplicateChain { tlid } => {
            FaultRow::new(
                "M1",
                "DuplicateChain",
                AboutRecords::Tlid(tlid, Which::Chain),
            )
        }
        RecordFault::ShapeWithoutChain { tlid } => {
            FaultRow::new(
                "M2",
                "ShapeWithoutChain",
                AboutRecords::Tlid(tlid, Which::Shape),
            )
        }
        RecordFault::ShapeSequence { tlid } => {
            FaultRow::new(
                "M3",
                "ShapeSequence",
                AboutRecords::Tlid(tlid, Which::Shape),
            )
        }
        RecordFault::ShapeGap { tlid } => {
            FaultRow::new("M4", "ShapeGap", AboutRecords::Tlid(tlid, Which::Shape))
        }
        RecordFault::ChainWithoutSides { tlid } => {
            FaultRow::new(
                "M5",
                "ChainWithoutSides",
                AboutRecords::Tlid(tlid, Which::Chain),
            )
        }
        RecordFault::SidesWithoutChain { tlid } => {
            FaultRow::new(
                "M6",
                "SidesWithoutChain",
                AboutRecords::Tlid(tlid, Which::Sides),
            )
        }
        RecordFault::DuplicateSides { tlid } => {
            FaultRow::new(
                "M7",
                "DuplicateSides",
                AboutRecords::Tlid(tlid, Which::Sides),
            )
        }
        RecordFault::DuplicatePolygon { polygon } => {
            FaultRow::new("M8", "DuplicatePolygon", AboutRecords::Polygon(polygon))
        }
        RecordFault::SideWithoutPolygon { tlid, polygon } => {
            let about = AboutRecords::TlidPolygon(tlid, polygon);
            FaultRow::new("M9", "SideWithoutPolygon", about)
        }
        RecordFault::LinkWithoutLandmark { land } => {
            FaultRow::new("M10", "LinkWithoutLandmark", AboutRecords::Land(land))
        }
        RecordFault::LinkWithoutPolygon { polygon, land } => {
            let about = AboutRecords::PolygonLand(polygon, land);
            FaultRow::new("M11", "LinkWithoutPolygon", about)
        }
        RecordFault::DegenerateChain { tlid } => {
            FaultRow::new(
                "M12",
                "DegenerateChain",
                AboutRecords::Tlid(tlid, Which::Drawn),
            )
        }
        RecordFault::TooMany(what) => FaultRow::new("M13", "TooMany", AboutRecords::Limit(what)),
    }
}

/// What is said where there are no records of some type.
pub fn lacking_row(lacking: Lacking) -> FaultRow<AboutRecords>
    ensures { row_of result ≡ lacking_row lacking }
{
    FaultRow::new("M14", "NoRecords", AboutRecords::Types(lacking))
}

/// As it is printed behind the fault's name, with a blank in front.
impl fmt::Display for AboutRecords {
    ghost use Rattle.std.specs.Prelude.{Some};
    ghost use Rattle.tl_map_rules.specs.Messages.{about_records_text};

    ghost output = { λ about. Some (about_records_text about) };

    fn fmt<W: fmt::Write>(&self, f: &mut fmt::Formatter<W>) -> fmt::Result {
        match *self {
            AboutRecords::Tlid(tlid, _) => write!(f, " tlid {tlid}"),
            AboutRecords::Polygon(polygon) => write!(f, " polygon {polygon}"),
            AboutRecords::TlidPolygon(tlid, polygon) => {
                write!(f, " tlid {tlid} polygon {polygon}")
            }
            AboutRecords::Land(land) => write!(f, " land {land}"),
            AboutRecords::PolygonLand(polygon, land) => {
                write!(f, " polygon {polygon} land {land}")
            }
            AboutRecords::Limit(what) => write!(f, " {what}"),
            AboutRecords::Types(lacking) => {
                let types = lacking.types();
                write!(f, " types{types}")
            }
        }
    }
}
