//! What a record tells of a chain.

ghost use Rattle.std.specs.Prelude.{◌≡◌};
ghost use Rattle.tl_map.specs.Joined.Keeping.Places.{place_of};

use tl_record::Record;

/// The bytes by which lines of the types 1, 2 and I begin.
pub const ENDS: u8 = 49;

pub const PAIRS: u8 = 50;

pub const SIDES: u8 = 73;

/// What a record tells of a chain: the TLID, the record type, and of type 2 the RTSQ.
#[derive(Clone, Copy, PartialEq, Eq, PartialOrd, Ord)]
pub struct Place {
    pub tlid: u64,
    pub kind: u8,
    pub rtsq: u16,
}

/// What this record tells, where it is one of a chain.
pub fn place_of(told: &Record) -> Option<Place>
    ensures { result ≡ place_of told.now }
{
    match told {
        Record::Chain { tlid, .. } => Some(Place {
            tlid: *tlid,
            kind: ENDS,
            rtsq: 0,
        }),
        Record::Shape { tlid, rtsq, .. } => Some(Place {
            tlid: *tlid,
            kind: PAIRS,
            rtsq: *rtsq,
        }),
        Record::Sides { tlid, .. } => Some(Place {
            tlid: *tlid,
            kind: SIDES,
            rtsq: 0,
        }),
        Record::PolyPoint { .. } | Record::Landmark { .. } | Record::AreaLink { .. } => None,
    }
}
