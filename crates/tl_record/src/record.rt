//! What a line holds.

use tl_geom::Point;
use tl_record_key::PolyKey;

/// How many coordinate pairs one shape record has room for.
pub const PAIRS: usize = 10;

/// A record of one of the types that are read. Coordinates are in millionths of a degree, longitude to the east and
/// latitude to the north.
#[derive(Clone, Copy, Debug, PartialEq, Eq)]
pub enum Record {
    /// Type 1: a complete chain with its start and its end.
    Chain {
        tlid: u64,
        from: Point,
        to: Point,
    },
    /// Type 2: up to ten shape points of a chain. `rtsq` numbers the chain's type 2 records from 1; an unused pair is
    /// `None`.
    Shape {
        tlid: u64,
        rtsq: u16,
        pairs: [Option<Point>; PAIRS],
    },
    /// Type I: the polygons on both sides of a chain, seen from its start to its end, where `None` is outside of the
    /// county; and the zero-cell ids of its start and its end, which name nodes, where they are read and given.
    Sides {
        tlid: u64,
        start_cell: Option<u64>,
        end_cell: Option<u64>,
        left: Option<PolyKey>,
        right: Option<PolyKey>,
    },
    /// Type P: a polygon and its internal point.
    PolyPoint {
        key: PolyKey,
        point: Point,
    },
    /// Type 7: a landmark; an area landmark has no point.
    Landmark {
        land: u64,
        point: Option<Point>,
    },
    /// Type 8: a polygon that belongs to an area landmark.
    AreaLink {
        key: PolyKey,
        land: u64,
    },
}

/// What may stand in the place of a record before one is read into it.
pub const NO_RECORD: Record = Record::Landmark {
    land: 0,
    point: None,
};
