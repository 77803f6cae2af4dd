//! Records as they are kept until all of them are read.

use tl_geom::Point;
use tl_map_county::{Keyed, Ranked};
use tl_record::PolyKey;

/// A type 1 record.
#[derive(Clone, Copy)]
pub struct ChainEntry {
    pub tlid: u64,
    pub from: Point,
    pub to: Point,
}

impl Ranked for ChainEntry {
    /// By TLID.
    fn rank(&self) -> u64 {
        self.tlid
    }
}

impl Keyed for ChainEntry {
    ghost key_of = { λ chain. chain.tlid };

    /// Its TLID.
    fn key(&self) -> u64 {
        self.tlid
    }
}

/// How the used pairs of a type 2 record lie among the unused ones.
#[derive(Clone, Copy)]
pub enum Fill {
    /// Each pair is used.
    Full,
    /// The pairs from one on are unused, and those before it are used.
    Ended,
    /// A used pair comes after an unused one.
    Gap,
}

/// A type 2 record, whose used points stand in a list that all records share: `used` of them from `first` on.
#[derive(Clone, Copy)]
pub struct ShapeEntry {
    pub tlid: u64,
    pub first: usize,
    pub rtsq: u16,
    pub used: u8,
    pub fill: Fill,
}

impl Ranked for ShapeEntry {
    /// By TLID, and within one TLID by RTSQ, which has three digits.
    fn rank(&self) -> u64 {
        self.tlid
            .wrapping_mul(1000)
            .wrapping_add(u64::from(self.rtsq))
    }
}

impl Keyed for ShapeEntry {
    ghost key_of = { λ shape. shape.tlid };

    /// Its TLID.
    fn key(&self) -> u64 {
        self.tlid
    }
}

/// A type I record.
#[derive(Clone, Copy)]
pub struct SidesEntry {
    pub tlid: u64,
    pub start_cell: Option<u64>,
    pub end_cell: Option<u64>,
    pub left: Option<PolyKey>,
    pub right: Option<PolyKey>,
}

/// A type 7 record.
#[derive(Clone, Copy)]
pub struct LandmarkEntry {
    pub land: u64,
    pub point: Option<Point>,
}

/// A type 8 record.
#[derive(Clone, Copy)]
pub struct LinkEntry {
    pub key: PolyKey,
    pub land: u64,
}
