//! What of records tells faults, beside their chains.

use crate::LinkEntry;
use tl_record::PolyKey;

/// A key that a side of a type I record names.
#[derive(Clone, Copy)]
pub struct NamedSide {
    pub tlid: u64,
    pub key: PolyKey,
}

/// What tells faults of the records of the types I, P, 7 and 8.
#[derive(Drop)]
pub struct KeptAreas {
    /// The TLIDs of the type I records.
    pub sides: Vec<u64>,
    /// The keys that their sides name.
    pub names: Vec<NamedSide>,
    /// The keys of the type P records.
    pub polygons: Vec<PolyKey>,
    /// The LANDs of the type 7 records.
    pub landmarks: Vec<u64>,
    pub links: Vec<LinkEntry>,
}
