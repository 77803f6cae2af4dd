//! How much a county may have of each thing.

/// How many type 1 records a county may have.
pub const CHAIN_LIMIT: u32 = 1_048_576;

/// How many segments the chains of a county may have together.
pub const SEGMENT_LIMIT: u32 = 16_777_216;

/// How many type P records a county may have.
pub const POLYGON_LIMIT: u32 = 1_048_576;

/// How many landmarks a county may have.
pub const LANDMARK_LIMIT: u32 = 1_048_576;
