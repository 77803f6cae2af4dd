//! What is asked of a map, and what is decided of it.

use tl_check_verdict::MapFault;

/// How many of a map's faults are looked for.
#[derive(Clone, Copy, PartialEq, Eq)]
pub enum Depth {
    /// One, whichever is found first.
    First,
    /// All of them.
    All,
}

/// What is asked of a map.
#[derive(Clone, Copy)]
pub struct Asked {
    pub depth: Depth,
    /// Whether its faces have to agree.
    pub faces: bool,
    /// Whether its walks are handed out, where its chains are planar and its sides agree.
    pub walks: bool,
}

/// What is decided of a map.
#[derive(Drop)]
pub struct Decided {
    /// The faults that are told: none of a map that keeps what is asked of it.
    pub faults: Vec<MapFault>,
    /// How many polygons are touched, where all faults are told: sides that disagree name them. Of these it isn't looked whether their points
    /// are outside of them, or other points in them.
    pub touched: u64,
    /// How many rings its boundaries have, where its chains are planar and its sides agree.
    pub rings: u32,
    /// These rings, where they are asked for.
    pub walks: Vec<Vec<u32>>,
}

/// What is wrong with a map, and how many polygons are touched.
#[derive(Drop)]
pub struct Told {
    pub faults: Vec<MapFault>,
    pub touched: u64,
}
