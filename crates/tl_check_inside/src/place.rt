//! Where a point lies.

/// Where a point lies in a map.
#[derive(Debug, PartialEq, Eq, Drop)]
pub enum Place {
    /// On a chain: the lowest that holds the point.
    OnChain(u32),
    /// On no chain, in these polygons and these landmarks, each by rising number.
    In {
        polygons: Vec<u32>,
        landmarks: Vec<u32>,
    },
}
