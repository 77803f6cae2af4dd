//! Two ids that are at odds.

/// Two darts that have ids, the first below the second, with one id and two starts, or with two ids and one start. The
/// ids are those at their starts.
#[derive(Clone, Copy, Debug, PartialEq, Eq)]
pub struct CellsAtOdds {
    pub first: u32,
    pub second: u32,
    pub first_id: u64,
    pub second_id: u64,
}
