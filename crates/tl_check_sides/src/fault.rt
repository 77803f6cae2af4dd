//! What can be wrong with rounds, with sides and with walks.

/// Why rounds aren't those of a map. Rounds are numbered from 0.
#[derive(Clone, Copy, Debug, PartialEq, Eq)]
pub enum RoundFault {
    /// A round has this number, and there is no such dart.
    UnknownDart(u32),
    /// This dart stands in the rounds more than once.
    DartTwice(u32),
    /// This dart stands in no round.
    DartMissing(u32),
    /// The round has darts that start at two nodes.
    StartsElsewhere(u32),
    /// The first dart of the round starts where that of an earlier round does.
    NodeRepeated(u32),
    /// The headings of the round don't rise strictly counter-clockwise from east.
    OrderNotRising(u32),
}

/// Why walks aren't rings in which each dart of a map stands once. Walks are numbered from 0.
#[derive(Clone, Copy, Debug, PartialEq, Eq)]
pub enum WalkFault {
    /// A walk has this number, and there is no such dart.
    UnknownDart(u32),
    /// This dart stands in the walks more than once.
    DartTwice(u32),
    /// This dart stands in no walk.
    DartMissing(u32),
    /// A dart of the walk doesn't follow the one before it.
    WrongStep(u32),
    /// The walk's first dart doesn't follow its last.
    NotClosed(u32),
}

/// Two darts of one node, the second next after the first, where what lies on the left of the first isn't what lies on
/// the right of the second.
#[derive(Clone, Copy, Debug, PartialEq, Eq)]
pub struct Disagreement {
    pub first: u32,
    pub next: u32,
}
