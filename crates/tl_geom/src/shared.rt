//! What two segments share.
use crate::{Point, Rational};

/// What two segments share.
#[derive(Clone, Copy, Debug, PartialEq, Eq)]
pub enum Contact {
    /// No point.
    Apart,
    /// One point, which is an end of both.
    AtEnds(Point),
    /// A point that is not an end of both: the middle of an overlap, an end of one inside the other, or a proper
    /// crossing.
    Crossing(Rational),
}
