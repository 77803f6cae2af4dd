//! What lies on the sides of chains.

ghost use Rattle.std.specs.Prelude.{◌≡◌, ◌≢◌, IsTrue, IsFalse};

/// What lies on a side of a chain.
#[derive(Clone, Copy, Debug, PartialEq, Eq, Hash)]
pub enum Side {
    /// Nothing of the county.
    Outside,
    /// The polygon of this number.
    Polygon(u32),
}

impl Side {
    /// Whether both are one side.
    pub fn is(self, other: Side) -> bool
        ensures same { IsTrue result → self ≡ other }
        ensures other { IsFalse result → self ≢ other }
    {
        self == other
    }
}

/// What lies on both sides of a chain, seen from its start to its end, and the zero-cell ids of its start and its end.
#[derive(Clone, Copy)]
pub struct ChainSides {
    pub left: Side,
    pub right: Side,
    pub start_cell: Option<u64>,
    pub end_cell: Option<u64>,
}
