//! Columns of a line.

ghost use Rattle.std.specs.Prelude.{◌≤◌};

/// The columns of a field, counted from 1; both ends belong to it.
#[derive(Clone, Copy, Debug, PartialEq, Eq)]
pub struct FieldColumns {
    pub first: u16,
    pub last: u16,
    pub ghost from_one: { 1 ≤ first },
    pub ghost ordered: { first ≤ last },
}
