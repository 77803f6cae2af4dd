//! Columns of a line.

ghost use Rattle.std.specs.Prelude.{◌≡◌, ℕ, ◌+◌, ◌-◌, ◌^◌, ◌<◌, ◌≤◌, List, length, take, drop, IfSome};
ghost use Rattle.tl_record.specs.Range.{Range, IsRange, columns};
ghost use Rattle.tl_record.specs.Fields.{field, width_of};

use std::marker::Model;

/// A range of at most 18 columns. Columns count from 1, and both ends belong to the range.
#[derive(Clone, Copy)]
pub struct ColumnRange {
    first: u16,
    // How many columns it has, which is asked of each field of each line.
    width: u16,
}

impl Model for ColumnRange {
    ghost Value = { Range };

    ghost view = { λ range. columns range.first (range.first + range.width - 1) };

    ghost invariant = { λ range. IsRange (columns range.first (range.first + range.width - 1))
        × (1 ≤ range.width) × (range.first + range.width ≤ 2 ^ 16) };

    ghost inverse = { λ range. record { first = range.first; width = width_of range } };
}

impl ColumnRange {
    /// The columns from `first` to `last`.
    pub fn new(first: u16, last: u16) -> ColumnRange
        requires { IsRange (columns first last) }
        ensures { result ≡ columns first last }
    {
        ColumnRange {
            first,
            width: last - first + 1,
        }
    }

    /// The first of these columns.
    pub fn first(self) -> u16
        ensures first { result ≡ self.first }
        ensures range { IsRange self }
    {
        self.first
    }

    /// The last of these columns.
    pub fn last(self) -> u16
        ensures { result ≡ self.last }
    {
        self.first + (self.width - 1)
    }

    /// The bytes of a line at these columns, as far as the line has them.
    pub fn of<'a>(self, line: &Columns<'a>) -> &'a [u8]
        ensures bytes { result.now ≡ take (self.last + 1 - self.first) (drop (self.first - 1) line.now) }
        ensures narrow { length result.now ≤ 18 }
        ensures range { IsRange self }
    {
        line.field(self.first, self.last())
    }

    /// How many columns these are.
    #[inline(always)]
    pub(crate) fn width(self) -> usize
        ensures width { result ≡ width_of self }
        ensures some { 0 < result }
        ensures narrow { result ≤ 18 }
    {
        usize::from(self.width)
    }

    /// The bytes of a line from the first of these columns on, where they are so many or more.
    #[inline(always)]
    pub(crate) fn onward<'a>(self, line: &Columns<'a>, many: usize) -> Option<&'a [u8]>
        requires { many < 2 ^ 16 }
        ensures bytes { IfSome result (λ rest. rest.now ≡ drop (self.first - 1) line.now) }
        ensures many { IfSome result (λ rest. many ≤ length rest.now) }
    {
        line.onward(self.first, many)
    }
}

/// Five columns, of which this is the first.
#[derive(Clone, Copy)]
pub struct FiveColumns {
    first: u16,
}

impl Model for FiveColumns {
    ghost Value = { Range };

    ghost view = { λ five. columns five.first (five.first + 4) };

    ghost invariant = { λ five. IsRange (columns five.first (five.first + 4)) × (five.first < 2 ^ 15) };

    ghost inverse = { λ range. record { first = range.first } };
}

impl FiveColumns {
    /// The five columns from `first` on.
    pub fn new(first: u16) -> FiveColumns
        requires from_one { 1 ≤ first }
        requires in_reach { first < 2 ^ 15 }
        ensures { result ≡ columns first (first + 4) }
    {
        FiveColumns { first }
    }

    /// These columns as a range.
    pub fn range(self) -> ColumnRange
        ensures { result ≡ self }
    {
        ColumnRange::new(self.first, self.first + 4)
    }

    /// The bytes of a line from the first of these columns on, where they are so many or more.
    #[inline(always)]
    pub(crate) fn onward<'a>(self, line: &Columns<'a>, many: usize) -> Option<&'a [u8]>
        requires { many < 2 ^ 16 }
        ensures bytes { IfSome result (λ rest. rest.now ≡ drop (self.first - 1) line.now) }
        ensures many { IfSome result (λ rest. many ≤ length rest.now) }
    {
        line.onward(self.first, many)
    }

    /// The bytes of a line at these columns, a blank for each column past its end.
    pub fn of(self, line: &Columns<'_>) -> [u8; 5]
        ensures { result ≡ field line.now self }
    {
        let given = line.field(self.first, self.first + 4);
        if let Ok(whole) = <[u8; 5]>::try_from(given) {
            return whole;
        }
        let mut bytes = [b' '; 5];
        bytes[..given.len()].copy_from_slice(given);
        bytes
    }
}

/// The bytes of a line, without what ends it, by columns.
#[derive(Drop)]
pub struct Columns<'a> {
    bytes: &'a [u8],
}

impl<'a> Model for Columns<'a> {
    ghost Value = { List ℕ };

    ghost view = { λ line. line.bytes.now };
}

impl<'a> Columns<'a> {
    /// The columns of a line with these bytes.
    pub fn new(bytes: &'a [u8]) -> Columns<'a>
        ensures { result ≡ bytes.entry.now }
    {
        Columns { bytes }
    }

    /// The bytes of the columns from `first` to `last`, as far as the line has them. What is past its end reads as
    /// blank, by the reading rules, so it may be left out.
    pub fn field(&self, first: u16, last: u16) -> &'a [u8]
        requires from_one { 1 ≤ first }
        requires ordered { first ≤ last }
        ensures { result.now ≡ take (last + 1 - first) (drop (first - 1) self.now) }
    {
        let end = self.bytes.len().min(last as usize);
        let start = end.min(first as usize - 1);
        &self.bytes[start..end]
    }

    /// The bytes from a column on, where they are so many or more.
    #[inline(always)]
    fn onward(&self, first: u16, many: usize) -> Option<&'a [u8]>
        requires from_one { 1 ≤ first }
        requires few { many < 2 ^ 16 }
        ensures bytes { IfSome result (λ rest. rest.now ≡ drop (first - 1) self.now) }
        ensures many { IfSome result (λ rest. many ≤ length rest.now) }
    {
        let start = usize::from(first) - 1;
        if start + many <= self.bytes.len() {
            Some(&self.bytes[start..])
        } else {
            None
        }
    }
}
