//! Type I records, as they are kept until all are read: in rows of 32 bytes, where whether a part is there stands beside
//! the parts, and POLYIDs take 32 bits. Of a record with a zero-cell id or a larger POLYID all that a row has no place for is
//! kept beside the rows.

ghost use Rattle.std.specs.Prelude.{◌≡◌, ◌++◌, is_some, IfOk, IfSome, OnOk, List};
ghost use Rattle.std.specs.List.Sorted.{IsNonDecreasingBy, IsPermutation};
ghost use Rattle.tl_map_rules.specs.declared.entry.SidesEntry.{SidesEntry};
ghost use Rattle.tl_map.specs.declared.kept.SidesRow.{SidesRow};
ghost use Rattle.tl_map.specs.declared.kept.SidesMore.{SidesMore};
ghost use Rattle.tl_map_county.specs.Kept.{given};
ghost use Rattle.tl_map.specs.Keeping.Kept.{short_of, long_of, kept_in, IsRow};

use std::alloc::{AllocError, Global};
use std::marker::Model;
use tl_map_county::{Ranked, presort_by_rank, release};
use tl_map_rules::SidesEntry;
use tl_record::PolyKey;

/// The first number that takes more than 32 bits.
const SHORT_END: u64 = 1 << 32;

/// A type I record. Where `more` isn't 0, the record has more than the row: the `more`-th of what is kept beside the rows, and its
/// POLYIDs stand there.
#[derive(Clone, Copy)]
pub struct SidesRow {
    pub tlid: u64,
    pub left_polyid: u32,
    pub right_polyid: u32,
    pub more: u32,
    pub left_cenid: [u8; 5],
    pub right_cenid: [u8; 5],
    pub has_left: bool,
    pub has_right: bool,
}

/// What a record has beside its row.
#[derive(Clone, Copy)]
pub struct SidesMore {
    pub start_cell: u64,
    pub end_cell: u64,
    pub left_polyid: u64,
    pub right_polyid: u64,
    pub has_start: bool,
    pub has_end: bool,
}

const _: () = prove!(size_of::<SidesRow>() == 32);

const _: () = prove!(size_of::<SidesMore>() == 40);

impl Ranked for SidesRow {
    /// By TLID.
    fn rank(&self) -> u64 {
        self.tlid
    }
}

/// Type I records.
#[derive(Drop)]
pub struct KeptSides {
    rows: Vec<SidesRow>,
    more: Vec<SidesMore>,
}

impl Model for KeptSides {
    ghost use Rattle.std.specs.Prelude.{List, All, map};
    ghost use Rattle.tl_map_rules.specs.declared.entry.SidesEntry.{SidesEntry};
    ghost use Rattle.tl_map.specs.Keeping.Kept.{kept_in, IsRow};

    ghost Value = { List SidesEntry };

    ghost view = { λ s. map (kept_in s.more.items) s.rows.items };

    ghost invariant = { λ s. All (IsRow s.more.items) s.rows.items };
}

impl KeptSides {
    ghost use Rattle.std.specs.Prelude.{◌≡◌, ◌<◌, [], ◌∷◌, ◌++◌, OnOk, length, slice_index, slice_index_or};
    ghost use Rattle.std.specs.List.Sorted.{IsNonDecreasingBy, IsPermutation};
    ghost use Rattle.tl_map_rules.specs.declared.entry.SidesEntry.{SidesEntry};
    ghost use Rattle.tl_map.specs.Keeping.Sided.{sides_tlids};

    /// No record.
    pub fn new(alloc: Global) -> KeptSides
        ensures { result ≡ [] }
    {
        KeptSides {
            rows: Vec::new(alloc),
            more: Vec::new(alloc),
        }
    }

    /// How many records there are.
    pub fn len(&self) -> usize
        ensures { result ≡ length self.now }
    {
        self.rows.len()
    }

    /// Keeps one more record.
    pub fn push(&mut self, entry: SidesEntry) -> Result<(), AllocError>
        ensures { OnOk result (self.new ≡ self.old ++ entry ∷ []) }
    {
        let row = row_of(&mut self.more, entry)?;
        self.rows.push(row)?;
        Ok(())
    }

    /// The TLID of a record by its place.
    pub fn tlid(&self, place: usize) -> u64
        requires { place < length self.now }
        ensures { slice_index (sides_tlids self.now) place ≡ result }
    {
        self.rows[place].tlid
    }

    /// A record by its place.
    pub fn get(&self, place: usize) -> SidesEntry
        requires { place < length self.now }
        ensures { (d : SidesEntry) → result ≡ slice_index_or self.now place d }
    {
        let row = self.rows[place];
        if row.more == 0 {
            short_entry(row)
        } else {
            long_entry(row, self.more[row.more as usize - 1])
        }
    }

    /// Sorts the records by TLID, in place.
    pub fn sort_by_tlid(&mut self, alloc: Global) -> Result<(), AllocError>
        ensures ordered { OnOk result (IsNonDecreasingBy (λ (s : SidesEntry). s.tlid) self.new) }
        ensures moved { IsPermutation self.old self.new }
    {
        sort_rows(alloc, &mut self.rows)
    }

    /// Frees the records.
    pub fn release(self) {
        let KeptSides { rows, more } = self;
        release(rows);
        release(more);
    }
}

/// Sorts rows by TLID, in place.
fn sort_rows(alloc: Global, rows: &mut Vec<SidesRow>) -> Result<(), AllocError>
    ensures ordered { OnOk result (IsNonDecreasingBy (λ (s : SidesRow). s.tlid) rows.new.items) }
    ensures moved { IsPermutation rows.old.items rows.new.items }
{
    presort_by_rank(alloc, rows)?;
    rows.sort_unstable_by_key(|row| row.tlid);
    Ok(())
}

/// The row of a record. What it has no place for is kept beside the rows.
fn row_of(more: &mut Vec<SidesMore>, entry: SidesEntry) -> Result<SidesRow, AllocError>
    ensures grows { (xs : List SidesMore) × (more.new.items ≡ more.old.items ++ xs) }
    ensures row { IfOk result (IsRow more.new.items) }
    ensures same { IfOk result (λ row. kept_in more.new.items row ≡ entry) }
{
    match short_row(entry) {
        Some(row) => Ok(row),
        None => keep_more(more, entry),
    }
}

/// Keeps what a record has beside its row, and gives the row.
fn keep_more(more: &mut Vec<SidesMore>, entry: SidesEntry) -> Result<SidesRow, AllocError>
    ensures grows { (xs : List SidesMore) × (more.new.items ≡ more.old.items ++ xs) }
    ensures row { IfOk result (IsRow more.new.items) }
    ensures same { IfOk result (λ row. kept_in more.new.items row ≡ entry) }
{
    let left = key_or_blank(entry.left);
    let right = key_or_blank(entry.right);
    more.push(SidesMore {
        start_cell: entry.start_cell.unwrap_or(0),
        end_cell: entry.end_cell.unwrap_or(0),
        left_polyid: left.polyid,
        right_polyid: right.polyid,
        has_start: entry.start_cell.is_some(),
        has_end: entry.end_cell.is_some(),
    })?;
    // A record of a text has a number: there are fewer lines.
    let Ok(number) = u32::try_from(more.len()) else {
        return Err(AllocError);
    };
    let left_cenid = left.cenid;
    let right_cenid = right.cenid;
    Ok(SidesRow {
        tlid: entry.tlid,
        left_polyid: 0,
        right_polyid: 0,
        more: number,
        left_cenid,
        right_cenid,
        has_left: entry.left.is_some(),
        has_right: entry.right.is_some(),
    })
}

/// The row of a record that has no more than that.
fn short_row(entry: SidesEntry) -> Option<SidesRow>
    ensures short { IfSome result (λ row. row.more ≡ 0) }
    ensures same { IfSome result (λ row. short_of row ≡ entry) }
{
    let left = key_or_blank(entry.left);
    let right = key_or_blank(entry.right);
    if left.polyid >= SHORT_END || right.polyid >= SHORT_END {
        return None;
    }
    if entry.start_cell.is_some() || entry.end_cell.is_some() {
        return None;
    }
    let left_cenid = left.cenid;
    let right_cenid = right.cenid;
    Some(SidesRow {
        tlid: entry.tlid,
        left_polyid: left.polyid as u32,
        right_polyid: right.polyid as u32,
        more: 0,
        left_cenid,
        right_cenid,
        has_left: entry.left.is_some(),
        has_right: entry.right.is_some(),
    })
}

/// The record of a row that has no more.
#[inline(always)]
fn short_entry(row: SidesRow) -> SidesEntry
    ensures { result ≡ short_of row }
{
    SidesEntry {
        tlid: row.tlid,
        start_cell: None,
        end_cell: None,
        left: key_if(row.has_left, row.left_cenid, u64::from(row.left_polyid)),
        right: key_if(row.has_right, row.right_cenid, u64::from(row.right_polyid)),
    }
}

/// The record of a row that has more.
fn long_entry(row: SidesRow, more: SidesMore) -> SidesEntry
    ensures { result ≡ long_of row more }
{
    SidesEntry {
        tlid: row.tlid,
        start_cell: more.has_start.then_some(more.start_cell),
        end_cell: more.has_end.then_some(more.end_cell),
        left: key_if(row.has_left, row.left_cenid, more.left_polyid),
        right: key_if(row.has_right, row.right_cenid, more.right_polyid),
    }
}

/// The key, or one of zeros where there is none.
fn key_or_blank(key: Option<PolyKey>) -> PolyKey
    ensures { given (is_some key) result ≡ key }
{
    match key {
        Some(key) => key,
        None => PolyKey {
            cenid: [0; 5],
            polyid: 0,
        },
    }
}

/// The key of these parts, where there is one.
fn key_if(is_there: bool, cenid: [u8; 5], polyid: u64) -> Option<PolyKey>
    ensures { result ≡ given is_there (record { cenid = cenid; polyid = polyid }) }
{
    if is_there {
        Some(PolyKey { cenid, polyid })
    } else {
        None
    }
}
