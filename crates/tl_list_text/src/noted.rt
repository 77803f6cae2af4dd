//! Records with the numbers of their lines, in little room: a row of 40 bytes for each, and beside the rows what some have no place for
//! there. A [`Record`] takes more than three times as many, since each takes what a type 2 record does.

ghost use Rattle.std.specs.Prelude.{◌≡◌, ◌≢◌, ◌↔◌, ◌-◌, ◌<◌, ◌≤◌, ◌++◌, None, IsTrue, length, drop, replicate, slice_index_or};
ghost use Rattle.tl_list_text.specs.Noted.{key_in, sides_with, without_cells};

use std::alloc::{AllocError, Global};
use std::marker::Model;
use tl_geom::Point;
use tl_record::{PAIRS, PolyKey, Record};

/// A key that may not be there. Whether it is stands behind its parts, so that all takes 16 bytes.
#[derive(Clone, Copy)]
pub struct KeptKey {
    pub polyid: u64,
    pub cenid: [u8; 5],
    pub is_there: bool,
}

const _: () = prove!(size_of::<KeptKey>() == 16);

/// The polygons on both sides of a chain, as a type I record names them.
#[derive(Clone, Copy)]
pub struct SideKeys {
    pub left: KeptKey,
    pub right: KeptKey,
}

/// The zero-cell ids of a chain's start and end.
#[derive(Clone, Copy)]
pub struct CellIds {
    pub start: Option<u64>,
    pub end: Option<u64>,
}

/// A record as a row holds it. What stands beside the rows is named by its place there, counted from 0.
#[derive(Clone, Copy)]
pub enum ShortRecord {
    Chain {
        tlid: u64,
        from: Point,
        to: Point,
    },
    /// So many pairs from the first on are those of the record, up to its last used one.
    Shape {
        tlid: u64,
        first: usize,
        rtsq: u16,
        used: u8,
    },
    /// A type I record without zero-cell ids.
    Sides {
        tlid: u64,
        keys: usize,
    },
    /// One that has some.
    CellSides {
        tlid: u64,
        keys: usize,
        cells: usize,
    },
    PolyPoint {
        key: PolyKey,
        point: Point,
    },
    Landmark {
        land: u64,
        point: Option<Point>,
    },
    AreaLink {
        key: PolyKey,
        land: u64,
    },
}

/// A record with its line's number.
#[derive(Clone, Copy)]
pub struct Row {
    pub line: u64,
    pub holds: ShortRecord,
}

const _: () = prove!(size_of::<Row>() == 40);

/// What stands beside the rows, of one record after the other.
#[derive(Drop)]
pub struct Beside {
    pub pairs: Vec<Option<Point>>,
    pub keys: Vec<SideKeys>,
    pub cells: Vec<CellIds>,
}

impl Beside {
    ghost use Rattle.std.specs.Prelude.{◌≡◌, IfOk};
    ghost use Rattle.tl_list_text.specs.Noted.{record_in, sides_with, IsHeld, Grows};

    // The short form of a record. What a row has no place for is put beside the rows.
    fn keep(&mut self, record: &Record) -> Result<ShortRecord, AllocError>
        ensures grows { Grows self.old self.new }
        ensures held { IfOk result (IsHeld self.new) }
        ensures same { IfOk result (λ short. record_in self.new short ≡ record.now) }
    {
        match *record {
            Record::Chain { tlid, from, to } => Ok(ShortRecord::Chain { tlid, from, to }),
            Record::Shape {
                tlid,
                rtsq,
                ref pairs,
            } => self.keep_shape(tlid, rtsq, pairs),
            Record::Sides {
                tlid,
                start_cell: start,
                end_cell: end,
                left,
                right,
            } => self.keep_sides(tlid, keys_of(left, right), CellIds { start, end }),
            Record::PolyPoint { key, point } => Ok(ShortRecord::PolyPoint { key, point }),
            Record::Landmark { land, point } => Ok(ShortRecord::Landmark { land, point }),
            Record::AreaLink { key, land } => Ok(ShortRecord::AreaLink { key, land }),
        }
    }

    // The short form of a type 2 record.
    fn keep_shape(
        &mut self,
        tlid: u64,
        rtsq: u16,
        pairs: &[Option<Point>; PAIRS],
    ) -> Result<ShortRecord, AllocError>
        ensures grows { Grows self.old self.new }
        ensures held { IfOk result (IsHeld self.new) }
        ensures same { IfOk result (λ short. record_in self.new short ≡ Record.Shape tlid rtsq pairs.now) }
    {
        let first = self.pairs.len();
        let used = used_pairs(pairs);
        self.pairs.extend_from_slice(&pairs[..used])?;
        Ok(ShortRecord::Shape {
            tlid,
            first,
            rtsq,
            used: used as u8,
        })
    }

    // The short form of a type I record.
    fn keep_sides(
        &mut self,
        tlid: u64,
        keys: SideKeys,
        cells: CellIds,
    ) -> Result<ShortRecord, AllocError>
        ensures grows { Grows self.old self.new }
        ensures held { IfOk result (IsHeld self.new) }
        ensures same { IfOk result (λ short. record_in self.new short ≡ sides_with tlid keys cells) }
    {
        let place = self.keys.len();
        self.keys.push(keys)?;
        if has_no_cells(cells) {
            return Ok(ShortRecord::Sides { tlid, keys: place });
        }
        let second = self.cells.len();
        self.cells.push(cells)?;
        Ok(ShortRecord::CellSides {
            tlid,
            keys: place,
            cells: second,
        })
    }

    // The record of a short form.
    fn record(&self, short: ShortRecord) -> Record
        requires { IsHeld self.now short }
        ensures { result ≡ record_in self.now short }
    {
        match short {
            ShortRecord::Chain { tlid, from, to } => Record::Chain { tlid, from, to },
            ShortRecord::Shape {
                tlid,
                first,
                rtsq,
                used,
            } => {
                let used = used as usize;
                let pairs = filled(&self.pairs[first..first + used]);
                Record::Shape { tlid, rtsq, pairs }
            }
            ShortRecord::Sides { tlid, keys } => sides_of(tlid, self.keys[keys], NO_CELLS),
            ShortRecord::CellSides { tlid, keys, cells } => {
                sides_of(tlid, self.keys[keys], self.cells[cells])
            }
            ShortRecord::PolyPoint { key, point } => Record::PolyPoint { key, point },
            ShortRecord::Landmark { land, point } => Record::Landmark { land, point },
            ShortRecord::AreaLink { key, land } => Record::AreaLink { key, land },
        }
    }
}

// Of a chain without zero-cell ids.
const NO_CELLS: CellIds = CellIds {
    start: None,
    end: None,
};

// Whether no zero-cell id is given.
fn has_no_cells(cells: CellIds) -> bool
    ensures { IsTrue result ↔ cells ≡ without_cells }
{
    cells.start.is_none() && cells.end.is_none()
}

// The keys on both sides.
fn keys_of(left: Option<PolyKey>, right: Option<PolyKey>) -> SideKeys
    ensures left { key_in result.left ≡ left }
    ensures right { key_in result.right ≡ right }
{
    SideKeys {
        left: kept_key(left),
        right: kept_key(right),
    }
}

// A key as it is kept.
fn kept_key(key: Option<PolyKey>) -> KeptKey
    ensures { key_in result ≡ key }
{
    match key {
        Some(key) => {
            let cenid = key.cenid;
            KeptKey {
                polyid: key.polyid,
                cenid,
                is_there: true,
            }
        }
        None => KeptKey {
            polyid: 0,
            cenid: [0; 5],
            is_there: false,
        },
    }
}

// The key that is kept, if one is.
fn key_in(key: KeptKey) -> Option<PolyKey>
    ensures { result ≡ key_in key }
{
    if key.is_there {
        let cenid = key.cenid;
        Some(PolyKey {
            cenid,
            polyid: key.polyid,
        })
    } else {
        None
    }
}

// A type I record of its parts.
fn sides_of(tlid: u64, keys: SideKeys, cells: CellIds) -> Record
    ensures { result ≡ sides_with tlid keys cells }
{
    Record::Sides {
        tlid,
        start_cell: cells.start,
        end_cell: cells.end,
        left: key_in(keys.left),
        right: key_in(keys.right),
    }
}

// How many pairs there are up to the last used one.
fn used_pairs(pairs: &[Option<Point>]) -> usize
    ensures within { result ≤ length pairs.now }
    ensures unused { drop result pairs.now ≡ replicate (length pairs.now - result) None }
    ensures used { 0 < result → slice_index_or pairs.now (result - 1) None ≢ None }
{
    let mut used = pairs.len();
    while used > 0 && pairs[used - 1].is_none() {
        used -= 1;
    }
    used
}

// The pairs of a record, of which these are all up to the last used one.
fn filled(used: &[Option<Point>]) -> [Option<Point>; PAIRS]
    requires { length used.now ≤ PAIRS }
    ensures { result ≡ used.now ++ replicate (PAIRS - length used.now) None }
{
    let mut pairs = [None; PAIRS];
    pairs[..used.len()].copy_from_slice(used);
    pairs
}

/// Records with the numbers of their lines.
#[derive(Drop)]
pub struct NotedRecords {
    rows: Vec<Row>,
    beside: Beside,
}

impl Model for NotedRecords {
    ghost use Rattle.std.specs.Prelude.{ℕ, List, All, map};
    ghost use Rattle.tl_record.specs.declared.record.Record.{Record};
    ghost use Rattle.tl_list_text.specs.Noted.{entry_in, IsRow};

    ghost Value = { List (ℕ × Record) };

    ghost view = { λ n. map (entry_in n.beside) n.rows.items };

    ghost invariant = { λ n. All (IsRow n.beside) n.rows.items };
}

impl NotedRecords {
    ghost use Rattle.std.specs.Prelude.{◌≡◌, ◌<◌, [], ◌∷◌, ◌++◌, ℕ, OnOk, length, slice_index_or};
    ghost use Rattle.tl_record.specs.declared.record.Record.{Record};

    /// No record.
    pub fn new(alloc: Global) -> NotedRecords
        ensures { result ≡ [] }
    {
        NotedRecords {
            rows: Vec::new(alloc),
            beside: Beside {
                pairs: Vec::new(alloc),
                keys: Vec::new(alloc),
                cells: Vec::new(alloc),
            },
        }
    }

    /// How many records there are.
    pub fn len(&self) -> usize
        ensures { result ≡ length self.now }
    {
        self.rows.len()
    }

    /// Adds a record with its line's number. An error says that memory was refused.
    pub fn push(&mut self, line: u64, record: &Record) -> Result<(), AllocError>
        ensures { OnOk result (self.new ≡ self.old ++ (line, record.now) ∷ []) }
    {
        let holds = self.beside.keep(record)?;
        self.rows.push(Row { line, holds })?;
        Ok(())
    }

    /// A record by its place, counted from 0, with its line's number.
    pub fn get(&self, place: usize) -> (u64, Record)
        requires { place < length self.now }
        ensures { (d : ℕ × Record) → result ≡ slice_index_or self.now place d }
    {
        let row = self.rows[place];
        (row.line, self.beside.record(row.holds))
    }
}
