//! What lies on the sides of chains, as it is kept for all of them: two numbers a chain, and beside them the ids of starts and
//! ends, of as many chains as there are up to the last that has one. Of a map without ids none are kept.

ghost use Rattle.std.specs.Prelude.{◌≡◌, ◌≤◌, ◌+◌, ◌∷◌, [], ◌++◌, List, None, OnOk, is_some, length};
ghost use Rattle.std.specs.Bool.{OnTrue};
ghost use Rattle.std.specs.Int.{w64, from_le_bytes};
ghost use Rattle.tl_map_county.specs.declared.sides.ChainSides.{ChainSides};
ghost use Rattle.tl_map_county.specs.declared.kept.SidePair.{SidePair};
ghost use Rattle.tl_map_county.specs.Kept.{given, HasNumber};
ghost use Rattle.tl_map_county.specs.Keeping.Sides.{side_at, with_cells, without_cells, sides_kept, IsPairOf};

use crate::sides::{ChainSides, Side};
use std::alloc::{AllocError, Global};
use std::marker::Model;

/// The number that stands for the outside. It is no polygon's.
const OUTSIDE: u32 = u32::MAX;

/// The numbers of the polygons on both sides of a chain.
#[derive(Clone, Copy)]
pub struct SidePair {
    pub left: u32,
    pub right: u32,
}

/// The zero-cell ids of a chain's start and end. Whether one is there stands beside it, and ids stand as bytes, so that all takes 18
/// of them and not the next multiple of eight.
#[derive(Clone, Copy)]
pub struct EndCells {
    pub start: [u8; 8],
    pub end: [u8; 8],
    pub has_start: bool,
    pub has_end: bool,
}

const _: () = prove!(size_of::<SidePair>() == 8);

const _: () = prove!(size_of::<EndCells>() == 18);

/// Of a chain without ids.
const NO_CELLS: EndCells = EndCells {
    start: [0; 8],
    end: [0; 8],
    has_start: false,
    has_end: false,
};

/// What lies on both sides of each of a list of chains.
#[derive(Drop)]
pub struct SidesOfChains {
    pairs: Vec<SidePair>,
    /// The ids of the first chains. The others have none.
    cells: Vec<EndCells>,
}

impl Model for SidesOfChains {
    ghost use Rattle.std.specs.Prelude.{List, ◌≤◌, length};
    ghost use Rattle.tl_map_county.specs.declared.sides.ChainSides.{ChainSides};
    ghost use Rattle.tl_map_county.specs.Keeping.Sides.{sides_kept};

    ghost Value = { List ChainSides };

    ghost view = { λ s. sides_kept s.cells.items s.pairs.items };

    ghost invariant = { λ s. length s.cells.items ≤ length s.pairs.items };
}

impl SidesOfChains {
    ghost use Rattle.std.specs.Prelude.{◌≡◌, ◌<◌, [], ◌∷◌, ◌++◌, IfOk, OnOk, length, slice_index_or};
    ghost use Rattle.tl_map_county.specs.declared.sides.ChainSides.{ChainSides};
    ghost use Rattle.tl_map_county.specs.Kept.{HasNumber};

    /// No chain, and room for so many of which no id is given.
    pub fn with_capacity(alloc: Global, chains: usize) -> Result<SidesOfChains, AllocError>
        ensures { IfOk result (λ s. s ≡ []) }
    {
        Ok(SidesOfChains {
            pairs: Vec::with_capacity(alloc, chains)?,
            cells: Vec::new(alloc),
        })
    }

    /// Keeps what lies on the sides of one chain more.
    #[inline(always)]
    pub fn push(&mut self, sides: ChainSides) -> Result<(), AllocError>
        requires left { HasNumber sides.left }
        requires right { HasNumber sides.right }
        ensures { OnOk result (self.new ≡ self.old ++ sides ∷ []) }
    {
        let before = self.pairs.len();
        self.pairs.push(SidePair {
            left: number_of(sides.left),
            right: number_of(sides.right),
        })?;
        keep_cells(&mut self.cells, before, sides)
    }

    /// What lies on the sides of a chain by its place.
    #[inline(always)]
    pub fn get(&self, place: usize) -> ChainSides
        requires { place < length self.now }
        ensures { (d : ChainSides) → result ≡ slice_index_or self.now place d }
    {
        let pair = self.pairs[place];
        if place < self.cells.len() {
            sides_with(pair, self.cells[place])
        } else {
            sides_without(pair)
        }
    }
}

/// Keeps the ids of a chain that comes after so many.
fn keep_cells(cells: &mut Vec<EndCells>, before: usize, sides: ChainSides) -> Result<(), AllocError>
    requires { length cells.old.items ≤ before }
    ensures few { length cells.new.items ≤ before + 1 }
    ensures kept { OnOk result ((ps : List SidePair) (p : SidePair) → length ps ≡ before → IsPairOf sides p →
        sides_kept cells.new.items (ps ++ p ∷ []) ≡ sides_kept cells.old.items ps ++ sides ∷ []) }
{
    if has_no_cells(sides) {
        return Ok(());
    }
    cells.resize(before, NO_CELLS)?;
    cells.push(cells_of(sides))?;
    Ok(())
}

/// Is no id given of the chain?
fn has_no_cells(sides: ChainSides) -> bool
    ensures { OnTrue result ((sides.start_cell ≡ None) × (sides.end_cell ≡ None)) }
{
    sides.start_cell.is_none() && sides.end_cell.is_none()
}

/// The ids of a chain's start and end.
fn cells_of(sides: ChainSides) -> EndCells
    ensures start { given result.has_start (from_le_bytes w64 result.start) ≡ sides.start_cell }
    ensures end { given result.has_end (from_le_bytes w64 result.end) ≡ sides.end_cell }
{
    EndCells {
        start: bytes_or_zeros(sides.start_cell),
        end: bytes_or_zeros(sides.end_cell),
        has_start: sides.start_cell.is_some(),
        has_end: sides.end_cell.is_some(),
    }
}

/// The sides of a chain of which ids are kept.
#[inline(always)]
fn sides_with(pair: SidePair, cells: EndCells) -> ChainSides
    ensures { result ≡ with_cells cells pair }
{
    ChainSides {
        left: side_of(pair.left),
        right: side_of(pair.right),
        start_cell: id_if(cells.has_start, cells.start),
        end_cell: id_if(cells.has_end, cells.end),
    }
}

/// The sides of a chain of which no ids are kept.
#[inline(always)]
fn sides_without(pair: SidePair) -> ChainSides
    ensures { result ≡ without_cells pair }
{
    ChainSides {
        left: side_of(pair.left),
        right: side_of(pair.right),
        start_cell: None,
        end_cell: None,
    }
}

/// The bytes of the id, or zeros where none is given.
fn bytes_or_zeros(id: Option<u64>) -> [u8; 8]
    ensures { given (is_some id) (from_le_bytes w64 result) ≡ id }
{
    id.unwrap_or(0).to_le_bytes()
}

/// The id of these bytes, where one is given.
fn id_if(is_there: bool, bytes: [u8; 8]) -> Option<u64>
    ensures { result ≡ given is_there (from_le_bytes w64 bytes) }
{
    is_there.then_some(u64::from_le_bytes(bytes))
}

/// The number that stands for a side.
fn number_of(side: Side) -> u32
    requires { HasNumber side }
    ensures { side_at result ≡ side }
{
    match side {
        Side::Outside => OUTSIDE,
        Side::Polygon(number) => number,
    }
}

/// What lies on a side that the number stands for.
#[inline(always)]
fn side_of(number: u32) -> Side
    ensures { result ≡ side_at number }
{
    if number == OUTSIDE {
        Side::Outside
    } else {
        Side::Polygon(number)
    }
}
