//! The records that faults speak of, among those of a county.

ghost use Rattle.std.specs.Prelude.{◌≡◌, [], IfOk, option_copied};
ghost use Rattle.tigertopo_faults.specs.declared.records.subject.Subject.{Subject};
ghost use Rattle.tigertopo_faults.specs.Records.Keeping.{held};
ghost use Rattle.tigertopo_faults.specs.Lines.Speaking.{Speaks};

use crate::lines::places::fault_places;
use crate::records::{KeptLines, RecordLines, wanted_subjects};
use std::alloc::{AllocError, Global};
use std::hash::RandomState;
use tl_check_verdict::MapFault;
use tl_geom::Rational;
use tl_list_text::NotedRecords;
use tl_map_county::Map;

/// What faults speak of, in files.
#[derive(Drop)]
pub struct Spoken {
    /// How many lines each file has; none where they weren't counted.
    pub counts: Vec<u64>,
    /// The records that the faults speak of, with their lines.
    pub lines: RecordLines,
    /// Where the faults lie.
    pub places: Vec<Option<Rational>>,
}

impl Spoken {
    /// Nothing: no file, no record and no place.
    pub fn nothing(alloc: Global, hasher: RandomState) -> Result<Spoken, AllocError>
        ensures counts { IfOk result (λ spoken. spoken.counts.items ≡ []) }
        ensures lines { IfOk result (λ spoken. (s : Subject) → held spoken.lines s ≡ []) }
        ensures places { IfOk result (λ spoken. spoken.places.items ≡ []) }
    {
        let lines = RecordLines::none(alloc, hasher)?;
        Ok(Spoken {
            counts: Vec::new(alloc),
            lines,
            places: Vec::new(alloc),
        })
    }
}

/// Where faults lie on the map, where the records have one, and the records that they speak of, of these records with their lines, in files of
/// so many lines each. The error is that memory was refused.
pub fn speak_of(
    alloc: Global,
    hasher: RandomState,
    counts: Vec<u64>,
    records: &NotedRecords,
    drawn: Option<&Map>,
    faults: &[MapFault],
) -> Result<Spoken, AllocError>
    ensures { IfOk result (Speaks counts.items records.now (option_copied drawn.entry) faults.now) }
{
    let places = fault_places(alloc, hasher, drawn, faults)?;
    let subjects = wanted_subjects(alloc, hasher, drawn, faults)?;
    let mut kept = KeptLines::new(alloc, subjects)?;
    kept.note_all(records)?;
    let lines = RecordLines::of(alloc, kept)?;
    Ok(Spoken {
        counts,
        lines,
        places,
    })
}
