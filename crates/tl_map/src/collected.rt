//! Records that are collected one after the other, by a caller that has more to do with each of them.

use crate::areas::AreaRecords;
use crate::build_map::build_map;
use crate::collect::Collected;
use crate::lacking::lacking_where;
use crate::left::faults_of;
use crate::no_map::NoMap;
use std::alloc::{AllocError, Global};
use std::hash::RandomState;
use tl_map_county::Map;
use tl_map_rules::{Lacking, RecordFault};
use tl_record::Record;

/// The records of a county up to some place, and what is kept of them until the map is built.
///
/// [`crate::read_map`] reads a text whole and makes its map. Who has to see each record, or to go on behind a line that
/// is refused, reads the records and hands each of them to this.
#[derive(Drop)]
pub struct CollectedRecords {
    lines: Collected,
    areas: AreaRecords,
}

impl CollectedRecords {
    ghost use Rattle.std.specs.Prelude.{◌≡◌, ◌∷◌, [], ◌++◌, List, OnOk, IfOk, IfErr};
    ghost use Rattle.tl_record.specs.declared.record.Record.{Record};
    ghost use Rattle.tl_map_rules.specs.Lacking.{lacking_where};
    ghost use Rattle.tl_map_rules.specs.Listing.AllFaults.{AreAllFaults};
    ghost use Rattle.tl_map.specs.Collecting.{HasCollected, IsMapOfRecords, StopsOn};

    /// No record.
    pub fn new(alloc: Global) -> CollectedRecords
        ensures { HasCollected [] result }
    {
        CollectedRecords {
            lines: Collected::new(alloc),
            areas: AreaRecords::new(alloc),
        }
    }

    /// Collects one more record. An error says that memory was refused.
    pub fn add(&mut self, next: &Record) -> Result<(), AllocError>
        ensures { (rs : List Record) → HasCollected rs self.old →
            OnOk result (HasCollected (rs ++ next.now ∷ []) self.new) }
    {
        self.lines.add(next)?;
        self.areas.add(next)
    }

    /// Of which of the types 1, I and P no record was collected, where some of each is asked for.
    pub fn lacking(&self, asked: bool) -> Lacking
        ensures { (rs : List Record) → HasCollected rs self.now → result ≡ lacking_where asked rs }
    {
        lacking_where(asked, &self.lines, &self.areas)
    }

    /// The map of the records, of whose text so many lines were passed over. `hasher` is that of [`crate::read_map`].
    pub fn build(self, alloc: Global, hasher: RandomState, skipped: u64) -> Result<Map, NoMap>
        // It has collected some records.
        requires { (rs : List Record) × HasCollected rs self }
        // The map is theirs, and no fault is true of them.
        ensures map { (rs : List Record) → HasCollected rs self → IfOk result (IsMapOfRecords rs skipped) }
        // Memory was refused, or these are all of their faults, and there are some.
        ensures stops { (rs : List Record) → HasCollected rs self → IfErr result (StopsOn rs) }
    {
        build_map(alloc, hasher, self.lines, self.areas, skipped)
    }

    /// All faults of the records, by their codes and then by their numbers. An error says that memory was refused.
    pub fn faults(self, alloc: Global) -> Result<Vec<RecordFault>, AllocError>
        requires { (rs : List Record) × HasCollected rs self }
        ensures { (rs : List Record) → HasCollected rs self → IfOk result (λ faults. AreAllFaults rs faults.items) }
    {
        faults_of(alloc, self.lines, self.areas)
    }
}
