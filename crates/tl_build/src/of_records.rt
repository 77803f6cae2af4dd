//! The decision of records with no certificate given.

ghost use Rattle.std.specs.Prelude.{◌↔◌, IfOk, IfErr};
ghost use Rattle.std.specs.Option.{IfSome};
ghost use Rattle.tl_record.specs.Layout.{tiger_2006, layout_with};
ghost use Rattle.tl_record.specs.Records.{lines_read, records_of};
ghost use Rattle.tl_check_verdict.specs.Sound.{IsSound, IsSoundFor};
ghost use Rattle.tl_check_verdict.specs.Verdicts.{IsReport};
ghost use Rattle.tl_check_verdict.specs.Records.{HaveMap, HaveMapOf, IsTrueOfRecords, IsTrueOfRecordsFor};
ghost use Rattle.tl_check_verdict.specs.Truth.{IsTrueOfMapFor};
ghost use Rattle.tl_build.specs.Auditing.{IfSound, OnSound, IfFaulty, SaysSound, IsMemoryStop, IsNotBudget, MayStopAudit};
ghost use Rattle.tl_cert_output.specs.Stops.{TellsDevice};
ghost use Rattle.tl_build.specs.Keeping.Deciding.{AuditsFor, AuditsRead};

use crate::answer::Audit;
use std::alloc::Global;
use std::hash::RandomState;
use tl_cert_output::Stop;
use tl_check_verdict::{fault_of_records, report};
use tl_decide::{Asked, Depth, decide};
use tl_map::{MapStop, read_map_with};
use tl_map_county::Map;
use tl_record::{Options, PLAIN, Source};

/// Decides whether the map of a county is sound, from the text of its record files alone. Which of several faults is named
/// is open.
///
/// The records are read whole first. [`Stop::Memory`] comes where memory was refused, and [`Stop::Budget`] never.
pub fn audit<R: Source>(alloc: Global, hasher: RandomState, records: &mut R) -> Result<Audit, Stop>
    // The map is sound.
    ensures sound { OnSound result (HaveMapOf (lines_read tiger_2006) (R.remaining records.old) IsSound) }
    // The report has the map's numbers.
    ensures report { IfSound result (λ report. HaveMapOf (lines_read tiger_2006) (R.remaining records.old) (λ m. IsReport m report)) }
    // Each fault is true, and none is of faces.
    ensures fault { IfFaulty result (λ fault. IfSome (R.remaining records.old) (λ text.
        IsTrueOfRecords (lines_read tiger_2006 text) fault)) }
    // If it isn't stopped, it answers `Sound` exactly where the records have a map that is sound, and a fault where not.
    ensures exactly { IfOk result (λ answer. IfSome (R.remaining records.old) (λ text.
        SaysSound answer ↔ HaveMap (lines_read tiger_2006 text) IsSound)) }
    // It stops at the first line that is refused.
    ensures stops { IfErr result (λ stop. IfSome (R.remaining records.old) (λ text.
        MayStopAudit (lines_read tiger_2006 text) stop)) }
    // It has no budget to spend.
    ensures budget { IfErr result IsNotBudget }
    // `Device` is answered where a read failed in this call, and nowhere else.
    ensures failures { TellsDevice (R.failure_count records.old) (R.failure_count records.new) result }
{
    audit_with(alloc, hasher, records, PLAIN)
}

/// Decides whether the map of a county is sound as [`audit`] does, with the columns that the options choose of type I, and where
/// they ask for faces, whether these agree: by one sweep, which tells of faces too. They are asked for only of a map that is sound
/// otherwise.
pub fn audit_with<R: Source>(
    alloc: Global,
    hasher: RandomState,
    records: &mut R,
    options: Options,
) -> Result<Audit, Stop>
    // The map is sound, with zero-cell ids that agree where they are read, and keeps what is asked of its faces.
    ensures sound { OnSound result (HaveMapOf (records_of (layout_with options)) (R.remaining records.old) (IsSoundFor options.faces)) }
    // The report has the map's numbers.
    ensures report { IfSound result (λ report. HaveMapOf (records_of (layout_with options)) (R.remaining records.old) (λ m. IsReport m report)) }
    // Each fault is true; one of faces comes only where they are asked for, and nothing else is wrong with the map.
    ensures fault { IfFaulty result (λ fault. IfSome (R.remaining records.old) (λ text.
        IsTrueOfRecordsFor options.faces (records_of (layout_with options) text) fault)) }
    // If it isn't stopped, it answers `Sound` exactly where the records have such a map, and a fault where not.
    ensures exactly { IfOk result (λ answer. IfSome (R.remaining records.old) (λ text.
        SaysSound answer ↔ HaveMap (records_of (layout_with options) text) (IsSoundFor options.faces))) }
    // It stops at the first line that is refused.
    ensures stops { IfErr result (λ stop. IfSome (R.remaining records.old) (λ text.
        MayStopAudit (records_of (layout_with options) text) stop)) }
    // It has no budget to spend.
    ensures budget { IfErr result IsNotBudget }
    // `Device` is answered where a read failed in this call, and nowhere else.
    ensures failures { TellsDevice (R.failure_count records.old) (R.failure_count records.new) result }
{
    let read = read_map_with(alloc, hasher, records, options);
    audit_read(alloc, read, options.faces)
}

/// Decides of the map that was read of records, or tells why there is none.
fn audit_read(alloc: Global, read: Result<Map, MapStop>, faces: bool) -> Result<Audit, Stop>
    ensures { AuditsRead faces read result }
{
    match read {
        Ok(map) => audit_for(alloc, &map, faces),
        Err(stop) => Ok(Audit::Fault(fault_of_records(stop)?)),
    }
}

/// Decides a map in memory as [`audit_with`] does that of records.
///
/// [`Stop::Memory`] comes where memory was refused, and no other stop does.
pub fn audit_map(alloc: Global, map: &Map, faces: bool) -> Result<Audit, Stop>
    // The map is sound, and keeps what is asked of its faces.
    ensures sound { OnSound result (IsSoundFor faces map.now) }
    // The report has the map's numbers.
    ensures report { IfSound result (IsReport map.now) }
    // Each fault is true; one of faces comes only where they are asked for, and nothing else is wrong with the map.
    ensures fault { IfFaulty result (IsTrueOfMapFor faces map.now) }
    // If it isn't stopped, it answers `Sound` exactly where the map keeps what is asked of it, and a fault where not.
    ensures exactly { IfOk result (λ answer. SaysSound answer ↔ IsSoundFor faces map.now) }
    // It stops for memory alone.
    ensures stops { IfErr result IsMemoryStop }
{
    audit_for(alloc, map, faces)
}

/// The same, with one clause for all that the answer says.
fn audit_for(alloc: Global, map: &Map, faces: bool) -> Result<Audit, Stop>
    ensures { AuditsFor faces map.now result }
{
    let asked = Asked {
        depth: Depth::First,
        faces,
        walks: false,
    };
    let decided = decide(alloc, map, asked)?;
    match decided.faults.first() {
        Some(fault) => Ok(Audit::Fault(*fault)),
        None => Ok(Audit::Sound(report(map, decided.rings))),
    }
}
