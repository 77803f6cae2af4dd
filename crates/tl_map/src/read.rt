//! Chains and maps from the bytes of record files.

ghost use Rattle.std.specs.Prelude.{◌≡◌, List, IfOk, IfErr, IfSome};
ghost use Rattle.std.specs.Option.{option_map};
ghost use Rattle.tl_record.specs.declared.record.Record.{Record};
ghost use Rattle.tl_record.specs.declared.reader.Standing.TheVariants.{Reading};
ghost use Rattle.tl_record.specs.Layout.{tiger_2006, layout_with};
ghost use Rattle.tl_record.specs.Records.{lines_read, records_of, joined_where};
ghost use Rattle.tl_record.specs.Reader.{source_of, skipped_of, standing_of, outcome};
ghost use Rattle.tl_map_rules.specs.Reading.{AreReadFrom, IsReadFrom, StopsReading, IfFault, TellsDevice};
ghost use Rattle.tl_map_rules.specs.Faults.{IsFaultOfChains};
ghost use Rattle.tl_map.specs.Keeping.Gathering.{Gathers, GathersAll, GathersTold, CollectsAll, StopsGathering};
ghost use Rattle.tl_map.specs.Joined.Told.{HasTold, joined_records};

use crate::areas::AreaRecords;
use crate::build::chains_or_fault;
use crate::build_map::build_map;
use crate::collect::Collected;
use crate::joined::ToldRecords;
use crate::lacking::lacking_where;
use crate::no_map::first_told;
use std::alloc::{AllocError, Global};
use std::hash::RandomState;
use tl_map_county::{Chains, Map};
use tl_map_rules::MapStop;
use tl_record::{NO_RECORD, Options, PLAIN, RecordReader, Source};

/// Collects all records that a reader has to give.
fn collect_records<R: Source>(
    alloc: Global,
    reader: &mut RecordReader<R>,
) -> Result<Collected, MapStop>
    requires { standing_of reader.old ≡ Reading }
    ensures all { IfOk result (Gathers (outcome R.remaining reader.old) (skipped_of reader.new)) }
    ensures stops { IfErr result (StopsGathering (outcome R.remaining reader.old)) }
    ensures failures { TellsDevice (R.failure_count (source_of reader.old))
        (R.failure_count (source_of reader.new)) result }
    ensures same_reference { R.reference (source_of reader.new) ≡ R.reference (source_of reader.old) }
{
    let mut collected = Collected::new(alloc);
    let mut next = NO_RECORD;
    'records: loop {
        match reader.read_next(&mut next) {
            Ok(Some(_)) => collected.add(&next)?,
            Ok(None) => return Ok(collected),
            Err(stop) => return Err(MapStop::from(stop)),
        }
    }
}

/// Collects all records that a reader has to give, those of the types I, P, 7 and 8 too.
fn collect_all<R: Source>(
    alloc: Global,
    reader: &mut RecordReader<R>,
) -> Result<(Collected, AreaRecords), MapStop>
    requires { standing_of reader.old ≡ Reading }
    ensures all { IfOk result (λ made.
        GathersAll (outcome R.remaining reader.old) (skipped_of reader.new) made.0 made.1) }
    ensures stops { IfErr result (StopsGathering (outcome R.remaining reader.old)) }
    ensures failures { TellsDevice (R.failure_count (source_of reader.old))
        (R.failure_count (source_of reader.new)) result }
    ensures same_reference { R.reference (source_of reader.new) ≡ R.reference (source_of reader.old) }
{
    let mut collected = Collected::new(alloc);
    let mut areas = AreaRecords::new(alloc);
    let mut next = NO_RECORD;
    'records: loop {
        match reader.read_next(&mut next) {
            Ok(Some(_)) => {
                collected.add(&next)?;
                areas.add(&next)?;
            }
            Ok(None) => return Ok((collected, areas)),
            Err(stop) => return Err(MapStop::from(stop)),
        }
    }
}

/// Keeps all records that a reader has to give, until they are joined.
fn collect_told<R: Source>(
    alloc: Global,
    reader: &mut RecordReader<R>,
) -> Result<ToldRecords, MapStop>
    requires { standing_of reader.old ≡ Reading }
    ensures all { IfOk result (GathersTold (outcome R.remaining reader.old) (skipped_of reader.new)) }
    ensures stops { IfErr result (StopsGathering (outcome R.remaining reader.old)) }
    ensures failures { TellsDevice (R.failure_count (source_of reader.old))
        (R.failure_count (source_of reader.new)) result }
    ensures same_reference { R.reference (source_of reader.new) ≡ R.reference (source_of reader.old) }
{
    let mut told = ToldRecords::new(alloc);
    let mut next = NO_RECORD;
    'records: loop {
        match reader.read_next(&mut next) {
            Ok(Some(_)) => told.add(&next)?,
            Ok(None) => return Ok(told),
            Err(stop) => return Err(MapStop::from(stop)),
        }
    }
}

/// Collects kept records with each chain that is told twice once.
fn collect_joined(alloc: Global, told: ToldRecords) -> Result<(Collected, AreaRecords), AllocError>
    // It has kept some records.
    requires { (rs : List Record) × HasTold rs told }
    ensures { (rs : List Record) → HasTold rs told → IfOk result (CollectsAll (joined_records rs)) }
{
    let joined = told.join(alloc)?;
    let mut collected = Collected::new(alloc);
    let mut areas = AreaRecords::new(alloc);
    for next in &joined {
        collected.add(next)?;
        areas.add(next)?;
    }
    Ok((collected, areas))
}

/// Collects all records that a reader has to give as [`collect_all`] does, joined where that is asked.
fn collect_asked<R: Source>(
    alloc: Global,
    reader: &mut RecordReader<R>,
    joins: bool,
) -> Result<(Collected, AreaRecords), MapStop>
    requires { standing_of reader.old ≡ Reading }
    ensures all { IfOk result (λ made.
        GathersAll (option_map (joined_where joins) (outcome R.remaining reader.old)) (skipped_of reader.new) made.0 made.1) }
    ensures stops { IfErr result (StopsGathering (option_map (joined_where joins) (outcome R.remaining reader.old))) }
    ensures failures { TellsDevice (R.failure_count (source_of reader.old))
        (R.failure_count (source_of reader.new)) result }
    ensures same_reference { R.reference (source_of reader.new) ≡ R.reference (source_of reader.old) }
{
    if !joins {
        return collect_all(alloc, reader);
    }
    let told = collect_told(alloc, reader)?;
    let made = collect_joined(alloc, told)?;
    Ok(made)
}

/// Collects all chains that a reader has to give as [`collect_records`] does, joined where that is asked.
fn collect_chains<R: Source>(
    alloc: Global,
    reader: &mut RecordReader<R>,
    joins: bool,
) -> Result<Collected, MapStop>
    requires { standing_of reader.old ≡ Reading }
    ensures all { IfOk result
        (Gathers (option_map (joined_where joins) (outcome R.remaining reader.old)) (skipped_of reader.new)) }
    ensures stops { IfErr result (StopsGathering (option_map (joined_where joins) (outcome R.remaining reader.old))) }
    ensures failures { TellsDevice (R.failure_count (source_of reader.old))
        (R.failure_count (source_of reader.new)) result }
    ensures same_reference { R.reference (source_of reader.new) ≡ R.reference (source_of reader.old) }
{
    if !joins {
        return collect_records(alloc, reader);
    }
    let (collected, areas) = collect_asked(alloc, reader, joins)?;
    drop(areas);
    Ok(collected)
}

/// Reads the chains of a county from the text of its record files, types 1 and 2, by the columns of [`Options`]'s
/// default.
///
/// All lines are read before a fault of the records is answered.
pub fn read_chains<R: Source>(alloc: Global, records: &mut R) -> Result<Chains, MapStop>
    // Where the bytes are known: the chains of their records, where no line is refused and no fault is true.
    ensures chains { IfOk result (λ c. IfSome (R.remaining records.old)
        (λ text. AreReadFrom (lines_read tiger_2006 text) c)) }
    // The first refused line, or where there is none, a fault that is true.
    ensures stops { IfErr result (λ stop. IfSome (R.remaining records.old)
        (λ text. StopsReading (lines_read tiger_2006 text) stop)) }
    // A fault that is answered is one of the chains.
    ensures of_chains { IfErr result (IfFault IsFaultOfChains) }
    // `Device` is answered where a read failed in this call, and nowhere else.
    ensures failures { TellsDevice (R.failure_count records.old) (R.failure_count records.new) result }
{
    read_chains_with(alloc, records, PLAIN)
}

/// Reads the chains of a county as [`read_chains`] does, with the columns that the options choose of type I.
pub fn read_chains_with<R: Source>(
    alloc: Global,
    records: &mut R,
    options: Options,
) -> Result<Chains, MapStop>
    ensures chains { IfOk result (λ c. IfSome (R.remaining records.old)
        (λ text. AreReadFrom (records_of (layout_with options) text) c)) }
    ensures stops { IfErr result (λ stop. IfSome (R.remaining records.old)
        (λ text. StopsReading (records_of (layout_with options) text) stop)) }
    ensures of_chains { IfErr result (IfFault IsFaultOfChains) }
    ensures failures { TellsDevice (R.failure_count records.old) (R.failure_count records.new) result }
{
    let mut reader = RecordReader::with(records, options);
    let collected = collect_chains(alloc, &mut reader, options.join)?;
    chains_or_fault(alloc, collected, reader.skipped())
}

/// Reads the map of a county from the text of its record files, by the columns of [`Options`]'s default.
///
/// All lines are read before a fault of the records is answered. `hasher` has the keys by which polygons and landmarks
/// are hashed: with random ones nobody can make a file whose look-ups are slow.
pub fn read_map<R: Source>(
    alloc: Global,
    hasher: RandomState,
    records: &mut R,
) -> Result<Map, MapStop>
    // Where the bytes are known: the map of their records, where no line is refused and no fault is true. It is the same
    // whatever the keys are.
    ensures map { IfOk result (λ m. IfSome (R.remaining records.old)
        (λ text. IsReadFrom (lines_read tiger_2006 text) m)) }
    // The first refused line, or where there is none, a fault that is true.
    ensures stops { IfErr result (λ stop. IfSome (R.remaining records.old)
        (λ text. StopsReading (lines_read tiger_2006 text) stop)) }
    // `Device` is answered where a read failed in this call, and nowhere else.
    ensures failures { TellsDevice (R.failure_count records.old) (R.failure_count records.new) result }
{
    read_map_with(alloc, hasher, records, PLAIN)
}

/// Reads the map of a county as [`read_map`] does, with the columns that the options choose of type I. Where they ask for records of each
/// of the types 1, I and P and there are none of some, that is why there is no map, whatever fault the records have.
pub fn read_map_with<R: Source>(
    alloc: Global,
    hasher: RandomState,
    records: &mut R,
    options: Options,
) -> Result<Map, MapStop>
    ensures map { IfOk result (λ m. IfSome (R.remaining records.old)
        (λ text. IsReadFrom (records_of (layout_with options) text) m)) }
    ensures stops { IfErr result (λ stop. IfSome (R.remaining records.old)
        (λ text. StopsReading (records_of (layout_with options) text) stop)) }
    ensures failures { TellsDevice (R.failure_count records.old) (R.failure_count records.new) result }
{
    let mut reader = RecordReader::with(records, options);
    let (collected, areas) = collect_asked(alloc, &mut reader, options.join)?;
    let lacking = lacking_where(options.complete, &collected, &areas);
    if lacking.is_some() {
        return Err(MapStop::NoRecords(lacking));
    }
    first_told(build_map(alloc, hasher, collected, areas, reader.skipped()))
}
