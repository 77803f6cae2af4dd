//! Reads records once, and keeps them for their map or their faults.

ghost use Rattle.std.specs.Prelude.{◌≡◌, ⊤, IfOk, IfErr, OnOk, true};
ghost use Rattle.tl_record.specs.declared.reader.Standing.TheVariants.{Reading};
ghost use Rattle.tl_record.specs.Reader.{source_of, standing_of, lines_of, refusals_to_come, unjudged};
ghost use Rattle.tl_record.specs.Leaving.{left_to_come};
ghost use Rattle.tl_record.specs.Searching.{goes_on};
ghost use Rattle.tl_record.specs.Leaving.{MayPass};
ghost use Rattle.tl_cert_output.specs.Stops.{StopsFor, TellsDevice};
ghost use Rattle.std.specs.Prelude.{List};
ghost use Rattle.tl_record.specs.declared.record.Record.{Record};
ghost use Rattle.tl_map.specs.Joined.Told.{HasTold, joined_records};
ghost use Rattle.tl_map.specs.Collecting.{HasCollected};
ghost use Rattle.tl_list.specs.Keeping.Reading.{ListsFrom, MayTake, MayRead, TakesOne, taken_if};
ghost use Rattle.tl_list.specs.Keeping.Noting.{NotesFronts, NotesRecords, NotesOne};

use crate::noted::{NotedLines, front_noted};
use std::alloc::{AllocError, Global};
use tl_cert_output::Stop;
use tl_map::CollectedRecords;
use tl_map::joined::ToldRecords;
use tl_map_rules::listing::refusals::list_refusals;
use tl_record::{NO_RECORD, ReadStop, Record, RecordReader, Refusal, RefusalStop, Source};

/// Records as they come, kept; or all of them until they are joined.
#[derive(Drop)]
pub enum Taken {
    Kept(CollectedRecords),
    Told(ToldRecords),
}

impl Taken {
    ghost use Rattle.std.specs.Prelude.{Bool, ◌∷◌, [], ◌++◌, OnOk};
    ghost use Rattle.tl_list.specs.Keeping.Reading.{Takes, joined_if};

    /// No record.
    fn new(alloc: Global, joins: bool) -> Taken
        ensures { Takes joins [] result }
    {
        if joins {
            Taken::Told(ToldRecords::new(alloc))
        } else {
            Taken::Kept(CollectedRecords::new(alloc))
        }
    }

    /// Takes one more record. An error says that memory was refused.
    fn add(&mut self, next: &Record) -> Result<(), AllocError>
        ensures { (joins : Bool) (rs : List Record) → Takes joins rs self.old →
            OnOk result (Takes joins (rs ++ next.now ∷ []) self.new) }
    {
        match self {
            Taken::Kept(kept) => kept.add(next),
            Taken::Told(told) => told.add(next),
        }
    }

    /// All records kept, with each chain that is told twice once, where they are joined.
    fn keep(self, alloc: Global) -> Result<CollectedRecords, AllocError>
        // It has taken some records.
        requires { (joins : Bool) × ((rs : List Record) × Takes joins rs self) }
        ensures { (joins : Bool) (rs : List Record) → Takes joins rs self → IfOk result (HasCollected (joined_if joins rs)) }
    {
        match self {
            Taken::Kept(kept) => Ok(kept),
            Taken::Told(told) => keep_joined(alloc, told),
        }
    }
}

/// Records with each chain that is told twice once, kept.
fn keep_joined(alloc: Global, told: ToldRecords) -> Result<CollectedRecords, AllocError>
    requires { (rs : List Record) × HasTold rs told }
    ensures { (rs : List Record) → HasTold rs told → IfOk result (HasCollected (joined_records rs)) }
{
    let joined = told.join(alloc)?;
    let mut kept = CollectedRecords::new(alloc);
    for next in &joined {
        kept.add(next)?;
    }
    Ok(kept)
}

/// Takes one more record, where records are still taken, and notes it with its line's number where that is asked. An error says that memory was
/// refused.
fn take_record(
    taken: &mut Option<Taken>,
    noted: &mut NotedLines,
    notes: bool,
    line: u64,
    next: &Record,
) -> Result<(), AllocError>
    ensures taken { OnOk result (TakesOne taken.old taken.new next.now) }
    ensures noted { OnOk result (NotesOne notes taken.old noted.old.records noted.new.records (line, next.now)) }
    ensures fronts { noted.new.fronts ≡ noted.old.fronts }
{
    let Some(kept) = taken else {
        return Ok(());
    };
    kept.add(next)?;
    if notes {
        noted.records.push(line, next)?;
    }
    Ok(())
}

/// What was taken of records, behind a refused line: it is kept only where such lines are skipped.
fn taken_if(skips: bool, taken: Option<Taken>) -> Option<Taken>
    ensures { result ≡ taken_if skips taken }
{
    if skips { taken } else { None }
}

/// Passes over the refused line at which a reader stopped, if it isn't one beyond the greatest number.
fn pass_refused<R: Source>(reader: &mut RecordReader<R>) -> Result<bool, Stop>
    ensures passes { IfOk result (λ passed. MayPass R.remaining reader.old reader.new (Ok passed)) }
    ensures stops { IfErr result (StopsFor ⊤) }
    ensures failures { TellsDevice (R.failure_count (source_of reader.old))
        (R.failure_count (source_of reader.new)) result }
    ensures same_reference { R.reference (source_of reader.new) ≡ R.reference (source_of reader.old) }
{
    match reader.pass_refused() {
        Ok(passed) => Ok(passed),
        Err(RefusalStop::Device) => Err(Stop::Device),
        // No memory holds the records of a text that has no end.
        Err(RefusalStop::Endless) => Err(Stop::Memory),
    }
}

/// Lists behind these lines the refused one at which a reader stopped, and all behind it.
fn list_from<R: Source>(
    refused: Vec<Refusal>,
    first: Refusal,
    reader: &mut RecordReader<R>,
) -> Result<Vec<Refusal>, Stop>
    requires { goes_on (standing_of reader.old) ≡ true }
    ensures lists { IfOk result (λ all. ListsFrom refused.items first (refusals_to_come R.remaining reader.old) all.items) }
    ensures stops { IfErr result (StopsFor ⊤) }
    ensures failures { TellsDevice (R.failure_count (source_of reader.old))
        (R.failure_count (source_of reader.new)) result }
    ensures same_reference { R.reference (source_of reader.new) ≡ R.reference (source_of reader.old) }
{
    let mut all = refused;
    all.push(first)?;
    // The reader gives that line first.
    match reader.next_refusal() {
        Ok(Some(_)) => list_refusals(all, reader),
        Ok(None) => Ok(all),
        Err(RefusalStop::Device) => Err(Stop::Device),
        Err(RefusalStop::Endless) => Err(Stop::Memory),
    }
}

/// Lines that are refused, what was noted of lines, and what was taken of records; that is nothing where a refused line isn't skipped.
#[derive(Drop)]
struct LinesTaken {
    refused: Vec<Refusal>,
    noted: NotedLines,
    taken: Option<Taken>,
}

/// Takes all records that a reader has to give, and lists the lines that are refused; where one isn't skipped, these alone. Of lines is noted
/// what is asked.
fn take_all<R: Source>(
    alloc: Global,
    reader: &mut RecordReader<R>,
    joins: bool,
    skips: bool,
    notes: bool,
) -> Result<LinesTaken, Stop>
    requires reads { standing_of reader.old ≡ Reading }
    requires first { lines_of reader.old ≡ 0 }
    ensures read { IfOk result (λ lines. MayTake joins skips R.remaining reader.old reader.new lines.refused.items lines.taken) }
    ensures fronts { IfOk result (λ lines. NotesFronts notes (unjudged R.remaining reader.old) lines.refused.items lines.noted.fronts.items) }
    ensures records { IfOk result (λ lines. NotesRecords notes (left_to_come R.remaining reader.old) lines.taken lines.noted.records) }
    ensures stops { IfErr result (StopsFor ⊤) }
    ensures failures { TellsDevice (R.failure_count (source_of reader.old))
        (R.failure_count (source_of reader.new)) result }
    ensures same_reference { R.reference (source_of reader.new) ≡ R.reference (source_of reader.old) }
{
    let mut taken = Some(Taken::new(alloc, joins));
    let mut noted = NotedLines::new(alloc);
    let mut refused = Vec::new(alloc);
    let mut next = NO_RECORD;
    'lines: loop {
        match reader.read_next(&mut next) {
            Ok(Some(line)) => take_record(&mut taken, &mut noted, notes, line, &next)?,
            Ok(None) => {
                return Ok(LinesTaken {
                    refused,
                    noted,
                    taken,
                });
            }
            Err(ReadStop::Refused { line, cause }) => {
                let refusal = Refusal { line, cause };
                let front = front_noted(alloc, notes, reader.refused_line())?;
                taken = taken_if(skips, taken);
                if !pass_refused(reader)? {
                    drop(taken);
                    let refused = list_from(refused, refusal, reader)?;
                    noted.end_fronts(alloc, notes, refused.as_slice())?;
                    return Ok(LinesTaken {
                        refused,
                        noted,
                        taken: None,
                    });
                }
                refused.push(refusal)?;
                noted.add_front(notes, front)?;
            }
            Err(ReadStop::Device) => return Err(Stop::Device),
        }
    }
}

/// Lines that are refused, what is noted of lines, and what is kept of records; that is nothing where a refused line isn't skipped.
#[derive(Drop)]
pub struct LinesRead {
    pub refused: Vec<Refusal>,
    pub noted: NotedLines,
    pub kept: Option<CollectedRecords>,
}

/// Keeps all records that a reader has to give, joined where that is asked, and lists all lines that are refused. Where these aren't skipped,
/// or one is beyond the greatest number, none of the records is kept. Of lines is noted what is asked.
pub fn read_all<R: Source>(
    alloc: Global,
    reader: &mut RecordReader<R>,
    joins: bool,
    skips: bool,
    notes: bool,
) -> Result<LinesRead, Stop>
    requires reads { standing_of reader.old ≡ Reading }
    requires first { lines_of reader.old ≡ 0 }
    ensures read { IfOk result (λ lines. MayRead joins skips R.remaining reader.old reader.new lines.refused.items lines.kept) }
    ensures fronts { IfOk result (λ lines. NotesFronts notes (unjudged R.remaining reader.old) lines.refused.items lines.noted.fronts.items) }
    ensures records { IfOk result (λ lines. NotesRecords notes (left_to_come R.remaining reader.old) lines.kept lines.noted.records) }
    ensures stops { IfErr result (StopsFor ⊤) }
    ensures failures { TellsDevice (R.failure_count (source_of reader.old))
        (R.failure_count (source_of reader.new)) result }
    ensures same_reference { R.reference (source_of reader.new) ≡ R.reference (source_of reader.old) }
{
    let LinesTaken {
        refused,
        noted,
        taken,
    } = take_all(alloc, reader, joins, skips, notes)?;
    match taken {
        Some(taken) => {
            let kept = taken.keep(alloc)?;
            Ok(LinesRead {
                refused,
                noted,
                kept: Some(kept),
            })
        }
        None => Ok(LinesRead {
            refused,
            noted,
            kept: None,
        }),
    }
}
