//! What is asked of records: files that are read one after the other as one text.

ghost use Rattle.std.specs.Prelude.{ℕ, List, Option, None, IfOk, IfErr, map, option_map, string_bytes};
ghost use Rattle.tigertopo_files.specs.Reading.{IsReply, all_names, single_under, text_under};
ghost use Rattle.tigertopo_files.specs.World.{Does, MayStop, world};
ghost use Rattle.tl_cert_output.specs.declared.stop.Stop.{Stop};
ghost use Rattle.tl_cert_output.specs.Stops.{TellsDevice};

use std::alloc::Global;
use std::hash::RandomState;
use tigertopo_files::{FileSystem, Reading, Reply};
use tl_cert_output::Stop;
use tl_record::Source;

/// What is asked of records.
pub trait Question {
    /// What is answered.
    type Answer: Drop;

    // What is true of the answer to records of this text, where it is known.
    ghost answers: { Self → Option (List ℕ) → Self.Answer → Type 0 };

    // Why there may be none, but for want of memory and for a device that failed.
    ghost stops: { Self → Option (List ℕ) → Stop → Type 0 };

    /// Reads the records and answers.
    fn ask<R: Source>(
        &self,
        alloc: Global,
        hasher: RandomState,
        records: &mut R,
    ) -> Result<Self::Answer, Stop>
        ensures answered { IfOk result (answers self.now (R.remaining records.old)) }
        ensures stopped { IfErr result (MayStop (stops self.now (R.remaining records.old))) }
        // `Device` is answered where a read failed in this call, and nowhere else.
        ensures failures { TellsDevice (R.failure_count records.old) (R.failure_count records.new) result };
}

/// Has files read as [`FileSystem::read`] does, and no lines counted.
pub fn read_files<F: FileSystem, Q: Reading>(
    files: &mut F,
    alloc: Global,
    names: &[String],
    single: Option<&String>,
    reading: &Q,
) -> Result<Q::Answer, Stop>
    ensures { let known = text_under (F.under files.old) (map string_bytes names.now) in
        let alone = single_under (F.under files.old) (option_map (λ name. string_bytes name.now) single.entry) in
        Does (world F.under F.log F.knows files.old files.new)
        (all_names (map string_bytes names.now) (option_map (λ name. string_bytes name.now) single.entry)) None
        (Q.answers reading.now known alone) (Q.stops reading.now known alone) result }
{
    Ok(files.read(alloc, names, single, false, reading)?.answer)
}

/// Has the question answered of the records of the files of these names.
pub fn over_records<F: FileSystem, Q: Question>(
    files: &mut F,
    alloc: Global,
    hasher: RandomState,
    names: &[String],
    question: &Q,
) -> Result<Q::Answer, Stop>
    ensures { Does (world F.under F.log F.knows files.old files.new) (map string_bytes names.now) None
        (Q.answers question.now (text_under (F.under files.old) (map string_bytes names.now)))
        (Q.stops question.now (text_under (F.under files.old) (map string_bytes names.now))) result }
{
    read_files(files, alloc, names, None, &OfRecords { question, hasher })
}

/// Has the question answered as [`over_records`] does, and where `counts`, the lines of each file counted.
pub fn over_records_with<F: FileSystem, Q: Question>(
    files: &mut F,
    alloc: Global,
    hasher: RandomState,
    names: &[String],
    counts: bool,
    question: &Q,
) -> Result<Reply<Q::Answer>, Stop>
    ensures { let known = text_under (F.under files.old) (map string_bytes names.now) in
        Does (world F.under F.log F.knows files.old files.new) (map string_bytes names.now) None
        (IsReply (Q.answers question.now known) (F.under files.old) (map string_bytes names.now) counts)
        (Q.stops question.now known) result }
{
    let asked = OfRecords { question, hasher };
    files.read(alloc, names, None, counts, &asked)
}

// The question, of files that are read.
#[derive(Clone, Copy)]
struct OfRecords<'a, Q> {
    question: &'a Q,
    hasher: RandomState,
}

impl<Q: Question> Reading for OfRecords<'_, Q> {
    type Answer = Q::Answer;

    ghost answers = { λ asked known single. Q.answers asked.question.now known };

    ghost stops = { λ asked known single. Q.stops asked.question.now known };

    fn read<R: Source, S: Source>(
        &self,
        alloc: Global,
        joined: &mut R,
        _single: &mut S,
    ) -> Result<Q::Answer, Stop> {
        self.question.ask(alloc, self.hasher, joined)
    }
}
