//! Files that are opened, lent to what reads them, and closed: no other has them, so that each read of them is counted.

ghost use Rattle.std.specs.Prelude.{◌≡◌, ◌⊎◌, ◌+◌, ◌<◌, ℕ, List, Option, None, IfOk, IfErr, IfSome, IfNone, map, option_map, string_bytes, vec_len};
ghost use Rattle.std.specs.Bool.{OnFalse};
ghost use Rattle.tigertopo_files.specs.Files.{bytes_under};
ghost use Rattle.tigertopo_files.specs.Reading.{IsReply, MayFail, SomePassing, Tells, TellsReads};
ghost use Rattle.tigertopo_files.specs.Reading.{all_names, counted_names, failures_in, left_in, single_under, text_under};
ghost use Rattle.tigertopo_files.specs.World.{MayStop, SomeMissing};
ghost use Rattle.tl_cert_output.specs.declared.stop.Stop.{Stop};
ghost use Rattle.tl_cert_output.specs.declared.stop.Stop.TheVariants.{Device};
ghost use Rattle.tl_cert_output.specs.Stops.{StopsFor};

use crate::counting::no_lines;
use crate::joined::Texts;
use crate::opening::{Opener, open_each};
use crate::{Buffered, JoinedSources};
use std::alloc::{AllocError, Global};
use std::marker::Brand;
use std::{io, slice};
use tl_cert_output::Stop;
use tl_record::Source;

// How many bytes of files are read at a time.
const INPUT_BUFFER: usize = 131_072;

/// What is made of files that are read.
pub trait Reading {
    /// What is answered.
    type Answer: Drop;

    // What is true of the answer to files of these texts, where they are known: of several as one text, and of the one that is read by
    // itself.
    ghost answers: { Self → Option (List ℕ) → Option (List ℕ) → Self.Answer → Type 0 };

    // Why there may be none, but for want of memory and for a read that failed.
    ghost stops: { Self → Option (List ℕ) → Option (List ℕ) → Stop → Type 0 };

    /// Reads, and answers.
    fn read<R: Source, S: Source>(
        &self,
        alloc: Global,
        joined: &mut R,
        single: &mut S,
    ) -> Result<Self::Answer, Stop>
        requires fresh { R.failure_count joined.old ≡ 0 }
        requires fresh_single { S.failure_count single.old ≡ 0 }
        ensures answered { IfOk result (answers self.now (R.remaining joined.old) (S.remaining single.old)) }
        ensures stopped { IfErr result (MayStop (stops self.now (R.remaining joined.old) (S.remaining single.old))) }
        // `Device` is answered where a read failed in this call, or as `stops` says, and nowhere else.
        ensures failures { TellsReads (stops self.now (R.remaining joined.old) (S.remaining single.old) Device)
            (R.failure_count joined.new + S.failure_count single.new) result };
}

/// What is answered of files that were read, and how many lines each of several has, if that is asked for, and else no number.
#[derive(Drop)]
pub struct Reply<T> {
    pub answer: T,
    pub line_counts: Vec<u64>,
}

// A source, or none, which has no bytes.
#[derive(Drop)]
struct Single<R> {
    source: Option<R>,
}

impl<R: Source> Source for Single<R> {
    ghost remaining = { λ single. left_in R.remaining single.source };

    ghost failure_count = { λ single. failures_in R.failure_count single.source };

    fn fetch(&mut self, buf: &mut [u8]) -> io::Result<usize> {
        match &mut self.source {
            Some(source) => source.fetch(buf),
            None => Ok(0),
        }
    }

    fn failures(&self) -> u64 {
        match &self.source {
            Some(source) => source.failures(),
            None => 0,
        }
    }
}

/// Opens the files of these names, each once and in their order, and that of `single` behind them, has them read when all are open, and
/// closes them. Where `counts`, the lines of each but `single` are counted, and what the reading left of them is read to its end. A
/// device fails only where the bytes of one aren't known, where reads of such files may fail, or as the reading says.
pub fn read_each<O: Opener, Q: Reading>(
    opener: &O,
    alloc: Global,
    names: &[String],
    single: Option<&String>,
    counts: bool,
    reading: &Q,
) -> Result<Reply<Q::Answer>, Stop>
    ensures { let known = text_under (O.held opener.now) (map string_bytes names.now) in
        let alone = single_under (O.held opener.now) (option_map (λ name. string_bytes name.now) single.entry) in
        Tells (IsReply (Q.answers reading.now known alone) (O.held opener.now) (map string_bytes names.now) counts)
        (Q.stops reading.now known alone)
        (SomeMissing (O.held opener.now) (all_names (map string_bytes names.now) (option_map (λ name. string_bytes name.now) single.entry))
        ⊎ MayFail O.Reader.failure_count) result }
{
    read_texts::<O, Q, Brand>(opener, alloc, names, single, counts, reading)
}

// The same, where `T` has the texts of those whose lines are counted.
fn read_texts<O: Opener, Q: Reading, T: Texts>(
    opener: &O,
    alloc: Global,
    names: &[String],
    single: Option<&String>,
    counts: bool,
    reading: &Q,
) -> Result<Reply<Q::Answer>, Stop>
    requires { T.texts ≡ map (bytes_under (O.held opener.now)) (counted_names counts (map string_bytes names.now)) }
    ensures { let known = text_under (O.held opener.now) (map string_bytes names.now) in
        let alone = single_under (O.held opener.now) (option_map (λ name. string_bytes name.now) single.entry) in
        Tells (IsReply (Q.answers reading.now known alone) (O.held opener.now) (map string_bytes names.now) counts)
        (Q.stops reading.now known alone)
        (SomeMissing (O.held opener.now) (all_names (map string_bytes names.now) (option_map (λ name. string_bytes name.now) single.entry))
        ⊎ MayFail O.Reader.failure_count) result }
{
    let mut joined = open_joined::<O, T>(opener, alloc, names, counts)?;
    let mut alone = open_single(opener, alloc, single)?;
    let answer = reading.read(alloc, &mut joined, &mut alone)?;
    let line_counts = joined.into_source().into_line_counts(alloc)?;
    Ok(Reply {
        answer,
        line_counts,
    })
}

/// Has the files read as [`read_each`] does, where each of them can be read again from its beginning, and else answers
/// `None`.
pub fn read_each_again<O: Opener, Q: Reading>(
    opener: &O,
    alloc: Global,
    names: &[String],
    single: Option<&String>,
    reading: &Q,
) -> Result<Option<Q::Answer>, Stop>
    ensures told { let known = text_under (O.held opener.now) (map string_bytes names.now) in
        let alone = single_under (O.held opener.now) (option_map (λ name. string_bytes name.now) single.entry) in
        Tells (λ found. IfSome found (Q.answers reading.now known alone)) (Q.stops reading.now known alone)
        (SomeMissing (O.held opener.now) (all_names (map string_bytes names.now) (option_map (λ name. string_bytes name.now) single.entry))
        ⊎ MayFail O.Reader.failure_count) result }
    ensures passing { IfOk result (λ found. IfNone found (SomePassing (O.held opener.now)
        (all_names (map string_bytes names.now) (option_map (λ name. string_bytes name.now) single.entry)))) }
{
    if !all_last(opener, names)? {
        return Ok(None);
    }
    if let Some(name) = single {
        if !all_last(opener, slice::from_ref(name))? {
            return Ok(None);
        }
    }
    Ok(Some(read_each(opener, alloc, names, single, false, reading)?.answer))
}

// Whether each of these files can be read again from its beginning.
fn all_last<O: Opener>(opener: &O, names: &[String]) -> Result<bool, Stop>
    ensures passing { IfOk result (λ last. OnFalse last (SomePassing (O.held opener.now) (map string_bytes names.now))) }
    ensures failed { IfErr result (StopsFor (SomeMissing (O.held opener.now) (map string_bytes names.now))) }
{
    for name in names {
        if !opener.lasts(name.as_str())? {
            return Ok(false);
        }
    }
    Ok(true)
}

// The files of these names, opened, as one text. Their lines are counted where `counts`.
fn open_joined<O: Opener, T: Texts>(
    opener: &O,
    alloc: Global,
    names: &[String],
    counts: bool,
) -> Result<Buffered<JoinedSources<O::Reader, T>>, Stop>
    requires { T.texts ≡ map (bytes_under (O.held opener.now)) (counted_names counts (map string_bytes names.now)) }
    ensures bytes { IfOk result (λ joined. ⟦<Buffered<JoinedSources<O::Reader, T>> as Source>⟧.remaining joined
        ≡ text_under (O.held opener.now) (map string_bytes names.now)) }
    ensures fresh { IfOk result (λ joined. ⟦<Buffered<JoinedSources<O::Reader, T>> as Source>⟧.failure_count joined ≡ 0) }
    ensures failed { IfErr result (StopsFor (SomeMissing (O.held opener.now) (map string_bytes names.now))) }
{
    let room = room_for_bytes(alloc)?;
    let files = open_each(opener, alloc, names)?;
    let lines = no_lines(alloc, if counts { files.len() } else { 0 })?;
    Ok(Buffered::new(JoinedSources::new(files, lines), room))
}

// The file of this name, opened, if there is one.
fn open_single<O: Opener>(
    opener: &O,
    alloc: Global,
    name: Option<&String>,
) -> Result<Single<Buffered<O::Reader>>, Stop>
    ensures bytes { IfOk result (λ single. ⟦<Single<Buffered<O::Reader>> as Source>⟧.remaining single
        ≡ single_under (O.held opener.now) (option_map (λ name. string_bytes name.now) name.entry)) }
    ensures fresh { IfOk result (λ single. ⟦<Single<Buffered<O::Reader>> as Source>⟧.failure_count single ≡ 0) }
    ensures failed { IfErr result (StopsFor (single_under (O.held opener.now) (option_map (λ name. string_bytes name.now) name.entry)
        ≡ None)) }
{
    let Some(name) = name else {
        return Ok(Single { source: None });
    };
    let room = room_for_bytes(alloc)?;
    let file = opener.open_one(alloc, name.as_str())?;
    Ok(Single {
        source: Some(Buffered::new(file, room)),
    })
}

// Room for as many bytes as are read at a time.
fn room_for_bytes(alloc: Global) -> Result<Vec<u8>, AllocError>
    ensures { IfOk result (λ room. 0 < vec_len room) }
{
    let mut room = Vec::with_capacity(alloc, INPUT_BUFFER)?;
    room.resize(INPUT_BUFFER, 0)?;
    Ok(room)
}
