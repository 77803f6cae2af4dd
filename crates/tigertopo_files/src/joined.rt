//! Several sources as one.

ghost use Rattle.std.specs.Prelude.{◌≡◌, ◌+◌, ◌<◌, ◌≤◌, false, List, ℕ, Option, Some, IfOk, IfErr, MatchResult, map, drop, take, length};
ghost use Rattle.std.specs.Prelude.{vec_len};
ghost use Rattle.std.specs.Io.{ReadsAtMost};
ghost use Rattle.std.specs.Io.KnownBytes.{Consumes, Keeps};
ghost use Rattle.tl_record.specs.Failures.{CountsRead};
ghost use Rattle.tl_record.specs.Lines.{raw_lines};
ghost use Rattle.tl_cert_output.specs.Stops.{StopsFor};
ghost use Rattle.tigertopo_files.specs.Counting.{AreCounted, AreCounted-prop};
ghost use Rattle.tigertopo_files.specs.Joining.{joined, joined_bytes, failures_of};
ghost use Rattle.tigertopo_files.specs.Reading.{MayFail};

use crate::counting::{LineCount, count_at, count_rest, lines_of_each};
use std::alloc::Global;
use std::io;
use std::marker::{Brand, PhantomData};
use tl_cert_output::Stop;
use tl_record::Source;

/// The texts whose lines are counted, each where its bytes are known. A call picks them.
pub trait Texts {
    ghost texts: { List (Option (List ℕ)) };
}

impl Texts for Brand {
    ghost use Rattle.std.specs.Prelude.{[]};

    ghost texts = { [] };
}

/// A source over a list of sources, which gives their bytes one after the other. After one that gave bytes, of which the
/// last is no LF, it puts an LF, so that no line runs from one file into the next. Its failures are those of all.
///
/// Where lines are counted, the sources give the texts of `T`, and it counts the lines of each.
#[derive(Drop)]
pub struct JoinedSources<R: Source, T: Texts> {
    readers: Vec<R>,
    // The reader that is read now.
    place: usize,
    // The reader that is read now gave bytes, of which the last is no LF.
    is_open: bool,
    // How many lines each reader gave so far, if they are counted.
    counts: Vec<LineCount>,
    of: PhantomData<T>,
    ghost within: { place ≤ vec_len readers },
    ghost counted: { AreCounted R.remaining T.texts place readers.items counts.items } by { AreCounted-prop R.remaining T.texts place readers.items counts.items },
}

impl<R: Source, T: Texts> JoinedSources<R, T> {
    /// A source of what these give, from the first to the last. A count of no byte is given for each whose lines are counted.
    pub fn new(readers: Vec<R>, counts: Vec<LineCount>) -> JoinedSources<R, T>
        requires { AreCounted R.remaining T.texts 0 readers.items counts.items }
        ensures known { (texts : List (List ℕ)) → map R.remaining readers.items ≡ map Some texts
            → ⟦<JoinedSources<R, T> as Source>⟧.remaining result ≡ Some (joined texts) }
        ensures bytes { ⟦<JoinedSources<R, T> as Source>⟧.remaining result
            ≡ joined_bytes R.remaining false readers.items }
        ensures failures { ⟦<JoinedSources<R, T> as Source>⟧.failure_count result
            ≡ failures_of R.failure_count readers.items }
    {
        JoinedSources {
            readers,
            place: 0,
            is_open: false,
            counts,
            of: PhantomData,
        }
    }

    // One read of the reader that is read now. Where it is at its end, the next one is read from here on, and the LF
    // that its last line lacks is given.
    fn step(&mut self, buf: &mut [u8]) -> io::Result<usize>
        requires room { 0 < length buf.old }
        requires left { self.old.place < vec_len self.old.readers }
        ensures bound { ReadsAtMost result buf.new }
        ensures bytes { MatchResult result
            (λ n. Consumes (joined_bytes R.remaining self.old.is_open (drop self.old.place self.old.readers.items))
            (joined_bytes R.remaining self.new.is_open (drop self.new.place self.new.readers.items)) (take n buf.new))
            (λ _. Keeps (joined_bytes R.remaining self.old.is_open (drop self.old.place self.old.readers.items))
            (joined_bytes R.remaining self.new.is_open (drop self.new.place self.new.readers.items))) }
        ensures next { MatchResult result
            (λ n. n ≡ 0 → self.new.place ≡ self.old.place + 1)
            (λ _. self.new.place ≡ self.old.place) }
        ensures readers { vec_len self.new.readers ≡ vec_len self.old.readers }
        ensures failures { CountsRead (failures_of R.failure_count self.old.readers.items)
            (failures_of R.failure_count self.new.readers.items) result }
    {
        let count = self.readers[self.place].fetch(buf)?;
        if count > 0 {
            count_at(&mut self.counts, self.place, &buf[..count]);
            self.is_open = buf[count - 1] != b'\n';
            return Ok(count);
        }
        self.place += 1;
        if self.is_open {
            self.is_open = false;
            buf[0] = b'\n';
            return Ok(1);
        }
        Ok(0)
    }
}

impl<R: Source + Drop, T: Texts> JoinedSources<R, T> {
    /// How many lines each source has, if they are counted, and else no number. What they have left is read to their ends.
    pub fn into_line_counts(self, alloc: Global) -> Result<Vec<u64>, Stop>
        ensures counts { IfOk result (λ lines. (texts : List (List ℕ)) → T.texts ≡ map Some texts
            → lines.items ≡ map (λ text. length (raw_lines text)) texts) }
        ensures stop { IfErr result (StopsFor (MayFail R.failure_count)) }
    {
        let JoinedSources {
            mut readers,
            place,
            mut counts,
            ..
        } = self;
        for at in place..counts.len() {
            counts[at] = count_rest(&mut readers[at], counts[at])?;
        }
        Ok(lines_of_each(alloc, &counts)?)
    }
}

impl<R: Source, T: Texts> Source for JoinedSources<R, T> {
    ghost remaining = { λ j. joined_bytes R.remaining j.is_open (drop j.place j.readers.items) };

    ghost failure_count = { λ j. failures_of R.failure_count j.readers.items };

    fn fetch(&mut self, buf: &mut [u8]) -> io::Result<usize> {
        if buf.is_empty() {
            return Ok(0);
        }
        while self.place < self.readers.len() {
            let count = self.step(buf)?;
            if count > 0 {
                return Ok(count);
            }
        }
        Ok(0)
    }

    fn failures(&self) -> u64 {
        let mut failures: u64 = 0;
        for reader in &self.readers {
            failures = failures.saturating_add(reader.failures());
        }
        failures
    }
}
