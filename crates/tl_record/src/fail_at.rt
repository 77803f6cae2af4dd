//! A source that fails at one call, for tests of what stands after a failure.

ghost use Rattle.std.specs.Prelude.{◌≡◌, true, false, Some, MatchResult};
ghost use Rattle.std.specs.Io.{ReadsAtMost};
ghost use Rattle.std.specs.Io.KnownBytes.{ReadConsumes};
ghost use Rattle.tl_record.specs.Failures.{CountsRead};
ghost use Rattle.std.specs.IoError.{error_kind};
ghost use Rattle.tl_record.specs.FailAt.{with_own, CountsDown};

use crate::source::Source;
use std::io;
use std::io::{Error, ErrorKind};

/// A [`Source`] over another one, which answers an error at one call alone; every other call goes to the other one.
#[derive(Drop)]
pub struct FailAt<R> {
    source: R,
    /// The kind of the error that it answers at that call.
    pub kind: ErrorKind,
    calls_before: Option<u64>,
}

/// Counts one call: is it the one that fails?
pub fn count_down(calls_before: &mut Option<u64>) -> bool
    ensures { CountsDown calls_before.old calls_before.new (result ≡ true) (result ≡ false) }
{
    match *calls_before {
        None => false,
        Some(0) => {
            *calls_before = None;
            true
        }
        Some(calls) => {
            *calls_before = Some(calls - 1);
            false
        }
    }
}

/// The failures of what answers else, and the one of its own once it was made.
pub fn count_with_own(calls_before: Option<u64>, failures: u64) -> u64
    ensures { result ≡ with_own calls_before failures }
{
    match calls_before {
        None => failures.saturating_add(1),
        Some(_) => failures,
    }
}

impl<R: Source> FailAt<R> {
    ghost use Rattle.tl_record.specs.FailAt.{source_of, reads_before};

    /// A source that answers an error of this kind at the read that comes behind so many others.
    pub fn new(source: R, others: u64, kind: ErrorKind) -> FailAt<R>
        ensures source { source_of result ≡ source }
        ensures turn { reads_before result ≡ Some others }
        ensures kind { result.kind ≡ kind }
        ensures bytes { ⟦<FailAt<R> as Source>⟧.remaining result ≡ R.remaining source }
        ensures failures { ⟦<FailAt<R> as Source>⟧.failure_count result ≡ R.failure_count source }
    {
        FailAt {
            source,
            kind,
            calls_before: Some(others),
        }
    }

    /// How many reads come before the one that fails; `None` where that one was made.
    pub fn reads_before(&self) -> Option<u64>
        ensures { result ≡ reads_before self.now }
    {
        self.calls_before
    }
}

impl<R: Source> Source for FailAt<R> {
    ghost use Rattle.tl_record.specs.FailAt.{source_of, reads_before};

    ghost remaining = { λ failing. R.remaining (source_of failing) };

    ghost failure_count = { λ failing. with_own (reads_before failing) (R.failure_count (source_of failing)) };

    ghost reference = { λ failing. R.reference (source_of failing) };

    /// Reads as the source does, but at its turn.
    fn fetch(&mut self, buf: &mut [u8]) -> io::Result<usize>
        ensures bound { ReadsAtMost result buf.new }
        ensures bytes { ReadConsumes (⟦<FailAt<R> as Source>⟧.remaining self.old)
            (⟦<FailAt<R> as Source>⟧.remaining self.new) result buf.new }
        ensures failures { CountsRead (⟦<FailAt<R> as Source>⟧.failure_count self.old)
            (⟦<FailAt<R> as Source>⟧.failure_count self.new) result }
        ensures same_reference { ⟦<FailAt<R> as Source>⟧.reference self.new
            ≡ ⟦<FailAt<R> as Source>⟧.reference self.old }
        ensures kind { self.new.kind ≡ self.old.kind }
        // The read at its turn answers an error of its kind and leaves the source as it was. At each other the source
        // counts an error as one failure.
        ensures turn { CountsDown (reads_before self.old) (reads_before self.new)
            (MatchResult result (λ _. ⊥) (λ error. error_kind error ≡ self.old.kind)
            × (source_of self.new ≡ source_of self.old))
            (CountsRead (R.failure_count (source_of self.old)) (R.failure_count (source_of self.new)) result) }
    {
        if count_down(&mut self.calls_before) {
            return Err(Error::from(self.kind));
        }
        self.source.fetch(buf)
    }

    fn failures(&self) -> u64 {
        count_with_own(self.calls_before, self.source.failures())
    }
}
