//! A sink that fails at one call, for tests of what stands after a failure.

ghost use Rattle.std.specs.Prelude.{◌≡◌, Some, MatchResult};
ghost use Rattle.std.specs.Io.{WritesAtMost};
ghost use Rattle.std.specs.Io.KnownBytes.{WriteAppends};
ghost use Rattle.std.specs.IoError.{error_kind};
ghost use Rattle.tl_record.specs.Failures.{CountsWrite};
ghost use Rattle.tl_record.specs.FailAt.{with_own, CountsDown};

use crate::fail_at::{count_down, count_with_own};
use crate::sink::Sink;
use std::io;
use std::io::{Error, ErrorKind};

/// A [`Sink`] over another one, which answers an error at one call alone; every other call goes to the other one.
#[derive(Drop)]
pub struct FailAtOut<W> {
    sink: W,
    /// The kind of the error that it answers at that call.
    pub kind: ErrorKind,
    calls_before: Option<u64>,
}

impl<W: Sink> FailAtOut<W> {
    ghost use Rattle.tl_record.specs.FailAt.{sink_of, writes_before};

    /// A sink that answers an error of this kind at the write that comes behind so many others.
    pub fn new(sink: W, others: u64, kind: ErrorKind) -> FailAtOut<W>
        ensures sink { sink_of result ≡ sink }
        ensures turn { writes_before result ≡ Some others }
        ensures kind { result.kind ≡ kind }
        ensures bytes { ⟦<FailAtOut<W> as Sink>⟧.contents result ≡ W.contents sink }
        ensures failures { ⟦<FailAtOut<W> as Sink>⟧.failure_count result ≡ W.failure_count sink }
    {
        FailAtOut {
            sink,
            kind,
            calls_before: Some(others),
        }
    }

    /// How many writes come before the one that fails; `None` where that one was made.
    pub fn writes_before(&self) -> Option<u64>
        ensures { result ≡ writes_before self.now }
    {
        self.calls_before
    }
}

impl<W: Sink> Sink for FailAtOut<W> {
    ghost use Rattle.tl_record.specs.FailAt.{sink_of, writes_before};

    ghost contents = { λ failing. W.contents (sink_of failing) };

    ghost failure_count = { λ failing. with_own (writes_before failing) (W.failure_count (sink_of failing)) };

    /// Writes as the sink does, but at its turn.
    fn put(&mut self, bytes: &[u8]) -> io::Result<usize>
        ensures bound { WritesAtMost result bytes.now }
        ensures bytes { WriteAppends (⟦<FailAtOut<W> as Sink>⟧.contents self.old)
            (⟦<FailAtOut<W> as Sink>⟧.contents self.new) result bytes.now }
        ensures failures { CountsWrite (⟦<FailAtOut<W> as Sink>⟧.failure_count self.old)
            (⟦<FailAtOut<W> as Sink>⟧.failure_count self.new) result bytes.now }
        ensures kind { self.new.kind ≡ self.old.kind }
        // The write at its turn answers an error of its kind and leaves the sink as it was. At each other the sink
        // counts an error as one failure.
        ensures turn { CountsDown (writes_before self.old) (writes_before self.new)
            (MatchResult result (λ _. ⊥) (λ error. error_kind error ≡ self.old.kind)
            × (sink_of self.new ≡ sink_of self.old))
            (CountsWrite (W.failure_count (sink_of self.old)) (W.failure_count (sink_of self.new)) result bytes.now) }
    {
        if count_down(&mut self.calls_before) {
            return Err(Error::from(self.kind));
        }
        self.sink.put(bytes)
    }

    fn failures(&self) -> u64 {
        count_with_own(self.calls_before, self.sink.failures())
    }
}
