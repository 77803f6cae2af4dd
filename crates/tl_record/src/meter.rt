//! Any reader as a source, and any writer as a sink.

ghost use Rattle.std.specs.Prelude.{◌≡◌};

use crate::sink::Sink;
use crate::source::Source;
use std::io;
use std::io::{Read, Write};

/// A reader as a [`Source`]: each read that answers an error counts, an interrupted one too.
#[derive(Drop)]
pub struct Meter<R> {
    reader: R,
    failures: u64,
}

impl<R: Read> Meter<R> {
    /// A source of the reader's bytes, with no failure so far.
    pub fn new(reader: R) -> Meter<R>
        ensures bytes { ⟦<Meter<R> as Source>⟧.remaining result ≡ R.remaining reader }
        ensures failures { ⟦<Meter<R> as Source>⟧.failure_count result ≡ 0 }
    {
        Meter {
            reader,
            failures: 0,
        }
    }
}

impl<R: Read> Source for Meter<R> {
    ghost remaining = { λ meter. R.remaining meter.reader };

    ghost failure_count = { λ meter. meter.failures };

    fn fetch(&mut self, buf: &mut [u8]) -> io::Result<usize> {
        match self.reader.read(buf) {
            Ok(count) => Ok(count),
            Err(error) => {
                self.failures = self.failures.saturating_add(1);
                Err(error)
            }
        }
    }

    fn failures(&self) -> u64 {
        self.failures
    }
}

/// A writer as a [`Sink`]: each write that answers an error counts, and each that takes nothing of what it is offered.
#[derive(Drop)]
pub struct MeterOut<W> {
    writer: W,
    failures: u64,
}

impl<W: Write> MeterOut<W> {
    /// A sink over the writer, with no failure so far.
    pub fn new(writer: W) -> MeterOut<W>
        ensures bytes { ⟦<MeterOut<W> as Sink>⟧.contents result ≡ W.contents writer }
        ensures failures { ⟦<MeterOut<W> as Sink>⟧.failure_count result ≡ 0 }
    {
        MeterOut {
            writer,
            failures: 0,
        }
    }
}

impl<W: Write> Sink for MeterOut<W> {
    ghost contents = { λ meter. W.contents meter.writer };

    ghost failure_count = { λ meter. meter.failures };

    fn put(&mut self, bytes: &[u8]) -> io::Result<usize> {
        match self.writer.write(bytes) {
            Ok(taken) => {
                if taken == 0 && !bytes.is_empty() {
                    self.failures = self.failures.saturating_add(1);
                }
                Ok(taken)
            }
            Err(error) => {
                self.failures = self.failures.saturating_add(1);
                Err(error)
            }
        }
    }

    fn failures(&self) -> u64 {
        self.failures
    }
}
