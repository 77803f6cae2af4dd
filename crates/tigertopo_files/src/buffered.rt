//! Many bytes of a source read at a time.

ghost use Rattle.std.specs.Prelude.{◌≡◌, ◌<◌, ◌≤◌, ◌++◌, min, IfOk, OnOk, OnErr, MatchResult, length, take, drop, slice_range, vec_len};
ghost use Rattle.std.specs.Io.KnownBytes.{Consumes, IsAtEnd, Keeps, prepend_known};
ghost use Rattle.tl_record.specs.Failures.{CountsRead};
ghost use Rattle.tl_cert_output.specs.Writing.{CountsFailure};

use std::io;
use std::io::Read;
use tl_record::Source;

// A read of as many bytes or more is of many bytes itself.
const MANY: usize = 16_384;

/// A source that reads many bytes of another one at a time. Its failures are those of the other.
///
/// A read of 16,384 bytes or more goes straight to the other one where nothing is held, and isn't copied.
#[derive(Drop)]
pub struct Buffered<S> {
    source: S,
    // What was read and isn't given yet stands from `start` to `end`.
    bytes: Vec<u8>,
    start: usize,
    end: usize,
    ghost room: { 0 < vec_len bytes },
    ghost ordered: { start ≤ end },
    ghost within: { end ≤ vec_len bytes },
}

impl<S: Source> Buffered<S> {
    /// A source of the other one's bytes, which reads as many at a time as `room` holds.
    pub fn new(source: S, room: Vec<u8>) -> Buffered<S>
        requires { 0 < vec_len room }
        ensures bytes { ⟦<Buffered<S> as Source>⟧.remaining result ≡ S.remaining source }
        ensures failures { ⟦<Buffered<S> as Source>⟧.failure_count result ≡ S.failure_count source }
    {
        Buffered {
            source,
            bytes: room,
            start: 0,
            end: 0,
        }
    }

    /// The other source, as far as it was read.
    pub fn into_source(self) -> S
        ensures { S.failure_count result ≡ ⟦<Buffered<S> as Source>⟧.failure_count self }
    {
        self.source
    }

    // Reads once where nothing is left to give.
    fn fill(&mut self) -> io::Result<()>
        ensures bytes { Keeps (prepend_known (slice_range self.old.bytes.items self.old.start self.old.end)
            (S.remaining self.old.source))
            (prepend_known (slice_range self.new.bytes.items self.new.start self.new.end)
            (S.remaining self.new.source)) }
        ensures end { OnOk result (self.new.end ≤ self.new.start → IsAtEnd (S.remaining self.new.source)) }
        ensures failures { CountsFailure (S.failure_count self.old.source) (S.failure_count self.new.source) result }
    {
        if self.start < self.end {
            return Ok(());
        }
        self.start = 0;
        self.end = 0;
        let count = fetch_into(&mut self.source, &mut self.bytes)?;
        self.end = count;
        Ok(())
    }
}

impl<S: Source> Source for Buffered<S> {
    ghost remaining = { λ b. prepend_known (slice_range b.bytes.items b.start b.end) (S.remaining b.source) };

    ghost failure_count = { λ b. S.failure_count b.source };

    fn fetch(&mut self, buf: &mut [u8]) -> io::Result<usize> {
        if self.start == self.end && buf.len() >= MANY {
            return self.source.fetch(buf);
        }
        self.fill()?;
        let (start, end) = (self.start, self.end);
        let held = self.bytes.as_slice();
        let count = give(&held[start..end], buf);
        self.start += count;
        Ok(count)
    }

    fn failures(&self) -> u64 {
        self.source.failures()
    }
}

// Reads into all that the vector has.
fn fetch_into<S: Source>(source: &mut S, bytes: &mut Vec<u8>) -> io::Result<usize>
    ensures len { vec_len bytes.new ≡ vec_len bytes.old }
    ensures bound { IfOk result (λ count. count ≤ vec_len bytes.new) }
    ensures taken { IfOk result (λ count.
        Consumes (S.remaining source.old) (S.remaining source.new) (take count bytes.new.items)) }
    ensures end { IfOk result (λ count. count ≡ 0 → 0 < vec_len bytes.old → IsAtEnd (S.remaining source.new)) }
    ensures kept { OnErr result (Keeps (S.remaining source.old) (S.remaining source.new)) }
    ensures failures { CountsRead (S.failure_count source.old) (S.failure_count source.new) result }
{
    source.fetch(bytes.as_mut_slice())
}

// Copies as many bytes as both have, from the front, and says how many.
fn give(held: &[u8], buf: &mut [u8]) -> usize
    ensures count { result ≡ min (length held.now) (length buf.old) }
    ensures copied { buf.new ≡ take result held.now ++ drop result buf.old }
{
    let mut rest = held;
    match rest.read(buf) {
        Ok(count) => count,
        Err(_) => 0,
    }
}
