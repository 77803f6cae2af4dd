//! The bytes that were fetched from a source and not taken yet, and the search for the end of a line in them.

ghost use Rattle.std.specs.Prelude.{◌≡◌, ℕ, ◌+◌, ◌-◌, ◌<◌, ◌≤◌, List, [], length, take, drop};
ghost use Rattle.std.specs.Io.KnownBytes.{Keeps, prepend_known};
ghost use Rattle.tl_record.specs.Failures.{CountsRead};
ghost use Rattle.tl_record.specs.NextLine.{Shows, CountsFetch};
ghost use Rattle.tl_record.specs.Fetching.{Fetches};

use crate::source::Source;
use memchr::memchr;
use std::io;
use std::marker::Model;

/// What a search for the end of the next line shows.
#[derive(Clone, Copy)]
pub enum Fetched {
    /// The line's length: its line feed is fetched.
    Whole(usize),
    /// The source is at its end, and what was fetched has no line feed.
    Rest,
    /// The buffer is full, and has no line feed.
    Full,
    /// A read failed.
    Failed,
}

/// A buffer with room for `N` bytes.
#[derive(Drop)]
pub struct LineBuffer<const N: usize> {
    bytes: [u8; N],
    at: usize,
    filled: usize,
}

impl<const N: usize> Model for LineBuffer<N> {
    ghost Value = { List ℕ };

    ghost view = { λ buffer. take (buffer.filled - buffer.at) (drop buffer.at buffer.bytes) };

    ghost invariant = { λ buffer. (buffer.at ≤ buffer.filled) × (buffer.filled ≤ N) };
}

/// Copies the bytes from `at` up to `filled` to the front.
fn move_to_front(bytes: &mut [u8], at: usize, filled: usize)
    requires ordered { at ≤ filled }
    requires within { filled ≤ length bytes.old }
    ensures { take (filled - at) bytes.new ≡ take (filled - at) (drop at bytes.old) }
{
    if at == 0 {
        return;
    }
    for index in at..filled {
        bytes[index - at] = bytes[index];
    }
}

impl<const N: usize> LineBuffer<N> {
    /// A buffer that holds nothing.
    pub fn new() -> LineBuffer<N>
        ensures { result ≡ [] }
    {
        LineBuffer {
            bytes: [0; N],
            at: 0,
            filled: 0,
        }
    }

    /// The bytes that were fetched and not taken off.
    pub fn bytes(&self) -> &[u8]
        ensures value { result.now ≡ self.now }
        ensures room { length self.now ≤ N }
    {
        let all = &self.bytes[..];
        &all[self.at..self.filled]
    }

    /// Takes bytes off the front.
    pub fn consume(&mut self, count: usize)
        requires { count ≤ length self.old }
        ensures { self.new ≡ drop count self.old }
    {
        self.at += count;
    }

    /// Takes a line of so many bytes off the front, and the byte that ends it.
    pub fn consume_line(&mut self, len: usize)
        requires { len < length self.old }
        ensures { self.new ≡ drop (len + 1) self.old }
    {
        self.at = self.at + len + 1;
    }

    /// Takes all bytes off.
    pub fn clear(&mut self)
        ensures { self.new ≡ [] }
    {
        self.at = 0;
        self.filled = 0;
    }

    /// Fetches bytes to the end, as many as one read of the source gives and there is room for.
    pub fn fetch<S: Source>(&mut self, source: &mut S) -> io::Result<usize>
        requires { length self.old < N }
        ensures bytes { Fetches self.old self.new (S.remaining source.old) (S.remaining source.new) result }
        ensures failures { CountsRead (S.failure_count source.old) (S.failure_count source.new) result }
        ensures same_reference { S.reference source.new ≡ S.reference source.old }
    {
        let all = &mut self.bytes[..];
        move_to_front(all, self.at, self.filled);
        self.filled -= self.at;
        self.at = 0;
        match source.fetch(&mut all[self.filled..]) {
            Ok(count) => {
                self.filled += count;
                Ok(count)
            }
            Err(error) => Err(error),
        }
    }
}

/// Fetches until the buffer holds a whole line, or no more can be fetched.
#[inline(always)]
pub fn fetch_line<const N: usize, R: Source>(buffer: &mut LineBuffer<N>, source: &mut R) -> Fetched
    ensures shows { Shows N buffer.new (R.remaining source.new) result }
    ensures bytes { Keeps (prepend_known buffer.old (R.remaining source.old))
        (prepend_known buffer.new (R.remaining source.new)) }
    ensures failures { CountsFetch (R.failure_count source.old) (R.failure_count source.new) result }
    ensures same_reference { R.reference source.new ≡ R.reference source.old }
{
    let mut searched = 0;
    'fetches: loop {
        let bytes = buffer.bytes();
        if let Some(found) = memchr(b'\n', &bytes[searched..]) {
            return Fetched::Whole(searched + found);
        }
        searched = bytes.len();
        if searched == N {
            return Fetched::Full;
        }
        match buffer.fetch(source) {
            Ok(0) => return Fetched::Rest,
            Ok(_) => {}
            Err(_) => return Fetched::Failed,
        }
    }
}
