//! Where bytes come from.

ghost use Rattle.std.specs.Prelude.{◌≡◌, ℕ, List, Option};
ghost use Rattle.std.specs.Io.{ReadsAtMost};
ghost use Rattle.std.specs.Io.KnownBytes.{ReadConsumes};
ghost use Rattle.tl_record.specs.Failures.{CountsRead};

use std::io;

/// A reader that counts the reads that failed.
pub trait Source {
    // The bytes that reads will give from here on, where they are known.
    ghost remaining: { Self → Option (List ℕ) };

    // How many reads have failed so far.
    ghost failure_count: { Self → ℕ };

    // Which `&mut` the source is, where it is one: reads don't put another in its place.
    ghost reference: { Self → ℕ } = { λ _. 0 };

    /// Reads some bytes into the front of `buf`, as [`io::Read::read`] does: 0 where `buf` has room says that the
    /// bytes are at their end. An error consumes nothing and counts as one failure.
    fn fetch(&mut self, buf: &mut [u8]) -> io::Result<usize>
        ensures bound { ReadsAtMost result buf.new }
        ensures bytes { ReadConsumes (remaining self.old) (remaining self.new) result buf.new }
        ensures failures { CountsRead (failure_count self.old) (failure_count self.new) result }
        ensures same_reference { reference self.new ≡ reference self.old };

    /// How many reads have failed so far. The count stays at the greatest `u64`.
    fn failures(&self) -> u64
        ensures { result ≡ failure_count self.now };
}

impl<S: Source> Source for &mut S {
    ghost remaining = { λ s. S.remaining s.now };

    ghost failure_count = { λ s. S.failure_count s.now };

    ghost reference = { λ s. s.ghost_name };

    fn fetch(&mut self, buf: &mut [u8]) -> io::Result<usize> {
        (**self).fetch(buf)
    }

    fn failures(&self) -> u64 {
        (**self).failures()
    }
}
