//! Where bytes go.

ghost use Rattle.std.specs.Prelude.{◌≡◌, ℕ, List, Option};
ghost use Rattle.std.specs.Io.{WritesAtMost};
ghost use Rattle.std.specs.Io.KnownBytes.{WriteAppends};
ghost use Rattle.tl_record.specs.Failures.{CountsWrite};

use std::io;

/// A writer that counts the writes that failed.
pub trait Sink {
    // The bytes that it holds, where they are known.
    ghost contents: { Self → Option (List ℕ) };

    // How many writes have failed so far.
    ghost failure_count: { Self → ℕ };

    /// Writes some bytes from the front of `bytes`, as [`io::Write::write`] does. An error takes nothing and counts as
    /// one failure, and so does a write that takes no byte where bytes were offered.
    fn put(&mut self, bytes: &[u8]) -> io::Result<usize>
        ensures bound { WritesAtMost result bytes.now }
        ensures bytes { WriteAppends (contents self.old) (contents self.new) result bytes.now }
        ensures failures { CountsWrite (failure_count self.old) (failure_count self.new) result bytes.now };

    /// How many writes have failed so far. The count stays at the greatest `u64`.
    fn failures(&self) -> u64
        ensures { result ≡ failure_count self.now };
}

impl<S: Sink> Sink for &mut S {
    ghost contents = { λ s. S.contents s.now };

    ghost failure_count = { λ s. S.failure_count s.now };

    fn put(&mut self, bytes: &[u8]) -> io::Result<usize> {
        (**self).put(bytes)
    }

    fn failures(&self) -> u64 {
        (**self).failures()
    }
}
