//! Keys for the hashers of tests.

use std::hash::RandomState;
use std::io;
use std::random::RandomSource;

/// A source that gives one byte again and again.
#[derive(Clone, Copy)]
struct Same(u8);

impl RandomSource for Same {
    fn fill_bytes(&self, buf: &mut [u8]) -> io::Result<()> {
        buf.fill(self.0);
        Ok(())
    }
}

/// The keys that consist of this byte alone.
pub fn keys_of(byte: u8) -> io::Result<RandomState> {
    RandomState::new(&Same(byte))
}
