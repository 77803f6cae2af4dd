//! A reader and a writer that do less than they are asked.

use std::alloc::Global;
use std::io;
use std::io::{ErrorKind, Read, Write};

/// A reader of a text that gives at most so many bytes a read.
#[derive(Drop)]
pub struct Pieces<'a> {
    pub rest: &'a [u8],
    pub most: usize,
}

impl Read for Pieces<'_> {
    fn read(&mut self, buf: &mut [u8]) -> io::Result<usize> {
        let count = self.most.min(buf.len());
        self.rest.read(&mut buf[..count])
    }
}

/// A writer that takes at most so many bytes a write.
#[derive(Drop)]
pub struct Few {
    pub bytes: Vec<u8>,
    most: usize,
}

impl Few {
    pub fn new(alloc: Global, most: usize) -> Few {
        Few {
            bytes: Vec::new(alloc),
            most,
        }
    }
}

impl Write for Few {
    fn write(&mut self, bytes: &[u8]) -> io::Result<usize> {
        let count = self.most.min(bytes.len());
        match self.bytes.extend_from_slice(&bytes[..count]) {
            Ok(()) => Ok(count),
            Err(_) => Err(io::Error::from(ErrorKind::OutOfMemory)),
        }
    }

    fn flush(&mut self) -> io::Result<()> {
        Ok(())
    }
}
