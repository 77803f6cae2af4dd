//! What is written of certificates.

use crate::cert::examples::{SQUARE, SQUARE_2, THREE_CHILDREN};
use crate::cert::reading::source_of;
use std::alloc::Global;
use std::io;
use std::io::{ErrorKind, Write};
use tl_cert::{Certificate, WriteStop, read_cert, write_cert};
use tl_record::{FailAtOut, MeterOut};

/// A writer that takes at most so many bytes a write.
#[derive(Drop)]
struct Few {
    bytes: Vec<u8>,
    most: usize,
}

impl Write for Few {
    fn write(&mut self, bytes: &[u8]) -> io::Result<usize> {
        let count = self.most.min(bytes.len());
        match self.bytes.extend_from_slice(&bytes[..count]) {
            Ok(()) => Ok(count),
            Err(_) => Err(io::Error::from(ErrorKind::OutOfMemory)),
        }
    }

    fn flush(&mut self) -> io::Result<()> {
        Ok(())
    }
}

/// How many bytes of this text a writer that takes so many a write took, where the write behind so many others fails, and what
/// is answered.
fn written(
    alloc: Global,
    certificate: &Certificate,
    text: &[u8],
    most: usize,
    others: u64,
) -> Option<(usize, Result<(), WriteStop>)> {
    let mut few = Few {
        bytes: Vec::new(alloc),
        most,
    };
    let mut out = FailAtOut::new(MeterOut::new(&mut few), others, ErrorKind::Interrupted);
    let answer = write_cert(certificate, &mut out);
    if text.starts_with(&few.bytes) {
        Some((few.bytes.len(), answer))
    } else {
        None
    }
}

/// Whether the certificate of a text is read and written again, by so many bytes at a time.
fn is_written_again(alloc: Global, text: &str, most: usize) -> bool {
    let text = text.as_bytes();
    match read_cert(alloc, &mut source_of(text, most)) {
        Ok(read) => written(alloc, &read, text, most, u64::MAX) == Some((text.len(), Ok(()))),
        Err(_) => false,
    }
}

#[test]
fn what_is_read_is_written_again(rt: HostRuntime) {
    for text in [SQUARE, SQUARE_2, THREE_CHILDREN] {
        for most in [1, 7, 999] {
            assert!(rt;
                is_written_again(rt.alloc(), text, most),
                "{most} bytes a read"
            );
        }
    }
}

/// Whether what is written of the square's certificate in version 2 before each failure is as much of its text as the writes
/// took.
fn does_each_write_fail(alloc: Global) -> bool {
    let certificate = match read_cert(alloc, &mut source_of(SQUARE.as_bytes(), 999)) {
        Ok(read) => read.to_v2(),
        Err(_) => return false,
    };
    for others in 0..SQUARE_2.len() {
        let told = written(alloc, &certificate, SQUARE_2.as_bytes(), 1, others as u64);
        if told != Some((others, Err(WriteStop::Device))) {
            return false;
        }
    }
    true
}

#[test]
fn each_write_fails(rt: HostRuntime) {
    assert!(rt; does_each_write_fail(rt.alloc()));
}
