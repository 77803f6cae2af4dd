//! What is read of certificates' texts.

use crate::cert::examples::SQUARE;
use std::alloc::Global;
use std::io;
use std::io::{ErrorKind, Read};
use tl_cert::{CertPart, CertReader, CertStop, read_cert};
use tl_record::{FailAt, Meter, Source};

/// A reader of a text that gives at most so many bytes a read.
#[derive(Drop)]
pub struct Pieces<'a> {
    rest: &'a [u8],
    most: usize,
}

impl Read for Pieces<'_> {
    fn read(&mut self, buf: &mut [u8]) -> io::Result<usize> {
        let count = self.most.min(buf.len());
        self.rest.read(&mut buf[..count])
    }
}

/// A source of a text by so many bytes a read.
pub fn source_of(rest: &[u8], most: usize) -> Meter<Pieces<'_>> {
    Meter::new(Pieces { rest, most })
}

/// A letter for each of ten answers to reads of one byte, of which the one behind so many others fails: a part's own, a dash
/// for none, a question mark for a refusal and an exclamation mark for a failed read.
fn letters_of(alloc: Global, text: &[u8], others: u64) -> [u8; 10] {
    let source = FailAt::new(source_of(text, 1), others, ErrorKind::Other);
    let mut reader = CertReader::new(alloc, source);
    let mut letters = [b' '; 10];
    for letter in letters.iter_mut() {
        *letter = match reader.next_part() {
            Ok(Some(CertPart::Counts(_, _))) => b'C',
            Ok(Some(CertPart::Tree(_))) => b'T',
            Ok(Some(CertPart::Round(_))) => b'R',
            Ok(Some(CertPart::Walk(_))) => b'K',
            Ok(None) => b'-',
            Err(CertStop::Text { .. }) => b'?',
            Err(CertStop::Device) => b'!',
            Err(CertStop::Memory) => b'm',
        };
    }
    letters
}

#[test]
fn parts_come_before_a_stop_that_stays(rt: HostRuntime) {
    let text = SQUARE.as_bytes();
    // the second walk is behind 94 bytes, and 88 cut it off
    let cut = text.get(..88).unwrap_or(b"");
    for (text, others, letters) in [
        (text, u64::MAX, b"CTRKK-----"),
        (cut, u64::MAX, b"CTRK??????"),
        (text, 88, b"CTRK!!!!!!"),
    ] {
        assert!(rt; letters_of(rt.alloc(), text, others) == *letters);
    }
}

/// Whether the read behind so many others stops a reader of the square's certificate, and for good one of its parts.
fn is_stopped(alloc: Global, others: u64) -> bool {
    let source = source_of(SQUARE.as_bytes(), 1);
    let mut failing = FailAt::new(source, others, ErrorKind::Interrupted);
    let stop = read_cert(alloc, &mut failing).err();
    stop == Some(CertStop::Device)
        && failing.failures() == 1
        && letters_of(alloc, SQUARE.as_bytes(), others).ends_with(b"!!!!!")
}

#[test]
fn each_read_fails(rt: HostRuntime) {
    // the last read finds the end
    for others in 0..=SQUARE.len() as u64 {
        assert!(rt; is_stopped(rt.alloc(), others), "{others}");
    }
}
