//! What the output passes on, however little is taken at a write, and behind a write that fails.

use crate::record::pieces::Few;
use std::alloc::Global;
use std::io::ErrorKind;
use tl_cert_output::{Page, Printer, Stop, write_all};
use tl_record::{FailAtOut, MeterOut, Sink};

const LINE: &str = "a line of several writes";

const TEXT: &str = "a line of several writes\na line of several writes\n";

/// Writes a line, and then the same text by a printer that holds it back. Is all written?
fn write<S: Sink>(out: &mut S) -> bool {
    write_all(b"a line of several writes\n", out).is_ok()
        && print(out).is_ok()
        && write_all(b"\n", out).is_ok()
}

/// Prints the text in two parts.
fn print<S: Sink>(out: &mut S) -> Result<(), Stop> {
    let (front, behind) = LINE.as_bytes().split_at(6);
    let mut printer = Printer::new(out);
    printer.add(front);
    printer.add(behind);
    printer.finish()
}

/// How many bytes of the text a writer that takes seven bytes a write took, where the write behind so many others fails.
/// Is all written?
fn written(alloc: Global, others: u64, kind: ErrorKind) -> Option<(usize, bool)> {
    let mut few = Few::new(alloc, 7);
    let mut sink = FailAtOut::new(MeterOut::new(&mut few), others, kind);
    let is_whole = write(&mut sink);
    let is_told = is_whole == sink.writes_before().is_some() && is_whole == (sink.failures() == 0);
    if is_told && TEXT.as_bytes().starts_with(&few.bytes) {
        Some((few.bytes.len(), is_whole))
    } else {
        None
    }
}

#[test]
fn each_write_fails(rt: HostRuntime) {
    // 25 bytes take four writes, and 24 and one take five
    for (others, taken) in [(0, 0), (1, 7), (3, 21), (4, 25), (5, 32), (7, 46), (8, 49)] {
        for kind in [ErrorKind::Other, ErrorKind::Interrupted] {
            assert!(rt;
                written(rt.alloc(), others, kind) == Some((taken, false)),
                "{others}"
            );
        }
    }
    assert!(rt; written(rt.alloc(), 9, ErrorKind::Other) == Some((50, true)));
}
