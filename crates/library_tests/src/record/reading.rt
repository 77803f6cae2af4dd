//! What a reader gives of the records of a square, however the bytes come, and behind a read that fails.

use crate::record::pieces::Pieces;
use std::io::ErrorKind;
use tl_geom::Point;
use tl_record::{
    Cause, FailAt, Field, Meter, Options, PLAIN, PolyKey, ReadStop, Record, RecordReader, Source,
};

/// The records of a square by the columns of the released files: a chain, its shape, its sides with the zero-cell id 5 at
/// its start, and a polygon.
const SQUARE: &str =
    "10000         1                                                                                                                                                                               +000000010+00000010+000000010+00000010
20000         1  1+000000030+00000010+000000030+00000030+000000010+00000030\r
I000024001         1         5          A0001         1

P0000     A0001         1+000000020-00000020";

const A1: PolyKey = PolyKey {
    cenid: *b"A0001",
    polyid: 1,
};

fn at(x: i32, y: i32) -> Point {
    Point { x, y }
}

type Answer = Result<Option<(u64, Record)>, ReadStop>;

/// What a reader answers, one call after the other.
fn answers() -> [Answer; 5] {
    [
        Ok(Some((
            1,
            Record::Chain {
                tlid: 1,
                from: at(10, 10),
                to: at(10, 10),
            },
        ))),
        Ok(Some((
            2,
            Record::Shape {
                tlid: 1,
                rtsq: 1,
                pairs: [
                    Some(at(30, 10)),
                    Some(at(30, 30)),
                    Some(at(10, 30)),
                    None,
                    None,
                    None,
                    None,
                    None,
                    None,
                    None,
                ],
            },
        ))),
        Ok(Some((
            3,
            Record::Sides {
                tlid: 1,
                start_cell: Some(5),
                end_cell: None,
                left: Some(A1),
                right: None,
            },
        ))),
        Ok(Some((
            5,
            Record::PolyPoint {
                key: A1,
                point: at(20, -20),
            },
        ))),
        Ok(None),
    ]
}

/// Whether all is read where so many bytes come in a read, and one line is passed over.
fn is_read(most: usize) -> bool {
    let options = Options {
        zero_cells: true,
        released: true,
        ..PLAIN
    };
    let rest = SQUARE.as_bytes();
    let mut reader = RecordReader::with(Meter::new(Pieces { rest, most }), options);
    for answer in &answers() {
        if reader.next_record() != *answer {
            return false;
        }
    }
    reader.skipped() == 1
}

#[test]
fn a_square_is_read_however_the_bytes_come(rt: HostRuntime) {
    for most in [1, 7, 1_024, 9_999] {
        assert!(rt; is_read(most), "{most} bytes a read");
    }
}

/// How many records a reader gives before it stops for want of a read, if it does.
fn records_before<R: Source>(reader: &mut RecordReader<R>) -> Option<u64> {
    for before in 0..9 {
        match reader.next_record() {
            Ok(Some(_)) => {}
            Err(ReadStop::Device) => return Some(before),
            _ => return None,
        }
    }
    None
}

/// The same where the read behind so many others fails, which is counted.
fn records_before_failure(others: u64, kind: ErrorKind) -> Option<u64> {
    let rest = SQUARE.as_bytes();
    let mut source = FailAt::new(Meter::new(Pieces { rest, most: 103 }), others, kind);
    let before = records_before(&mut RecordReader::new(&mut source));
    if source.failures() == 1 && source.reads_before().is_none() {
        before
    } else {
        None
    }
}

#[test]
fn a_failed_read_is_no_end(rt: HostRuntime) {
    // the lines end behind 229, 306, 362, 363 and 407 bytes, the last one without a line feed
    for (others, kind, records) in [
        (0, ErrorKind::Other, 0),
        (1, ErrorKind::Interrupted, 0),
        (2, ErrorKind::Other, 0),
        (3, ErrorKind::Other, 2),
        (4, ErrorKind::Interrupted, 3),
    ] {
        assert!(rt;
            records_before_failure(others, kind) == Some(records),
            "{others}"
        );
    }
}

/// Whether a reader of these bytes, of which the read behind so many others of four bytes fails, gives this answer twice.
fn answers_twice(rest: &[u8], others: u64, answer: Answer) -> bool {
    let source = Meter::new(Pieces { rest, most: 4 });
    let mut reader = RecordReader::new(FailAt::new(source, others, ErrorKind::Other));
    reader.next_record() == answer && reader.next_record() == answer
}

#[test]
fn a_stop_is_answered_again(rt: HostRuntime) {
    let stop = ReadStop::Refused {
        line: 1,
        cause: Cause::Missing(Field::Tlid),
    };
    assert!(rt; answers_twice(b"1\n10000         1\n", 2, Err(stop)));
    assert!(rt; answers_twice(b"10000         1\n", 1, Err(ReadStop::Device)));
    assert!(rt; answers_twice(b"4", 2, Ok(None)));
}
