//! Records and certificates that come one byte a read, and reads that fail.

use crate::keys::fixed_keys;
use crate::maps::{DEAD_END, DEAD_END_CERT, map_of};
use std::alloc::Global;
use std::io;
use std::io::{ErrorKind, Read};
use tl_build::{Audit, audit};
use tl_check::{Stop, Verdict, check, check_cert};
use tl_map_county::Map;
use tl_record::{FailAt, Meter};

/// A reader of a text that gives one byte a read.
#[derive(Drop)]
struct OneByte<'a> {
    rest: &'a [u8],
}

impl Read for OneByte<'_> {
    fn read(&mut self, buf: &mut [u8]) -> io::Result<usize> {
        let count = buf.len().min(1);
        self.rest.read(&mut buf[..count])
    }
}

type Failing<'a> = FailAt<Meter<OneByte<'a>>>;

/// A text of which each read gives one byte, and the one behind so many others fails.
fn failing(text: &str, others: u64) -> Failing<'_> {
    let rest = text.as_bytes();
    FailAt::new(Meter::new(OneByte { rest }), others, ErrorKind::Interrupted)
}

/// Whether a check tells the dead end to be sound where the reads behind so many others of each text fail; a stop for a failed
/// read is none.
fn is_checked(alloc: Global, of_records: u64, of_cert: u64) -> Option<bool> {
    let hasher = fixed_keys().ok()?;
    let mut records = failing(DEAD_END, of_records);
    let mut cert = failing(DEAD_END_CERT, of_cert);
    match check(alloc, hasher, &mut records, &mut cert, u64::MAX) {
        Err(Stop::Device) => None,
        verdict => Some(matches!(verdict, Ok(Verdict::Sound(_)))),
    }
}

/// Whether an audit does.
fn is_audited(alloc: Global, others: u64) -> Option<bool> {
    match audit(alloc, fixed_keys().ok()?, &mut failing(DEAD_END, others)) {
        Err(Stop::Device) => None,
        audited => Some(matches!(audited, Ok(Audit::Sound(_)))),
    }
}

/// Whether a check of a map by the dead end's certificate does.
fn is_checked_by(alloc: Global, map: &Map, others: u64) -> Option<bool> {
    let mut cert = failing(DEAD_END_CERT, others);
    match check_cert(alloc, map, &mut cert, u64::MAX, false) {
        Err(Stop::Device) => None,
        verdict => Some(matches!(verdict, Ok(Verdict::Sound(_)))),
    }
}

/// Whether that of the dead end's map does.
fn is_checked_in_memory(alloc: Global, others: u64) -> Option<bool> {
    match map_of(alloc, DEAD_END) {
        Some(map) => is_checked_by(alloc, &map, others),
        None => Some(false),
    }
}

#[test]
fn each_read_of_records(rt: HostRuntime) {
    // the last read finds the end
    for others in 0..=DEAD_END.len() as u64 {
        let is_stopped = is_checked(rt.alloc(), others, u64::MAX).is_none()
            && is_audited(rt.alloc(), others).is_none();
        assert!(rt; is_stopped, "{others}");
    }
    assert!(rt; is_audited(rt.alloc(), u64::MAX) == Some(true));
}

#[test]
fn each_read_of_a_certificate(rt: HostRuntime) {
    for others in 0..=DEAD_END_CERT.len() as u64 {
        let is_stopped = is_checked(rt.alloc(), u64::MAX, others).is_none()
            && is_checked_in_memory(rt.alloc(), others).is_none();
        assert!(rt; is_stopped, "{others}");
    }
    assert!(rt; is_checked(rt.alloc(), u64::MAX, u64::MAX) == Some(true));
    assert!(rt; is_checked_in_memory(rt.alloc(), u64::MAX) == Some(true));
}
