//! Records, read and counted.

use crate::answer::Answer;
use crate::failure::Failure;
use crate::files::{Input, open};
use tl_record::{NO_RECORD, RecordReader};

/// How many records there are until the end.
fn count_records(reader: &mut RecordReader<Input>) -> Result<u64, Failure> {
    let mut record = NO_RECORD;
    for count in 0..u64::MAX {
        match reader.read_next(&mut record) {
            Ok(Some(_)) => {}
            Ok(None) => return Ok(count),
            Err(_) => return Err(Failure::Records),
        }
    }
    Err(Failure::Records)
}

/// How many records a file has, and how many lines of it are passed over.
fn count_file(rt: &HostRuntime, name: &str) -> Result<(u64, u64), Failure> {
    let mut reader = RecordReader::new(open(rt, name)?);
    match count_records(&mut reader) {
        Ok(records) => Ok((records, reader.skipped())),
        Err(stop) => Err(stop),
    }
}

/// Counts the records of files.
pub fn count(rt: &HostRuntime, names: &[String]) -> Result<Answer, Failure> {
    let (mut records, mut skipped) = (0u64, 0u64);
    for name in names {
        let (more, others) = count_file(rt, name.as_str())?;
        records = records.saturating_add(more);
        skipped = skipped.saturating_add(others);
    }
    Ok(Answer::Records { records, skipped })
}
