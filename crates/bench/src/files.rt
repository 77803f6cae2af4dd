//! Files to read.

use crate::failure::Failure;
use std::fs::File;
use std::io::BufReader;
use tl_record::Meter;

// How many bytes are read at a time where fewer are asked for. A reader of records asks for more, which aren't copied.
const INPUT_BUFFER: usize = 32_768;

/// A file as a source.
pub type Input = Meter<BufReader<File>>;

/// Opens a file.
pub fn open(rt: &HostRuntime, name: &str) -> Result<Input, Failure> {
    let Ok(file) = File::open(rt, name) else {
        return Err(Failure::File);
    };
    match BufReader::with_capacity(rt.alloc(), INPUT_BUFFER, file) {
        Ok(reader) => Ok(Meter::new(reader)),
        Err(_) => Err(Failure::Memory),
    }
}
