//! Files that are read.

ghost use Rattle.std.specs.Prelude.{◌≡◌, OnOk};
ghost use Rattle.tl_cert_output.specs.Writing.{CountsFailure};
ghost use Rattle.tigertopo_system_files.specs.Calls.{ReadsAll};

use crate::progress::Progress;
use std::io;
use std::io::{Eprint, Read};
use std::time::Clock;
use tl_record::Source;

// How many bytes are read at a time where none of them is kept.
const BLOCK: usize = 16_384;

/// A reader of which it may be shown how far its reading is.
#[derive(Drop)]
pub struct ShownReader<'a, T, R> {
    reader: T,
    progress: Option<Progress<'a, R>>,
}

impl<'a, T: Read, R: Clock + Eprint> ShownReader<'a, T, R> {
    /// The reader, of which that is shown where it is to be.
    pub fn new(reader: T, progress: Option<Progress<'a, R>>) -> ShownReader<'a, T, R>
        ensures { ⟦<ShownReader<'a, T, R> as Read>⟧.remaining result ≡ T.remaining reader }
    {
        ShownReader { reader, progress }
    }
}

impl<T: Read, R: Clock + Eprint> Read for ShownReader<'_, T, R> {
    ghost remaining = { λ shown. T.remaining shown.reader };

    fn read(&mut self, buf: &mut [u8]) -> io::Result<usize> {
        let taken = self.reader.read(buf)?;
        if let Some(progress) = &mut self.progress {
            progress.step(taken);
        }
        Ok(taken)
    }
}

/// Reads a source to its end. An error says that a read of it failed.
pub fn read_through<S: Source>(source: &mut S) -> io::Result<()>
    ensures end { OnOk result (ReadsAll (S.remaining source.old) (S.remaining source.new)) }
    ensures failures { CountsFailure (S.failure_count source.old) (S.failure_count source.new) result }
{
    let mut bytes = [0; BLOCK];
    for _ in 0..u64::MAX {
        if source.fetch(&mut bytes)? == 0 {
            return Ok(());
        }
    }
    Ok(())
}
