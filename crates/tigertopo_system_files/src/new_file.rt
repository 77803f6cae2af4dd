//! Files that are made when their first byte is written.

ghost use Rattle.std.specs.Prelude.{◌≡◌, Option, Bool, true, ⊤, is_some, IfOk, OnOk, OnErr, string_bytes};
ghost use Rattle.std.specs.Io.{WritesAtMost};
ghost use Rattle.std.specs.Io.KnownBytes.{WriteAppends};
ghost use Rattle.tigertopo_system_files.specs.Calls.{held_first, held_by, file_of, place_of};

use std::alloc::Global;
use std::io;
use std::io::Write;
use tigertopo_files::{Draft, FileKind};
use tl_cert_output::{Stop, Text};
use tl_record::Sink;

/// A place where a file can be made.
pub trait Place: Drop {
    /// The file, which is written.
    type File: Write + Drop;

    // Whether it is known what is written to the file.
    ghost is_known: { Self → Bool };

    // What is so when this file has taken its name.
    ghost has_name: { Self → Self.File → Type 0 };

    // What is so when no file is left here.
    ghost is_away: { Self → Type 0 };

    /// Makes the file. It holds nothing.
    fn make(&self) -> io::Result<Self::File>
        ensures { IfOk result (λ file. Self.File.contents file ≡ held_first (is_known self.now)) };

    /// The file that was made takes its name, with all that was written.
    fn take_name(&self, file: &Self::File) -> io::Result<()>
        ensures { OnOk result (has_name self.now file.now) };

    /// Takes the file away that was made.
    fn take_away(&self)
        ensures { is_away self.now };
}

/// What is written to a new file, which is made when its first byte is. A write that answers an error counts as a failure, one that
/// can't make the file too, and each that takes nothing of what it is offered.
#[derive(Drop)]
pub struct NewBytes<P, F> {
    place: P,
    file: Option<F>,
    failures: u64,
    // What the system answered to the last write that failed.
    trouble: Option<io::Error>,
}

impl<F: Write + Drop, P: Place<File = F>> NewBytes<P, F> {
    // Makes the file where it isn't made yet, and writes.
    fn write(&mut self, bytes: &[u8]) -> io::Result<usize>
        ensures bound { WritesAtMost result bytes.now }
        ensures bytes { WriteAppends (held_by F.contents (P.is_known self.old.place) self.old.file)
            (held_by F.contents (P.is_known self.new.place) self.new.file) result bytes.now }
        ensures failures { self.new.failures ≡ self.old.failures }
    {
        if self.file.is_none() {
            self.file = Some(self.place.make()?);
        }
        match &mut self.file {
            Some(file) => file.write(bytes),
            None => unreachable!(),
        }
    }
}

impl<F: Write + Drop, P: Place<File = F>> Sink for NewBytes<P, F> {
    ghost contents = { λ new. held_by F.contents (P.is_known new.place) new.file };

    ghost failure_count = { λ new. new.failures };

    fn put(&mut self, bytes: &[u8]) -> io::Result<usize> {
        match self.write(bytes) {
            Ok(taken) => {
                if taken == 0 && !bytes.is_empty() {
                    self.failures = self.failures.saturating_add(1);
                }
                Ok(taken)
            }
            Err(error) => {
                self.failures = self.failures.saturating_add(1);
                let told = io::Error::from(error.kind());
                self.trouble = Some(error);
                Err(told)
            }
        }
    }

    fn failures(&self) -> u64 {
        self.failures
    }
}

/// A new file of a kind, which is to take a name.
#[derive(Drop)]
pub struct NewFile<P, F> {
    name: String,
    kind: FileKind,
    bytes: NewBytes<P, F>,
}

impl<F: Write + Drop, P: Place<File = F>> NewFile<P, F> {
    /// A file that isn't made yet.
    pub fn new(name: String, kind: FileKind, place: P) -> NewFile<P, F>
        ensures contents { ⟦<NewFile<P, F> as Draft>⟧.contents result ≡ held_first (P.is_known place) }
        ensures failures { ⟦<NewFile<P, F> as Draft>⟧.failure_count result ≡ 0 }
        ensures target { ⟦<NewFile<P, F> as Draft>⟧.target result ≡ string_bytes name }
        ensures kind { ⟦<NewFile<P, F> as Draft>⟧.kind result ≡ kind }
    {
        NewFile {
            name,
            kind,
            bytes: NewBytes {
                place,
                file: None,
                failures: 0,
                trouble: None,
            },
        }
    }

    /// The file takes its name, and is made where it isn't yet. Where that fails, it is taken away.
    pub fn settle(self) -> io::Result<()>
        ensures kept { OnOk result ((file : F) × (F.contents file ≡ ⟦<NewFile<P, F> as Draft>⟧.contents self)
            × P.has_name (place_of self) file) }
        ensures away { OnErr result (is_some (file_of self) ≡ true → P.is_away (place_of self)) }
    {
        let NewBytes { place, file, .. } = self.bytes;
        let file = match file {
            Some(file) => file,
            None => place.make()?,
        };
        let taken = place.take_name(&file);
        if taken.is_err() {
            place.take_away();
        }
        taken
    }

    /// The file is taken away, if it is made. What the system answered to the last write that failed is given, if one did.
    pub fn discard(mut self) -> Option<io::Error>
        ensures away { is_some (file_of self) ≡ true → P.is_away (place_of self) }
        ensures trouble { result ≡ self.bytes.trouble }
    {
        if self.bytes.file.is_some() {
            self.bytes.place.take_away();
        }
        self.bytes.trouble.take()
    }
}

impl<F: Write + Drop, P: Place<File = F>> Draft for NewFile<P, F> {
    ghost contents = { λ new. ⟦<NewBytes<P, F> as Sink>⟧.contents new.bytes };

    ghost failure_count = { λ new. ⟦<NewBytes<P, F> as Sink>⟧.failure_count new.bytes };

    ghost target = { λ new. string_bytes new.name };

    ghost kind = { λ new. new.kind };

    fn print<T: Text>(&mut self, alloc: Global, text: &T) -> Result<(), Stop> {
        text.print(alloc, &mut self.bytes)
    }
}
