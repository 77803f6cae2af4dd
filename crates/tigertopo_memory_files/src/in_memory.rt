//! Files in memory, for tests and for who has no other.

ghost use Rattle.std.specs.Prelude.{◌≡◌, ◌≢◌, ◌<◌, ◌^◌, ℕ, List, None, Some, IfOk, IfErr, OnOk, OnErr};
ghost use Rattle.std.specs.Prelude.{Contains, length, map, option_map, string_bytes};
ghost use Rattle.std.specs.Bool.{OnTrue, OnFalse};
ghost use Rattle.tl_cert_output.specs.Stops.{StopsFor};
ghost use Rattle.tigertopo_memory_files.specs.Keeping.Stored.{found_with as found_with_of};

use std::alloc::{AllocError, Global};
use std::collections::VecDeque;
use std::io;
use std::io::{ErrorKind, Read, Write};
use tigertopo_files::{
    FileKind, FileSystem, Opener, Reading, Reply, Room, all_names, read_each, read_each_again,
    with_printed,
};
use tigertopo_system_files::{Lookup, Seen, Spot, name_beside, room_of};
use tl_cert_output::{Stop, Text};
use tl_record::Source;

/// A file with its name.
#[derive(Drop)]
pub struct Stored {
    pub name: String,
    pub bytes: Vec<u8>,
}

/// Files in memory, all of whose bytes are known, and what was done with them. A name has no links, and each name is a file of its
/// own. No read or write of them fails: what can't be held stops for want of memory.
#[derive(Drop)]
pub struct FilesInMemory {
    alloc: Global,
    files: Vec<Stored>,
    // The names of the files that were read, in one list those that were opened together.
    opened: Vec<Vec<String>>,
    // How many new files are neither kept nor taken away.
    drafts: u64,
    // The name of the file that is read last, where it is to be shown how far reading is.
    watched: Option<String>,
}

impl FilesInMemory {
    ghost use Rattle.tigertopo_files.specs.Files.{bytes_under};
    ghost use Rattle.tigertopo_files.specs.Log.{nothing_done, with_opened};

    /// No file, and nothing was done.
    pub fn new(alloc: Global) -> FilesInMemory
        ensures under { (name : List ℕ) → ⟦<FilesInMemory as FileSystem>⟧.under result name ≡ Some None }
        ensures log { ⟦<FilesInMemory as FileSystem>⟧.log result ≡ nothing_done }
    {
        FilesInMemory {
            alloc,
            files: Vec::new(alloc),
            opened: Vec::new(alloc),
            drafts: 0,
            watched: None,
        }
    }

    /// Stores a file, in place of one of its name.
    pub fn store(&mut self, name: String, bytes: Vec<u8>) -> Result<(), AllocError>
        ensures stored { OnOk result (⟦<FilesInMemory as FileSystem>⟧.under self.new (string_bytes name)
            ≡ Some (Some bytes.items)) }
        ensures others { (other : List ℕ) → other ≢ string_bytes name →
            ⟦<FilesInMemory as FileSystem>⟧.under self.new other
            ≡ ⟦<FilesInMemory as FileSystem>⟧.under self.old other }
        ensures failed { OnErr result ((other : List ℕ) →
            ⟦<FilesInMemory as FileSystem>⟧.under self.new other
            ≡ ⟦<FilesInMemory as FileSystem>⟧.under self.old other) }
        ensures logs_nothing { ⟦<FilesInMemory as FileSystem>⟧.log self.new
            ≡ ⟦<FilesInMemory as FileSystem>⟧.log self.old }
    {
        self.files.push(Stored { name, bytes })?;
        Ok(())
    }

    // Logs the names of files that are opened together.
    fn log_names(&mut self, names: Vec<String>) -> Result<(), AllocError>
        ensures files { self.new.files ≡ self.old.files }
        ensures logged { OnOk result (⟦<FilesInMemory as FileSystem>⟧.log self.new
            ≡ with_opened (⟦<FilesInMemory as FileSystem>⟧.log self.old) (map string_bytes names.items)) }
        ensures failed { OnErr result (⟦<FilesInMemory as FileSystem>⟧.log self.new ≡ ⟦<FilesInMemory as FileSystem>⟧.log self.old) }
    {
        if !names.is_empty() {
            self.opened.push(names)?;
        }
        Ok(())
    }

    /// The bytes of the file of a name.
    pub fn bytes(&self, name: &str) -> Option<&[u8]>
        ensures { option_map (λ bytes. bytes.now) result
            ≡ bytes_under (⟦<FilesInMemory as FileSystem>⟧.under self.now) name.now }
    {
        let mut found = None;
        for file in &self.files {
            found = found_with(found, file, name);
        }
        found
    }
}

// The bytes of the file where that is its name, and else what was found before.
fn found_with<'a>(found: Option<&'a [u8]>, file: &'a Stored, name: &str) -> Option<&'a [u8]>
    ensures { option_map (λ bytes. bytes.now) result
        ≡ found_with_of name.now (option_map (λ bytes. bytes.now) found.entry) file.now }
{
    if file.name.as_str() == name {
        Some(file.bytes.as_slice())
    } else {
        found
    }
}

/// A file that is read. No read of it fails.
#[derive(Drop)]
pub struct Held {
    bytes: VecDeque<u8>,
}

impl Source for Held {
    ghost remaining = { λ file. Some file.bytes.items };

    ghost failure_count = { λ _. 0 };

    fn fetch(&mut self, buf: &mut [u8]) -> io::Result<usize> {
        self.bytes.read(buf)
    }

    fn failures(&self) -> u64 {
        0
    }
}

/// A file that isn't whole yet. No write of it fails: where it can't hold a text, memory was refused, and it is as it was.
#[derive(Drop)]
pub struct Draft {
    // The name that it is to take.
    name: String,
    kind: FileKind,
    bytes: Vec<u8>,
}

impl tigertopo_files::Draft for Draft {
    ghost contents = { λ draft. Some draft.bytes.items };

    ghost failure_count = { λ _. 0 };

    ghost target = { λ draft. string_bytes draft.name };

    ghost kind = { λ draft. draft.kind };

    fn print<T: Text>(&mut self, alloc: Global, text: &T) -> Result<(), Stop> {
        self.bytes = with_printed(alloc, self.bytes.as_slice(), text)?;
        Ok(())
    }
}

impl Opener for FilesInMemory {
    type Reader = Held;

    ghost use Rattle.std.specs.Prelude.{Some};
    ghost use Rattle.tigertopo_memory_files.specs.Keeping.Stored.{file_in};

    ghost held = { λ files name. Some (file_in files.files.items name) };

    fn open_one(&self, alloc: Global, name: &str) -> Result<Held, Stop> {
        held_of(self.bytes(name), alloc)
    }

    fn lasts(&self, _name: &str) -> Result<bool, Stop> {
        Ok(true)
    }
}

impl FileSystem for FilesInMemory {
    type Draft = Draft;

    ghost use Rattle.std.specs.Prelude.{Some, true, refl, map, option_map, string_bytes};
    ghost use Rattle.tigertopo_memory_files.specs.Keeping.Stored.{file_in};

    ghost under = { λ files name. Some (file_in files.files.items name) };

    ghost log = { λ files. record {
      opened = map (λ names. map string_bytes names.items) files.opened.items;
      drafts = files.drafts;
      failures = 0;
      watched = option_map string_bytes files.watched;
    } };

    ghost knows = { true };

    ghost alike = { λ draft. refl };

    fn read<Q: Reading>(
        &mut self,
        alloc: Global,
        names: &[String],
        single: Option<&String>,
        counts: bool,
        reading: &Q,
    ) -> Result<Reply<Q::Answer>, Stop> {
        self.log_names(all_names(alloc, names, single)?)?;
        read_each(self, alloc, names, single, counts, reading)
    }

    fn read_again<Q: Reading>(
        &mut self,
        alloc: Global,
        names: &[String],
        single: Option<&String>,
        reading: &Q,
    ) -> Result<Option<Q::Answer>, Stop> {
        read_each_again(self, alloc, names, single, reading)
    }

    // What is read isn't followed.
    fn may_lack_chains(&self) -> bool {
        true
    }

    fn trouble(&self, alloc: Global, name: &str) -> Result<Option<String>, AllocError> {
        match self.bytes(name) {
            Some(_) => Ok(None),
            None => Ok(Some(String::from_str(alloc, "No such file or directory")?)),
        }
    }

    fn passes(&self, _name: &str) -> bool {
        false
    }

    fn obstacle(&self, _alloc: Global) -> Result<Option<String>, AllocError> {
        Ok(None)
    }

    fn show_progress(&mut self, last: String) {
        self.watched = Some(last);
    }

    fn room(
        &self,
        alloc: Global,
        name: &str,
        read: &[String],
        kind: FileKind,
    ) -> Result<Room, Stop> {
        match room_of(self, alloc, name, read, kind) {
            Ok(room) => Ok(room),
            Err(_) => Err(Stop::Memory),
        }
    }

    fn draft(
        &mut self,
        alloc: Global,
        name: &str,
        _read: &[String],
        kind: FileKind,
    ) -> Result<Draft, Stop> {
        let Some(drafts) = self.drafts.checked_add(1) else {
            return Err(Stop::Memory);
        };
        let name = String::from_str(alloc, name)?;
        self.drafts = drafts;
        Ok(Draft {
            name,
            kind,
            bytes: Vec::new(alloc),
        })
    }

    fn keep(&mut self, _alloc: Global, file: Draft) -> Result<(), Stop> {
        self.drafts = self.drafts.saturating_sub(1);
        match self.store(file.name, file.bytes) {
            Ok(()) => Ok(()),
            Err(_) => Err(Stop::Memory),
        }
    }

    fn discard(&mut self, _file: Draft) {
        self.drafts = self.drafts.saturating_sub(1);
    }
}

impl Lookup for FilesInMemory {
    type File = VecDeque<u8>;

    ghost use Rattle.std.specs.Prelude.{Some};
    ghost use Rattle.tigertopo_memory_files.specs.Keeping.Stored.{file_in};

    ghost held = { λ files. Some (file_in files.files.items) };

    fn look(&self, name: &str, _spot: Spot) -> io::Result<Seen> {
        match self.bytes(name) {
            Some(bytes) => Ok(Seen::File {
                size: bytes.len() as u64,
            }),
            None => Ok(Seen::Nothing),
        }
    }

    fn is_among(&self, name: &str, read: &[String], _spot: Spot) -> bool {
        is_among(name, read)
    }

    fn front(&self, name: &str, _spot: Spot) -> io::Result<VecDeque<u8>> {
        match held_of(self.bytes(name), self.alloc) {
            Ok(held) => Ok(held.bytes),
            Err(_) => Err(io::Error::from(ErrorKind::OutOfMemory)),
        }
    }

    fn beside(&self, alloc: Global, name: &str) -> io::Result<Option<String>> {
        Ok(Some(name_beside(alloc, name)?))
    }
}

// A file of these bytes, which is read, where there are any.
fn held_of(bytes: Option<&[u8]>, alloc: Global) -> Result<Held, Stop>
    ensures bytes { IfOk result (λ file. option_map (λ bytes. bytes.now) bytes.entry ≡ Some file.bytes.items) }
    ensures short { IfOk result (λ file. length file.bytes.items < 2 ^ 63) }
    ensures stop { IfErr result (StopsFor (bytes.entry ≡ None)) }
{
    let Some(bytes) = bytes else {
        return Err(Stop::Device);
    };
    let mut held = VecDeque::new(alloc);
    match held.write(bytes) {
        Ok(_) => Ok(Held { bytes: held }),
        Err(_) => Err(Stop::Memory),
    }
}

// Whether a name is one of these.
fn is_among(name: &str, names: &[String]) -> bool
    ensures among { OnTrue result (Contains (map string_bytes names.now) name.now) }
    ensures none { OnFalse result (¬ Contains (map string_bytes names.now) name.now) }
{
    for other in names {
        if other.as_str() == name {
            return true;
        }
    }
    false
}
