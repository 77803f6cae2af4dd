//! The files of the system: which calls of it are made, and in which order.
//!
//! What stands under the system's names no contract knows, so of this file and of [`place`](crate::place) it is proved that they are
//! safe and end, and their order of calls is trusted. What is made of the bytes and the errors that the calls answer stands in the
//! files beside them, and is proved there of any reader and any writer.

ghost use Rattle.std.specs.Prelude.{◌≡◌, false, None, IfOk, ⊤};
ghost use Rattle.tl_cert_output.specs.Stops.{StopsFor};

use crate::looking::room_of;
use crate::new_file::NewFile;
use crate::noted::{Note, NotedReader, no_chain};
use crate::place::{Names, SystemPlace};
use crate::progress::Progress;
use crate::reading::{ShownReader, read_through};
use crate::stops::{or_stop, stop_of, words_of};
use std::alloc::{AllocError, Global};
use std::cell::{Cell, RefCell};
use std::fs::File;
use std::io::{Eprint, Read};
use std::rt::Files;
use std::time::Clock;
use std::{fs, io};
use tigertopo_files::{
    FileKind, FileSystem, Opener, Reading, Reply, Room, read_each, read_each_again,
};
use tl_cert_output::Stop;
use tl_record::{Meter, Source};

// What the system answers where a process has as many files open as it may have (EMFILE).
const TOO_MANY_OPEN: i32 = 24;

/// The files of the system. What stands under its names no contract knows.
#[derive(Drop)]
pub struct SystemFiles<'a, R> {
    rt: &'a R,
    // Whether the error output is a terminal, where someone sees how far reading is.
    is_seen: bool,
    // The name of the file that is read last, where it is to be shown how far reading is.
    last: Option<String>,
    // What the system answered where the last new file wasn't made, or it couldn't be seen whether its name is free.
    obstacle: RefCell<Option<io::Error>>,
    // Which file couldn't be opened last, and what the system answered: with other files open, which aren't when it is asked why.
    unopened: RefCell<Option<(String, io::Error)>>,
    // Whether a line of records began as one of type 1 does.
    note: Option<Note>,
    // How many files of records are opened by the read that is under way, before the others, and how many of them are.
    records: usize,
    begun: Cell<usize>,
}

impl<'a, R: Files<File = File> + Clock + Eprint> SystemFiles<'a, R> {
    /// The files that the runtime reaches. `is_seen` says whether its error output is a terminal.
    pub fn new(rt: &'a R, alloc: Global, is_seen: bool) -> SystemFiles<'a, R> {
        SystemFiles {
            rt,
            is_seen,
            last: None,
            obstacle: RefCell::new(None),
            unopened: RefCell::new(None),
            note: no_chain(alloc),
            records: 0,
            begun: Cell::new(0),
        }
    }

    // The file of a name, opened.
    fn opened(
        &self,
        alloc: Global,
        name: &str,
    ) -> io::Result<Meter<ShownReader<'a, NotedReader<File>, R>>>
        ensures { IfOk result (λ file. ⟦<Meter<ShownReader<'a, NotedReader<File>, R>> as Source>⟧.failure_count file ≡ 0) }
    {
        let file = File::open(self.rt, name)?;
        let progress = self.progress_of(alloc, name, &file);
        Ok(Meter::new(ShownReader::new(self.noted(file), progress)))
    }

    // The reader of the file that is opened now, of whose lines that is noted which is to be, if it is one of records.
    fn noted(&self, file: File) -> NotedReader<File>
        ensures { ⟦<NotedReader<File> as Read>⟧.remaining result ≡ ⟦<File as Read>⟧.remaining file }
    {
        let place = self.begun.get();
        if place >= self.records {
            return NotedReader::new(file, None);
        }
        self.begun.set(place + 1);
        let note = match &self.note {
            Some(note) => note.clone().ok(),
            None => None,
        };
        NotedReader::new(file, note)
    }

    // So many files of records are opened next.
    fn begin(&mut self, records: usize)
        ensures { self.new.records ≡ records }
    {
        self.begun.set(0);
        self.records = records;
    }

    // How far the reading of this file is, where that is to be shown.
    fn progress_of(&self, alloc: Global, name: &str, file: &File) -> Option<Progress<'a, R>>
        ensures { self.now.last ≡ None → result ≡ None }
    {
        let Some(last) = &self.last else {
            return None;
        };
        let Ok(shown) = String::from_str(alloc, name) else {
            return None;
        };
        let size = match file.metadata() {
            Ok(stands) if stands.is_file() => stands.len(),
            _ => 0,
        };
        Progress::new(self.rt, shown, size, last.as_str() == name)
    }

    // What is told where the system answers an error of a new file.
    fn stopped_by(&self, error: io::Error) -> Stop
        ensures { StopsFor ⊤ result }
    {
        let stop = stop_of(&error);
        self.set_obstacle(Some(error));
        stop
    }

    // Keeps what the system answered of a new file.
    fn set_obstacle(&self, error: Option<io::Error>) {
        if let Ok(mut obstacle) = self.obstacle.try_borrow_mut() {
            *obstacle = error;
        }
    }

    // What is told where the system doesn't open the file of a name.
    fn unopened_by(&self, alloc: Global, name: &str, error: io::Error) -> Stop
        ensures { StopsFor ⊤ result }
    {
        let stop = stop_of(&error);
        let Ok(name) = String::from_str(alloc, name) else {
            return stop;
        };
        if let Ok(mut unopened) = self.unopened.try_borrow_mut() {
            *unopened = Some((name, error));
        }
        stop
    }

    // Why the file of a name couldn't be opened, if it is the last one that couldn't be.
    fn words_of_unopened(&self, alloc: Global, name: &str) -> Result<Option<String>, AllocError> {
        let Ok(unopened) = self.unopened.try_borrow() else {
            return Ok(None);
        };
        match &*unopened {
            Some((other, error)) if other.as_str() == name => Ok(Some(words_to_open(
                alloc, error,
            )?)),
            _ => Ok(None),
        }
    }

    // Reads the file of a name to its end. A pipe isn't opened: it may have no end.
    fn read_all(&self, name: &str) -> io::Result<()> {
        let stands = fs::metadata(self.rt, name)?;
        if stands.is_file() || stands.is_dir() {
            return read_through(&mut Meter::new(File::open(self.rt, name)?));
        }
        Ok(())
    }
}

// Why a file can't be opened, in the system's words, and what to type where too many are open.
fn words_to_open(alloc: Global, error: &io::Error) -> Result<String, AllocError> {
    let mut words = words_of(alloc, error)?;
    if error.raw_os_error() == Some(TOO_MANY_OPEN) {
        words.push_str(", which `ulimit -n 4096` may mend")?;
    }
    Ok(words)
}

impl<'a, R: Files<File = File> + Clock + Eprint> Opener for SystemFiles<'a, R> {
    type Reader = Meter<ShownReader<'a, NotedReader<File>, R>>;

    ghost use Rattle.std.specs.Prelude.{None};

    ghost held = { λ _ _. None };

    fn open_one(
        &self,
        alloc: Global,
        name: &str,
    ) -> Result<Meter<ShownReader<'a, NotedReader<File>, R>>, Stop> {
        match self.opened(alloc, name) {
            Ok(file) => Ok(file),
            Err(error) => Err(self.unopened_by(alloc, name, error)),
        }
    }

    fn lasts(&self, name: &str) -> Result<bool, Stop> {
        Ok(or_stop(fs::metadata(self.rt, name))?.is_file())
    }
}

impl<'a, R: Files<File = File> + Clock + Eprint> FileSystem for SystemFiles<'a, R> {
    type Draft = NewFile<SystemPlace<'a, R>, File>;

    ghost use Rattle.std.specs.Prelude.{None, false};
    ghost use Rattle.tigertopo_files.specs.Log.{nothing_done};
    ghost use Rattle.tigertopo_system_files.specs.Calls.{file_of, not_known};

    ghost under = { λ _ _. None };

    ghost log = { λ _. nothing_done };

    ghost knows = { false };

    ghost alike = { λ draft. not_known (file_of draft) };

    fn read<Q: Reading>(
        &mut self,
        alloc: Global,
        names: &[String],
        single: Option<&String>,
        counts: bool,
        reading: &Q,
    ) -> Result<Reply<Q::Answer>, Stop> {
        self.begin(names.len());
        let reply = read_each(self, alloc, names, single, counts, reading);
        self.records = 0;
        reply
    }

    fn read_again<Q: Reading>(
        &mut self,
        alloc: Global,
        names: &[String],
        single: Option<&String>,
        reading: &Q,
    ) -> Result<Option<Q::Answer>, Stop> {
        read_each_again(self, alloc, names, single, reading)
    }

    fn may_lack_chains(&self) -> bool {
        match &self.note {
            Some(note) => !note.get(),
            None => true,
        }
    }

    fn trouble(&self, alloc: Global, name: &str) -> Result<Option<String>, AllocError> {
        if let Some(words) = self.words_of_unopened(alloc, name)? {
            return Ok(Some(words));
        }
        match self.read_all(name) {
            Ok(()) => Ok(None),
            Err(error) => Ok(Some(words_of(alloc, &error)?)),
        }
    }

    fn passes(&self, name: &str) -> bool {
        match fs::metadata(self.rt, name) {
            Ok(stands) => !stands.is_file() && !stands.is_dir(),
            Err(_) => false,
        }
    }

    fn obstacle(&self, alloc: Global) -> Result<Option<String>, AllocError> {
        let Ok(obstacle) = self.obstacle.try_borrow() else {
            return Ok(None);
        };
        match &*obstacle {
            Some(error) => Ok(Some(words_of(alloc, error)?)),
            None => Ok(None),
        }
    }

    fn show_progress(&mut self, last: String) {
        if self.is_seen {
            self.last = Some(last);
        }
    }

    fn room(
        &self,
        alloc: Global,
        name: &str,
        read: &[String],
        kind: FileKind,
    ) -> Result<Room, Stop> {
        match room_of(&Names { rt: self.rt }, alloc, name, read, kind) {
            Ok(room) => Ok(room),
            Err(error) => Err(self.stopped_by(error)),
        }
    }

    fn draft(
        &mut self,
        alloc: Global,
        name: &str,
        _read: &[String],
        kind: FileKind,
    ) -> Result<NewFile<SystemPlace<'a, R>, File>, Stop> {
        let taken = String::from_str(alloc, name)?;
        match SystemPlace::new(self.rt, alloc, name, kind) {
            Ok(place) => Ok(NewFile::new(taken, kind, place)),
            Err(error) => Err(self.stopped_by(error)),
        }
    }

    fn keep(
        &mut self,
        _alloc: Global,
        file: NewFile<SystemPlace<'a, R>, File>,
    ) -> Result<(), Stop> {
        match file.settle() {
            Ok(()) => Ok(()),
            Err(error) => Err(self.stopped_by(error)),
        }
    }

    fn discard(&mut self, file: NewFile<SystemPlace<'a, R>, File>) {
        self.set_obstacle(file.discard());
    }
}
