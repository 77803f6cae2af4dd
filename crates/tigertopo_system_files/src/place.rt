//! The system's names, and where a new file of the system is written.
//!
//! As in [`system`](crate::system), the order of the system's calls is trusted here.

ghost use Rattle.std.specs.Prelude.{◌≡◌, true, IfOk, IfSome, string_bytes};
ghost use Rattle.std.specs.Fs.{IsFile, file_type};
ghost use Rattle.tigertopo_files.specs.Files.{beside as beside_by};

use crate::front::is_unfinished;
use crate::looking::{Lookup, Seen, Spot, Standing, name_beside, stands_under};
use crate::new_file::Place;
use crate::stops::found;
use std::alloc::Global;
use std::fs::{File, Metadata, OpenOptions, TryLockError};
use std::io::{Error, ErrorKind, Seek, SeekFrom};
use std::os::unix::fs::MetadataExt;
use std::path::AsPath;
use std::rt::Files;
use std::{fs, io};
use tigertopo_files::FileKind;

/// The names of the system.
#[derive(Drop)]
pub struct Names<'a, R> {
    pub rt: &'a R,
}

impl<R: Files<File = File>> Lookup for Names<'_, R> {
    type File = File;

    ghost use Rattle.std.specs.Prelude.{None};

    ghost held = { λ _. None };

    fn look(&self, name: &str, spot: Spot) -> io::Result<Seen> {
        match found(stands_at(self.rt, name, spot))? {
            None => Ok(Seen::Nothing),
            Some(stands) if is_lone(&stands, spot) => Ok(Seen::File { size: stands.len() }),
            Some(_) => Ok(Seen::NoFile),
        }
    }

    fn is_among(&self, name: &str, read: &[String], spot: Spot) -> bool {
        let Ok(stands) = stands_at(self.rt, name, spot) else {
            return false;
        };
        for other in read {
            if let Ok(other) = fs::metadata(self.rt, other.as_str()) {
                if stands.is_file() && is_same(&stands, &other) {
                    return true;
                }
            }
        }
        false
    }

    fn front(&self, name: &str, spot: Spot) -> io::Result<File> {
        match spot {
            Spot::Name => File::open(self.rt, name),
            Spot::Beside => open_both_ways(self.rt, name),
        }
    }

    fn beside(&self, alloc: Global, name: &str) -> io::Result<Option<String>> {
        let target = target_of(self.rt, alloc, name)?;
        beside_of(self.rt, alloc, target.as_str())
    }
}

/// Where a new file of a kind is written that is to take a name: beside it, under that name and `.unfinished`. Where no regular file
/// stands under the name (a pipe, a device, a link that leads nowhere), it is written there.
#[derive(Drop)]
pub struct SystemPlace<'a, R> {
    rt: &'a R,
    // The file whose name it takes: where the name is a link, what the link leads to.
    target: String,
    // Where it is written, if that is beside the target.
    beside: Option<String>,
    kind: FileKind,
}

impl<R: Files<File = File>> Place for SystemPlace<'_, R> {
    type File = File;

    ghost use Rattle.std.specs.Prelude.{false, ⊤};

    ghost is_known = { λ _. false };

    ghost has_name = { λ _ _. ⊤ };

    ghost is_away = { λ _. ⊤ };

    fn make(&self) -> io::Result<File> {
        match &self.beside {
            Some(beside) => self.make_beside(beside.as_str()),
            None => self.open_target(),
        }
    }

    // What stands under the name by now is looked at again.
    fn take_name(&self, file: &File) -> io::Result<()> {
        let Some(beside) = &self.beside else {
            return Ok(());
        };
        file.sync_all()?;
        let target = self.target.as_str();
        let stands = stands_under(&Names { rt: self.rt }, target, &[], self.kind, Spot::Name)?;
        if !matches!(stands, Standing::Free) {
            return Err(Error::from(ErrorKind::AlreadyExists));
        }
        fs::rename(self.rt, beside.as_str(), target)
    }

    fn take_away(&self) {
        if let Some(beside) = &self.beside {
            let _ = fs::remove_file(self.rt, beside.as_str());
        }
    }
}

impl<'a, R: Files<File = File>> SystemPlace<'a, R> {
    /// Where a file is written that is to take this name.
    pub fn new(
        rt: &'a R,
        alloc: Global,
        name: &str,
        kind: FileKind,
    ) -> io::Result<SystemPlace<'a, R>>
        ensures kind { IfOk result (λ place. place.kind ≡ kind) }
        ensures beside { IfOk result (λ place. IfSome place.beside (λ beside. string_bytes beside ≡ beside_by (string_bytes place.target))) }
    {
        let target = target_of(rt, alloc, name)?;
        let beside = beside_of(rt, alloc, target.as_str())?;
        Ok(SystemPlace {
            rt,
            target,
            beside,
            kind,
        })
    }

    // What stands under the name, opened. It is no regular file, or one that is made by that.
    fn open_target(&self) -> io::Result<File> {
        let file = OpenOptions::new()
            .write(true)
            .create(true)
            .open(self.rt, self.target.as_str())?;
        let stands = file.metadata()?;
        if stands.is_file() && stands.len() > 0 {
            return Err(Error::from(ErrorKind::AlreadyExists));
        }
        Ok(file)
    }

    // Makes a file beside the name, or takes over one that an earlier run left; with the permissions of the file in whose place it
    // comes.
    fn make_beside(&self, beside: &str) -> io::Result<File> {
        let file = match File::create_new(self.rt, beside) {
            Ok(file) => {
                lock(&file)?;
                file
            }
            Err(error) if error.kind() == ErrorKind::AlreadyExists => self.take_over(beside)?,
            Err(error) => return Err(error),
        };
        if let Ok(stands) = fs::metadata(self.rt, self.target.as_str()) {
            file.set_permissions(stands.permissions())?;
        }
        Ok(file)
    }

    // Empties a file that an earlier run left. One that another run is making, or that is none of ours, is left alone.
    fn take_over(&self, beside: &str) -> io::Result<File> {
        if !is_lone(&stands_at(self.rt, beside, Spot::Beside)?, Spot::Beside) {
            return Err(Error::from(ErrorKind::AlreadyExists));
        }
        let mut file = open_both_ways(self.rt, beside)?;
        lock(&file)?;
        if !self.is_left(beside, &mut file)? {
            return Err(Error::from(ErrorKind::AlreadyExists));
        }
        file.set_len(0)?;
        file.seek(SeekFrom::Start(0))?;
        Ok(file)
    }

    // Whether this opened file is one that an earlier run left here: a regular one that still stands here and has no other name,
    // and begins as those of the kind do, or ends before it could.
    fn is_left(&self, beside: &str, file: &mut File) -> io::Result<bool> {
        let opened = file.metadata()?;
        let stands = stands_at(self.rt, beside, Spot::Beside)?;
        if !is_lone(&opened, Spot::Beside) || !is_same(&opened, &stands) {
            return Ok(false);
        }
        is_unfinished(file, opened.len(), self.kind)
    }
}

// The file whose name a new one takes: where the name is a link, what the link leads to.
fn target_of<R: Files>(rt: &R, alloc: Global, name: &str) -> io::Result<String> {
    if let Ok(stands) = fs::symlink_metadata(rt, name) {
        if stands.is_symlink() {
            if let Ok(path) = rt.canonicalize(alloc, name) {
                return Ok(String::from_str(alloc, path.path_text())?);
            }
        }
    }
    Ok(String::from_str(alloc, name)?)
}

// The name of a new file that is to take this one, where a regular file stands under it, or nothing. A link is left here only
// where it leads nowhere.
fn beside_of<R: Files>(rt: &R, alloc: Global, target: &str) -> io::Result<Option<String>>
    ensures { IfOk result (λ name. IfSome name (λ beside. string_bytes beside ≡ beside_by target.now)) }
{
    if let Ok(stands) = fs::symlink_metadata(rt, target) {
        if !stands.is_file() {
            return Ok(None);
        }
    }
    Ok(Some(name_beside(alloc, target)?))
}

// The file of a name, to be read and written. An open of this kind waits for no one, should a pipe have come there.
fn open_both_ways<R: Files<File = File>>(rt: &R, name: &str) -> io::Result<File> {
    OpenOptions::new().read(true).write(true).open(rt, name)
}

// What stands under a name. Under that of a file that isn't whole yet no link is followed.
fn stands_at<R: Files>(rt: &R, name: &str, spot: Spot) -> io::Result<Metadata> {
    match spot {
        Spot::Name => fs::metadata(rt, name),
        Spot::Beside => fs::symlink_metadata(rt, name),
    }
}

// Whether this is a regular file, and under the name of one that isn't whole yet one that has no other name.
fn is_lone(stands: &Metadata, spot: Spot) -> bool
    ensures { result ≡ true → IsFile (file_type stands.now) }
{
    stands.is_file() && (matches!(spot, Spot::Name) || stands.nlink() == 1)
}

// Whether these are one file.
fn is_same(one: &Metadata, other: &Metadata) -> bool {
    one.dev() == other.dev() && one.ino() == other.ino()
}

// Locks a file that is written against other runs. Where the system has no locks for it, it does without.
fn lock(file: &File) -> io::Result<()> {
    match file.try_lock() {
        Err(TryLockError::WouldBlock) => Err(Error::from(ErrorKind::WouldBlock)),
        _ => Ok(()),
    }
}
