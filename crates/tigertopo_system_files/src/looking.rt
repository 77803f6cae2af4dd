//! Whether a file may be made, by what is seen under its name and beside it.

ghost use Rattle.std.specs.Prelude.{◌≡◌, Option, Some, IfOk, IfSome, Contains, length, map, option_map, string_bytes};
ghost use Rattle.std.specs.Bool.{OnTrue, OnFalse};
ghost use Rattle.tigertopo_files.specs.Files.{beside};
ghost use Rattle.tigertopo_system_files.specs.declared.looking.Spot.TheVariants.{Beside};
ghost use Rattle.tigertopo_system_files.specs.Looking.{Held, IsSeenAs, IsStanding, IsRoomAt, may_at};

use crate::front::{is_of_kind, is_unfinished};
use std::alloc::{AllocError, Global};
use std::io;
use std::io::Read;
use tigertopo_files::{FileKind, Room};

/// Where it is looked.
#[derive(Clone, Copy)]
pub enum Spot {
    /// Under the name that a new file is to take.
    Name,
    /// Under the name of one that isn't whole yet.
    Beside,
}

/// What is seen under a name.
#[derive(Clone, Copy)]
pub enum Seen {
    /// Nothing.
    Nothing,
    /// No regular file.
    NoFile,
    /// A regular file of so many bytes.
    File { size: u64 },
}

/// What it comes to for a new file.
#[derive(Clone, Copy)]
pub enum Standing {
    /// Nothing stands there, or what may go, and it isn't read.
    Free,
    /// No regular file does.
    NoFile,
    /// It is one of the files that are read.
    IsRead,
    /// What stands there may not go.
    Stays,
}

/// Names under which files may stand.
pub trait Lookup {
    /// A file that is looked at.
    type File: Read + Drop;

    // What stands under each name, where that is known.
    ghost held: { Self → Option Held };

    /// What is seen under a name.
    fn look(&self, name: &str, spot: Spot) -> io::Result<Seen>
        ensures { IfOk result (λ seen. IfSome (held self.now) (λ at. IsSeenAs (at name.now) seen)) };

    /// Whether what stands under a name is one of the files of these names.
    fn is_among(&self, name: &str, read: &[String], spot: Spot) -> bool
        ensures among { OnTrue result (IfSome (held self.now) (λ at. Contains (map string_bytes read.now) name.now)) }
        ensures none { OnFalse result (IfSome (held self.now) (λ at. ¬ Contains (map string_bytes read.now) name.now)) };

    /// The file that stands under a name, to be read from its front.
    fn front(&self, name: &str, spot: Spot) -> io::Result<Self::File>
        ensures { IfOk result (λ file. IfSome (held self.now) (λ at. Self.File.remaining file ≡ at name.now)) };

    /// The name of a file that isn't whole yet, which is to take this one; none where it is written straight to what stands there.
    fn beside(&self, alloc: Global, name: &str) -> io::Result<Option<String>>
        ensures { IfOk result (λ other. IfSome (held self.now) (λ at. option_map string_bytes other ≡ Some (beside name.now))) };
}

/// The name of a new file that isn't whole yet, which is to take this one.
pub fn name_beside(alloc: Global, name: &str) -> Result<String, AllocError>
    ensures { IfOk result (λ other. string_bytes other ≡ beside name.now) }
{
    let mut other = String::from_str(alloc, name)?;
    other.push_str(".unfinished")?;
    Ok(other)
}

/// Whether a new file of this kind may take a name, where those of the names `read` are read.
pub fn room_of<L: Lookup>(
    files: &L,
    alloc: Global,
    name: &str,
    read: &[String],
    kind: FileKind,
) -> io::Result<Room>
    ensures { IfOk result (λ room. IfSome (L.held files.now)
        (λ at. IsRoomAt at name.now (map string_bytes read.now) kind room)) }
{
    match stands_under(files, name, read, kind, Spot::Name)? {
        Standing::NoFile => Ok(Room::Free),
        Standing::IsRead => Ok(Room::IsRead),
        Standing::Stays => Ok(Room::Taken),
        Standing::Free => match stands_beside(files, alloc, name, read, kind)? {
            Standing::Free => Ok(Room::Free),
            Standing::IsRead => Ok(Room::IsReadBeside),
            Standing::Stays | Standing::NoFile => Ok(Room::TakenBeside),
        },
    }
}

// What stands beside the name. Where nothing is written there, it is free.
fn stands_beside<L: Lookup>(
    files: &L,
    alloc: Global,
    name: &str,
    read: &[String],
    kind: FileKind,
) -> io::Result<Standing>
    ensures { IfOk result (λ standing. IfSome (L.held files.now) (λ at. IsStanding (may_at Beside kind) (at (beside name.now))
        (Contains (map string_bytes read.now) (beside name.now)) standing)) }
{
    match files.beside(alloc, name)? {
        Some(beside) => stands_under(files, beside.as_str(), read, kind, Spot::Beside),
        None => Ok(Standing::Free),
    }
}

/// What stands under a name.
pub fn stands_under<L: Lookup>(
    files: &L,
    name: &str,
    read: &[String],
    kind: FileKind,
    spot: Spot,
) -> io::Result<Standing>
    ensures { IfOk result (λ standing. IfSome (L.held files.now) (λ at. IsStanding (may_at spot kind) (at name.now)
        (Contains (map string_bytes read.now) name.now) standing)) }
{
    if files.is_among(name, read, spot) {
        return Ok(Standing::IsRead);
    }
    match files.look(name, spot)? {
        Seen::Nothing => Ok(Standing::Free),
        Seen::NoFile => Ok(Standing::NoFile),
        Seen::File { size } => {
            if goes(files, name, size, kind, spot)? {
                Ok(Standing::Free)
            } else {
                Ok(Standing::Stays)
            }
        }
    }
}

// Whether the file of this size may go.
fn goes<L: Lookup>(files: &L, name: &str, size: u64, kind: FileKind, spot: Spot) -> io::Result<bool>
    ensures { IfOk result (λ goes. IfSome (L.held files.now) (λ at. IfSome (at name.now)
        (λ bytes. size ≡ length bytes → goes ≡ may_at spot kind bytes))) }
{
    if size == 0 {
        return Ok(true);
    }
    let mut file = files.front(name, spot)?;
    match spot {
        Spot::Name => is_of_kind(&mut file, size, kind),
        Spot::Beside => is_unfinished(&mut file, size, kind),
    }
}
