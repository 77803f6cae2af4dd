//! Whether the file that a command makes may be made.

ghost use Rattle.std.specs.Prelude.{◌≡◌, IfOk, IfErr, map, string_bytes};
ghost use Rattle.tl_cert_output.specs.Stops.{StopsFor};
ghost use Rattle.tigertopo_program.specs.Commands.{kind_of, inputs_of};
ghost use Rattle.tigertopo_program.specs.Running.{IsRoomFor, IsUnknown};

use std::alloc::Global;
use std::slice;
use tigertopo_files::{FileKind, FileSystem, Room};
use tigertopo_words::{Asked, Command};
use tl_cert_output::Stop;

/// Whether the file that a command makes may be made, if it makes one.
pub fn room_of<F: FileSystem>(files: &F, alloc: Global, command: &Command) -> Result<Room, Stop>
    ensures room { IfOk result (IsRoomFor (F.under files.now) command.now) }
    ensures stops { IfErr result (StopsFor (IsUnknown (F.under files.now) command.now)) }
{
    match command.made() {
        Some(name) => files.room(
            alloc,
            name.as_str(),
            inputs_of(command),
            kind_of(&command.asked),
        ),
        None => Ok(Room::Free),
    }
}

/// The kind of the file that is made, where one is.
pub fn kind_of(asked: &Asked) -> FileKind
    ensures { result ≡ kind_of asked.now }
{
    match asked {
        Asked::Audit { .. } | Asked::Export { .. } => FileKind::Collection,
        Asked::Draw { .. } => FileKind::Picture,
        Asked::Border { .. } => FileKind::Records,
        _ => FileKind::Certificate,
    }
}

// The names of the files that are read where one is made.
fn inputs_of(command: &Command) -> &[String]
    ensures { map string_bytes result.now ≡ inputs_of command.now }
{
    match &command.asked {
        Asked::Convert { cert, .. } => slice::from_ref(cert),
        _ => command.files.as_slice(),
    }
}
