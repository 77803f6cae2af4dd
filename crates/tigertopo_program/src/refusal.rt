//! Whether a file may be made.

ghost use Rattle.std.specs.Prelude.{◌≡◌};
ghost use Rattle.tl_cert_output.specs.Writing.{line_of};
ghost use Rattle.tigertopo_program.specs.Rooms.{refusal_text};
ghost use Rattle.tl_cert_output.specs.Streams.{Tries, stream};

use crate::stop::{USAGE, try_to_write};
use tigertopo_files::{FileKind, Room};
use tl_record::Sink;

/// Says why no file of this kind may be made, and gives the exit status of that. Where it can't be written, the status alone is left to
/// tell it.
pub fn say_refusal<E: Sink>(kind: FileKind, room: Room, err: &mut E) -> u8
    ensures status { result ≡ 64 }
    ensures said { Tries (stream E.contents E.failure_count err.old err.new) (line_of (refusal_text kind room)) }
{
    try_to_write(refusal_line(kind, room), err);
    USAGE
}

// What is said.
fn refusal_line<'a>(kind: FileKind, room: Room) -> &'a [u8]
    ensures { result.now ≡ line_of (refusal_text kind room) }
{
    match (room, kind) {
        (Room::Free, _) => b"\n",
        (Room::IsRead, _) => b"OUT is one of the files that are read\n",
        (Room::IsReadBeside, _) => b"OUT.unfinished is one of the files that are read\n",
        (Room::Taken, FileKind::Certificate) => b"OUT stands and is no certificate\n",
        (Room::Taken, FileKind::Collection) => b"OUT stands and is no GeoJSON of tigertopo\n",
        (Room::Taken, FileKind::Picture) => b"OUT stands and is no picture of tigertopo\n",
        (Room::Taken, FileKind::Records) => b"OUT stands and is no border of tigertopo\n",
        (Room::TakenBeside, FileKind::Certificate) => {
            b"OUT.unfinished stands and is no certificate\n"
        }
        (Room::TakenBeside, FileKind::Collection) => {
            b"OUT.unfinished stands and is no GeoJSON of tigertopo\n"
        }
        (Room::TakenBeside, FileKind::Picture) => {
            b"OUT.unfinished stands and is no picture of tigertopo\n"
        }
        (Room::TakenBeside, FileKind::Records) => {
            b"OUT.unfinished stands and is no border of tigertopo\n"
        }
    }
}
