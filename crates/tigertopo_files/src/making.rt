//! Files that are made of a text, whole or not at all.

ghost use Rattle.std.specs.Prelude.{◌≡◌, true, map, string_bytes};
ghost use Rattle.tigertopo_files.specs.Files.{IsFree, MakesFile};
ghost use Rattle.tigertopo_files.specs.Log.{Fails, LogsFailure};

use crate::beginning::FileKind;
use crate::file_system::{Draft, FileSystem};
use std::alloc::Global;
use tl_cert_output::{Stop, Text};

/// Makes a file of this kind of a text. It takes its name when it is whole, which it may, where the files of the names `read` are read:
/// that is asked before, by [`FileSystem::room`]. Where it stops, what stood under the name stays.
pub fn make_file<F: FileSystem, T: Text>(
    files: &mut F,
    alloc: Global,
    name: &str,
    read: &[String],
    kind: FileKind,
    text: &T,
) -> Result<(), Stop>
    requires free { IsFree (F.under files.old) name.now (map string_bytes read.now) kind }
    requires ready { T.is_ready text.now }
    ensures made { MakesFile (F.under files.old) (F.under files.new) name.now (Fails F.knows (F.log files.old) (F.log files.new))
        (T.text text.now) result }
    // No new file is left behind, and a failure is counted where `Device` is answered, and nowhere else.
    ensures logged { F.knows ≡ true → LogsFailure (F.log files.old) (F.log files.new) result }
{
    let mut draft = files.draft(alloc, name, read, kind)?;
    match draft.print(alloc, text) {
        Ok(()) => files.keep(alloc, draft),
        Err(stop) => {
            files.discard(draft);
            Err(stop)
        }
    }
}
