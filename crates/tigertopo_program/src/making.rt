//! Answers behind a file that is made.

ghost use Rattle.std.specs.Prelude.{[], Some, map, string_bytes};
ghost use Rattle.tigertopo_files.specs.Files.{IsFree};
ghost use Rattle.tigertopo_files.specs.World.{Does, world};
ghost use Rattle.tigertopo_program.specs.Answers.{AnswersBeside};
ghost use Rattle.tigertopo_program.specs.Records.{StopsNever};

use crate::answer::Answer;
use std::alloc::Global;
use tigertopo_files::{FileKind, FileSystem, make_file};
use tl_cert_output::{Stop, Text};

/// Makes the file of a text, of the name `made`, which it may take where files of `names` are read, and gives this answer. The file takes
/// its name when it is whole.
pub(crate) fn answer_with_file<F: FileSystem, T: Text>(
    files: &mut F,
    alloc: Global,
    made: &String,
    names: &[String],
    kind: FileKind,
    text: &T,
    answer: Answer,
) -> Result<Answer, Stop>
    requires free { IsFree (F.under files.old) (string_bytes made.now) (map string_bytes names.now) kind }
    requires ready { T.is_ready text.now }
    ensures { let w = world F.under F.log F.knows files.old files.new in
        Does w [] (Some (string_bytes made.now)) (AnswersBeside w (string_bytes made.now) (T.text text.now) answer) StopsNever result }
{
    make_file(files, alloc, made.as_str(), names, kind, text)?;
    Ok(answer)
}
