//! From the words to the exit status.

ghost use Rattle.std.specs.Prelude.{IfErr, map, string_bytes};
ghost use Rattle.tigertopo_files.specs.World.{world};
ghost use Rattle.tl_cert_output.specs.Streams.{stream};
ghost use Rattle.tigertopo_program.specs.Hinting.{behind};
ghost use Rattle.tigertopo_program.specs.Running.{streams};
ghost use Rattle.tigertopo_program.specs.Starting.{AnswersWords, IsUnread, Starts};

use crate::run::run;
use crate::stop::stopped;
use crate::usage::say_stop;
use std::alloc::Global;
use std::hash::RandomState;
use std::io;
use tigertopo_files::FileSystem;
use tigertopo_words::{WordsStop, words};
use tl_cert_output::Stop;
use tl_record::Sink;

/// Does what the words of the command line ask, and gives the program's exit status: the words behind the program's name or why they
/// can't be read, and the keys of hashers or that there are none, are what the system gave. Behind a refused line, a device that
/// failed, and an answer to files without chains it is said what helps, of the files as they stand then.
pub fn answer<F: FileSystem, W: Sink, E: Sink>(
    files: &mut F,
    alloc: Global,
    hasher: io::Result<RandomState>,
    words: Result<Vec<String>, WordsStop>,
    out: &mut W,
    err: &mut E,
) -> u8
    requires { IfErr words IsUnread }
    // Files and the error output are, behind what is answered and before what helps, as `done` and `told` say.
    ensures { (done : F) × (told : E)
        × AnswersWords words
        (world F.under F.log F.knows files.old done)
        (streams (stream W.contents W.failure_count out.old out.new) (stream E.contents E.failure_count err.old told))
        (behind (world F.under F.log F.knows done files.new) (stream E.contents E.failure_count told err.new)) result }
{
    let words = match words {
        Ok(words) => words,
        Err(unread) => return say_stop(alloc, &unread, out, err),
    };
    let Ok(hasher) = hasher else {
        return stopped(&Stop::Device, err);
    };
    start(files, alloc, hasher, words.as_slice(), out, err)
}

/// Does what these words ask, and gives the program's exit status.
pub fn start<F: FileSystem, W: Sink, E: Sink>(
    files: &mut F,
    alloc: Global,
    hasher: RandomState,
    words: &[String],
    out: &mut W,
    err: &mut E,
) -> u8
    ensures { (done : F) × (told : E)
        × Starts (map string_bytes words.now)
        (world F.under F.log F.knows files.old done)
        (streams (stream W.contents W.failure_count out.old out.new) (stream E.contents E.failure_count err.old told))
        (behind (world F.under F.log F.knows done files.new) (stream E.contents E.failure_count told err.new)) result }
{
    match words::command(alloc, words) {
        Ok(command) => run(files, alloc, hasher, words, &command, out, err),
        Err(stop) => say_stop(alloc, &stop, out, err),
    }
}
