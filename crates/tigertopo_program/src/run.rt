//! Doing what a command asks, telling what came of it, and what helps behind that.

ghost use Rattle.std.specs.Prelude.{◌≡◌, true, OnOk, OnErr, option_map, map, string_bytes};
ghost use Rattle.tigertopo_files.specs.World.{world};
ghost use Rattle.tl_cert_output.specs.Streams.{stream};
ghost use Rattle.tigertopo_program.specs.Hinting.{HintsBy, behind};
ghost use Rattle.tigertopo_program.specs.Running.{IsUnknown, Runs, last_of, streams, watched};
ghost use Rattle.tigertopo_program.specs.Telling.{Tells};

use crate::answer::Answer;
use crate::hint::hint;
use crate::perform::perform;
use crate::refusal::say_refusal;
use crate::room::{kind_of, room_of};
use crate::telling::tell;
use std::alloc::{AllocError, Global};
use std::hash::RandomState;
use tigertopo_files::{FileSystem, Room};
use tigertopo_words::{Asked, Command};
use tl_cert_output::Stop;
use tl_record::Sink;

/// Does what a command asks that these words mean, and gives the exit status: nothing is done where the file that it makes may not be made.
/// All files are opened before the first is read, each once and in the order of their names; a file that is made takes its name when it is
/// whole. Behind a refused line, a device that failed, and an answer to files without chains it is said what helps.
pub fn run<F: FileSystem, W: Sink, E: Sink>(
    files: &mut F,
    alloc: Global,
    hasher: RandomState,
    words: &[String],
    command: &Command,
    out: &mut W,
    err: &mut E,
) -> u8
    // Files and the error output are, behind what is answered and before what helps, as `done` and `told` say.
    ensures { (done : F) × (told : E)
        × Runs (map string_bytes words.now) command.now
        (world F.under F.log F.knows files.old done)
        (streams (stream W.contents W.failure_count out.old out.new) (stream E.contents E.failure_count err.old told))
        (behind (world F.under F.log F.knows done files.new) (stream E.contents E.failure_count told err.new)) result }
{
    let aside = is_aside(&*files, command);
    if watch(files, alloc, command).is_err() {
        let stop = Err(Stop::Memory);
        return tell_and_hint(files, alloc, words, command, &stop, aside, out, err);
    }
    match room_of(&*files, alloc, command) {
        Ok(room) => match room {
            Room::Free => {
                let answer = perform(files, alloc, hasher, command);
                tell_and_hint(files, alloc, words, command, &answer, aside, out, err)
            }
            _ => say_refusal(kind_of(&command.asked), room, err),
        },
        Err(stop) => {
            let stop = Err(stop);
            tell_and_hint(files, alloc, words, command, &stop, aside, out, err)
        }
    }
}

// Tells an answer, or why there is none, and says what helps behind it.
fn tell_and_hint<F: FileSystem, W: Sink, E: Sink>(
    files: &mut F,
    alloc: Global,
    words: &[String],
    command: &Command,
    answer: &Result<Answer, Stop>,
    aside: bool,
    out: &mut W,
    err: &mut E,
) -> u8
    ensures { (told : E)
        × Tells aside (stream W.contents W.failure_count out.old out.new) (stream E.contents E.failure_count err.old told) result answer.now
        × HintsBy (behind (world F.under F.log F.knows files.old files.new) (stream E.contents E.failure_count told err.new))
        (map string_bytes words.now) command.now result answer.now }
{
    let status = tell(alloc, answer, aside, out, err);
    let _ = hint(files, alloc, words, command, status, answer, err);
    status
}

// Whether the answer to a command is told on the error output: where what it makes is no certificate and no file, and may go to the output
// itself.
fn is_aside<F: FileSystem>(files: &F, command: &Command) -> bool
    ensures { result ≡ true → IsUnknown (F.under files.now) command.now }
{
    match (&command.asked, command.made()) {
        (Asked::Build { .. } | Asked::Convert { .. }, _) => false,
        (_, Some(name)) => files.passes(name.as_str()),
        (_, None) => false,
    }
}

// Has it shown how far the reading of the command's files is, where that is asked for.
fn watch<F: FileSystem>(files: &mut F, alloc: Global, command: &Command) -> Result<(), AllocError>
    ensures stays { F.under files.new ≡ F.under files.old }
    ensures watched { OnOk result (F.knows ≡ true → F.log files.new ≡ watched command.now (F.log files.old)) }
    ensures unwatched { OnErr result (F.log files.new ≡ F.log files.old) }
{
    if !command.progress {
        return Ok(());
    }
    if let Some(last) = last_of(command) {
        let last = String::from_str(alloc, last.as_str())?;
        files.show_progress(last);
    }
    Ok(())
}

// The name of the file that is read last: that of the certificate, or the last of the records.
fn last_of(command: &Command) -> Option<&String>
    ensures { option_map (λ name. string_bytes name.now) result ≡ last_of command.now }
{
    match command.cert() {
        Some(cert) => Some(cert),
        None => command.files.last(),
    }
}
