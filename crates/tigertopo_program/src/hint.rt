//! What helps who reads that a line is refused, that a device failed, or an answer to files without chains.

ghost use Rattle.std.specs.Prelude.{◌≡◌, IfOk, Some, map, string_bytes};
ghost use Rattle.tl_cert_output.specs.declared.stop.Stop.TheVariants.{Device};
ghost use Rattle.tigertopo_words.specs.Asked.{made_of};
ghost use Rattle.tigertopo_files.specs.World.{world};
ghost use Rattle.tl_cert_output.specs.Streams.{stream};
ghost use Rattle.tigertopo_program.specs.Commands.{names_read};
ghost use Rattle.tigertopo_program.specs.Hinting.{Hints, is_answer, SaysBehind, SaysBehindStatus, SaysBehindStop, behind};

use crate::answer::Answer;
use crate::stop::{STOPPED, try_to_write};
use std::alloc::{AllocError, Global};
use tigertopo_faults::hint::{Asking, TroubleLine, say_hint, say_unread};
use tigertopo_files::{FileSystem, all_names, with_printed};
use tigertopo_words::{Asked, Command};
use tl_cert_output::Stop;
use tl_record::Sink;

/// Says what helps behind what is answered to a command that these words ask for, of its files as they stand now: behind a refused line where it
/// stands, behind a device that failed which file did, that which is made or one that is read, and behind an answer where no line begins
/// as a record of type 1 does what the files hold. The error says why nothing is said: memory was refused for it, or a file can't be read
/// again.
pub fn hint<F: FileSystem, E: Sink>(
    files: &mut F,
    alloc: Global,
    words: &[String],
    command: &Command,
    status: u8,
    answer: &Result<Answer, Stop>,
    err: &mut E,
) -> Result<(), Stop>
    ensures { let b = behind (world F.under F.log F.knows files.old files.new) (stream E.contents E.failure_count err.old err.new) in
        Hints b (SaysBehind b (map string_bytes words.now) command.now status answer.now) result }
{
    match answer {
        Ok(_) => hint_of_answer(files, alloc, words, command, status, err),
        Err(stop) => hint_of_stop(files, alloc, words, command, stop, err),
    }
}

// Says what helps behind an answer, which has a status below 4, or nothing behind another outcome.
fn hint_of_answer<F: FileSystem, E: Sink>(
    files: &mut F,
    alloc: Global,
    words: &[String],
    command: &Command,
    status: u8,
    err: &mut E,
) -> Result<(), Stop>
    ensures { let b = behind (world F.under F.log F.knows files.old files.new) (stream E.contents E.failure_count err.old err.new) in
        Hints b (SaysBehindStatus b (map string_bytes words.now) command.now status) result }
{
    if is_answer(status) {
        let by = Asking {
            words,
            options: command.options,
        };
        return say_unread(files, alloc, command.files.as_slice(), by, err);
    }
    Ok(())
}

// Whether this is the status of an answer.
fn is_answer(status: u8) -> bool
    ensures { result ≡ is_answer status }
{
    status < STOPPED
}

// Says what helps behind a stop.
fn hint_of_stop<F: FileSystem, E: Sink>(
    files: &mut F,
    alloc: Global,
    words: &[String],
    command: &Command,
    stop: &Stop,
    err: &mut E,
) -> Result<(), Stop>
    ensures { let b = behind (world F.under F.log F.knows files.old files.new) (stream E.contents E.failure_count err.old err.new) in
        Hints b (SaysBehindStop b (map string_bytes words.now) command.now stop.now) result }
{
    match (stop, command.made()) {
        (Stop::Device, Some(made)) => hint_of_made(files, alloc, words, command, made, err),
        _ => hint_of_read(files, alloc, words, command, stop, err),
    }
}

// Says why the file of this name, which the command makes, couldn't be made; or else what helps of those that are read.
fn hint_of_made<F: FileSystem, E: Sink>(
    files: &mut F,
    alloc: Global,
    words: &[String],
    command: &Command,
    made: &String,
    err: &mut E,
) -> Result<(), Stop>
    requires { made_of command.now.asked ≡ Some (string_bytes made.now) }
    ensures { let b = behind (world F.under F.log F.knows files.old files.new) (stream E.contents E.failure_count err.old err.new) in
        Hints b (SaysBehindStop b (map string_bytes words.now) command.now Device) result }
{
    let Some(told) = files.obstacle(alloc)? else {
        return hint_of_read(files, alloc, words, command, &Stop::Device, err);
    };
    let line = TroubleLine {
        name: made.as_str(),
        words: told.as_str(),
    };
    let text = with_printed(alloc, &[], &line)?;
    try_to_write(text.as_slice(), err);
    Ok(())
}

// Says what helps of the files that are read.
fn hint_of_read<F: FileSystem, E: Sink>(
    files: &mut F,
    alloc: Global,
    words: &[String],
    command: &Command,
    stop: &Stop,
    err: &mut E,
) -> Result<(), Stop>
    ensures { let b = behind (world F.under F.log F.knows files.old files.new) (stream E.contents E.failure_count err.old err.new) in
        Hints b (SaysBehindStop b (map string_bytes words.now) command.now stop.now) result }
{
    let names = names_of(alloc, command)?;
    let by = Asking {
        words,
        options: command.options,
    };
    say_hint(files, alloc, names.as_slice(), by, stop, err)
}

// The names of the files that are read.
fn names_of(alloc: Global, command: &Command) -> Result<Vec<String>, AllocError>
    ensures { IfOk result (λ names. map string_bytes names.items ≡ names_read command.now) }
{
    match &command.asked {
        Asked::Check { cert, .. } => all_names(alloc, command.files.as_slice(), Some(cert)),
        Asked::Convert { cert, .. } => all_names(alloc, &[], Some(cert)),
        _ => all_names(alloc, command.files.as_slice(), None),
    }
}
