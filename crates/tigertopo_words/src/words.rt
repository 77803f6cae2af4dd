//! What the words of the command line ask for.

ghost use Rattle.std.specs.Prelude.{◌≡◌, IfOk, IfErr, true, [], map, Some};
ghost use Rattle.clap.specs.Simple.{app_of, subcommand_of, subcommand_rows_of};
ghost use Rattle.clap.specs.Takes.{takes};
ghost use Rattle.clap.specs.Faults.{fault_of};
ghost use Rattle.clap.specs.Kinds.{HasKind};
ghost use Rattle.clap.specs.Values.{kind_of};
ghost use Rattle.clap.specs.declared.error.kind.ErrorKind.TheVariants.{OutOfMemory};
ghost use Rattle.clap.specs.Walk.{rows_of};
ghost use Rattle.clap.specs.Matches.{found_of};
ghost use Rattle.tigertopo_words.specs.Commands.{command_line};
ghost use Rattle.tigertopo_words.specs.Requests.{given_by};
ghost use Rattle.tigertopo_words.specs.Asked.{IsCommandOf};
ghost use Rattle.tigertopo_words.specs.CommandLine.{AskFor, StopsPlanning};
ghost use Rattle.tigertopo_words.specs.Escapes.{ShowsNoEscape};

use crate::arguments::{files_of, is_watched, options_of};
use crate::asked::Command;
use crate::asking::asked_of;
use crate::command_line;
use crate::first_word::unread;
use crate::refusal::{misuse, stop_of};
use crate::stop::WordsStop;
use crate::table::{Named, named_by};
use clap::{ArgMatches, Error};
use std::alloc::{AllocError, Global};
use std::convert::AsStr;

/// The command that the words after the program's name stand for. `WordsStop::Usage` comes for words that are no command
/// of the program, no words among them, and `WordsStop::Help` for those that ask for help or for the version; both come
/// with the text that `clap` has for them.
pub fn command<S: AsStr>(alloc: Global, words: &[S]) -> Result<Command, WordsStop>
    // The command is what the words ask for: they are none that `clap` has an error for, and its name, its switches, its
    // budget or number of faults, its view, and the names of its files, word for word and in their order, are theirs.
    ensures asked { IfOk result (AskFor (map S.text words.now)) }
    // Words that are a use of a command are refused for want of memory alone, and words of which the first shows that they are
    // none never for that.
    ensures stops { IfErr result (StopsPlanning (map S.text words.now)) }
    // A text that is shown has no escape (0x1B), so no word can send one to a terminal.
    ensures texts { IfErr result ShowsNoEscape }
{
    let Ok(mut line) = command_line::command(alloc) else {
        return Err(unread(alloc, words));
    };
    command_by(alloc, &mut line, words)
}

// The command of the words by this command line.
fn command_by<'a, S: AsStr>(
    alloc: Global,
    line: &mut clap::Command<'a>,
    words: &'a [S],
) -> Result<Command, WordsStop>
    requires { app_of line.old ≡ command_line }
    ensures asked { IfOk result (AskFor (map S.text words.now)) }
    ensures stops { IfErr result (StopsPlanning (map S.text words.now)) }
    ensures texts { IfErr result ShowsNoEscape }
{
    match line.try_get_matches_from_mut(words) {
        Ok(matches) => command_in(alloc, line, words, &matches),
        Err(error) => Err(stop_by(alloc, &error, words)),
    }
}

// The command of words that `clap` takes, by what it found in them.
fn command_in<S: AsStr>(
    alloc: Global,
    line: &mut clap::Command<'_>,
    words: &[S],
    matches: &ArgMatches<'_>,
) -> Result<Command, WordsStop>
    requires found { subcommand_rows_of matches.now ≡ subcommand_of command_line (map S.text words.now) }
    requires taken { fault_of command_line (map S.text words.now) ≡ [] }
    ensures asked { IfOk result (AskFor (map S.text words.now)) }
    ensures stops { IfErr result (StopsPlanning (map S.text words.now)) }
    ensures texts { IfErr result ShowsNoEscape }
{
    match command_of(alloc, matches)? {
        Some(command) => Ok(command),
        // The words name a number or a point that isn't spelt so, or one option and not the other that it needs: clap has
        // refused others before.
        None => Err(misuse(alloc, line, matches)),
    }
}

// Why words of which `clap` gives this error are no command.
fn stop_by<S: AsStr>(alloc: Global, error: &Error, words: &[S]) -> WordsStop
    requires passes { takes command_line (map S.text words.now) ≡ true → kind_of error.now ≡ OutOfMemory }
    requires kinds { HasKind (fault_of command_line (map S.text words.now)) error.now }
    ensures stops { StopsPlanning (map S.text words.now) result }
    ensures texts { ShowsNoEscape result }
{
    match stop_of(alloc, error) {
        WordsStop::Memory => unread(alloc, words),
        stop => stop,
    }
}

// The command that the matches stand for, where they name one with all that it wants.
fn command_of(alloc: Global, matches: &ArgMatches<'_>) -> Result<Option<Command>, AllocError>
    ensures { IfOk result (IsCommandOf (subcommand_rows_of matches.now)) }
{
    match matches.subcommand() {
        Some((name, found)) => command_named(alloc, name, found),
        None => Ok(None),
    }
}

// The command of this name, where that is one of the program's.
fn command_named(
    alloc: Global,
    name: &str,
    found: &ArgMatches<'_>,
) -> Result<Option<Command>, AllocError>
    ensures { IfOk result (IsCommandOf (Some (name.now, rows_of (found_of found.now)))) }
{
    match named_by(name) {
        Some(named) => command_with(alloc, &named, found),
        None => Ok(None),
    }
}

// The command with what is given for its arguments, where that is all that it wants.
fn command_with(
    alloc: Global,
    named: &Named,
    found: &ArgMatches<'_>,
) -> Result<Option<Command>, AllocError>
    ensures { IfOk result (IsCommandOf (Some (given_by named.now (rows_of (found_of found.now))))) }
{
    let Some(asked) = asked_of(alloc, named, found)? else {
        return Ok(None);
    };
    let Some(files) = files_of(alloc, named, found)? else {
        return Ok(None);
    };
    Ok(Some(Command {
        asked,
        options: options_of(named, found),
        files,
        progress: is_watched(named, found),
    }))
}
