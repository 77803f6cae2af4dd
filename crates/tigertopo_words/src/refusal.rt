//! What is said where words make no command.

ghost use Rattle.std.specs.Prelude.{◌≡◌, IfOk, string_bytes};
ghost use Rattle.clap.specs.Values.{kind_of};
ghost use Rattle.tigertopo_words.specs.CommandLine.{IsStopOf, IsUsage};
ghost use Rattle.tigertopo_words.specs.Escapes.{plain_text, HasNoEscape, ShowsNoEscape};

use crate::arguments::{given, is_set};
use crate::command_line::subcommand;
use crate::stop::WordsStop;
use crate::table::{Argument, Kind, Row, named_by, row_of};
use clap::error::ErrorKind;
use clap::{ArgMatches, Command, Error};
use std::alloc::{AllocError, Global};

/// Why words of which `clap` gives this error are no command.
pub fn stop_of(alloc: Global, error: &Error) -> WordsStop
    ensures stop { IsStopOf (kind_of error.now) result }
    ensures texts { ShowsNoEscape result }
{
    if error.kind() == ErrorKind::OutOfMemory {
        return WordsStop::Memory;
    }
    if error.use_stderr() {
        return WordsStop::Usage(or_empty(alloc, text_of(alloc, error)));
    }
    match text_of(alloc, error) {
        Ok(text) => WordsStop::Help(text),
        Err(_) => WordsStop::Memory,
    }
}

// The text, or an empty one where memory was refused for it.
fn or_empty(alloc: Global, text: Result<String, AllocError>) -> String
    requires { IfOk text HasNoEscape }
    ensures { HasNoEscape result }
{
    match text {
        Ok(text) => text,
        Err(_) => String::new(alloc),
    }
}

fn text_of(alloc: Global, error: &Error) -> Result<String, AllocError>
    ensures { IfOk result HasNoEscape }
{
    let text = error.to_string(alloc)?;
    without_escapes(alloc, text.as_str())
}

// A word can hold an escape sequence, which a terminal would obey.
fn without_escapes(alloc: Global, text: &str) -> Result<String, AllocError>
    ensures text { IfOk result (λ plain. string_bytes plain ≡ plain_text text.now) }
    ensures no_escape { IfOk result HasNoEscape }
{
    let mut plain = String::from_str(alloc, text)?;
    plain.retain(|c| c != '\u{1b}');
    Ok(plain)
}

/// Why words that `clap` takes are no command.
pub fn misuse(alloc: Global, command: &mut Command<'_>, matches: &ArgMatches<'_>) -> WordsStop
    ensures usage { IsUsage result }
    ensures texts { ShowsNoEscape result }
{
    WordsStop::Usage(or_empty(alloc, usage_of(alloc, command, matches)))
}

// What is wrong with words that `clap` takes and that are no command.
fn usage_of(
    alloc: Global,
    command: &mut Command<'_>,
    matches: &ArgMatches<'_>,
) -> Result<String, AllocError>
    ensures { IfOk result HasNoEscape }
{
    if let Some((name, found)) = matches.subcommand() {
        if let Some(named) = named_by(name) {
            let row = row_of(&named);
            if let Some(wrong) = mistake_in(alloc, row, found)? {
                return refusal_text(alloc, row, wrong.as_str());
            }
        }
    }
    plain_usage(alloc, command)
}

// What is wrong with what is given for the command's arguments: one of them lacks another, or isn't spelt as it has to be.
fn mistake_in(
    alloc: Global,
    row: &Row,
    found: &ArgMatches<'_>,
) -> Result<Option<String>, AllocError> {
    for (argument, other) in row.needs {
        if is_given(found, argument) && !is_given(found, other) {
            let lack = format!(in alloc; "the argument '{argument}' needs '{other}'")?;
            return Ok(Some(lack));
        }
    }
    for argument in row.arguments {
        if let Some((word, spelling)) = misspelt(found, argument) {
            let wrong = format!(in alloc; "invalid value '{word}' for '{argument}': {spelling}")?;
            return Ok(Some(wrong));
        }
    }
    Ok(None)
}

// Whether the argument is given.
fn is_given(found: &ArgMatches<'_>, argument: &Argument) -> bool {
    let word = given(found, argument.name);
    match argument.kind {
        Kind::Switch => is_set(word),
        _ => word.is_some(),
    }
}

// The argument's word and how it is spelt, where the word isn't spelt so.
fn misspelt<'a>(found: &ArgMatches<'a>, argument: &Argument) -> Option<(&'a str, &'static str)> {
    let word = given(found, argument.name)?;
    match argument.kind {
        Kind::Switch => None,
        Kind::Value(kind) | Kind::Needed(kind) | Kind::Placed(kind) | Kind::Several(kind) => {
            Some((word, kind.wanted(word)?))
        }
    }
}

// How the program is used.
fn plain_usage(alloc: Global, command: &mut Command<'_>) -> Result<String, AllocError>
    ensures { IfOk result HasNoEscape }
{
    let usage = command.render_usage()?;
    without_escapes(alloc, usage.as_str())
}

// What the command says of what is wrong.
fn refusal_text(alloc: Global, row: &Row, wrong: &str) -> Result<String, AllocError>
    ensures { IfOk result HasNoEscape }
{
    match shown_as(alloc, row) {
        Ok(mut command) => text_of_mistake(alloc, &mut command, wrong),
        Err(error) => Err(error),
    }
}

// The command, shown behind the program's name.
fn shown_as<'a>(alloc: Global, row: &Row) -> Result<Command<'a>, AllocError> {
    let name = row.name;
    let shown = format!(in alloc; "tigertopo {name}")?;
    match subcommand(alloc, row) {
        Ok(command) => command.bin_name(shown.as_str()),
        Err(error) => Err(error),
    }
}

// What the command says of a word that isn't spelt as it wants.
fn text_of_mistake(
    alloc: Global,
    command: &mut Command<'_>,
    wrong: &str,
) -> Result<String, AllocError>
    ensures { IfOk result HasNoEscape }
{
    match command.error(ErrorKind::ValueValidation, wrong) {
        Ok(error) => text_of(alloc, &error),
        Err(error) => Err(error),
    }
}
