//! What `clap` found for the arguments that more than one command has: files, switches and names.

ghost use Rattle.std.specs.Prelude.{◌≡◌, ◌↔◌, IfOk, MatchOption, IsTrue, List, Some, codes, map, option_map, string_bytes};
ghost use Rattle.std.specs.List.{list_any};
ghost use Rattle.std.specs.Str.{bytes_eq};
ghost use Rattle.clap.specs.Walk.{Text, rows_of, all_of, first_of};
ghost use Rattle.clap.specs.Matches.{found_of};
ghost use Rattle.tigertopo_words.specs.Commands.{has_argument};
ghost use Rattle.tigertopo_words.specs.Arguments.{IsSwitch, AreSome};
ghost use Rattle.tigertopo_words.specs.declared.table.Argument.{Argument};
ghost use Rattle.tigertopo_words.specs.Requests.{given_by, faces_for, switch_for, AreFiles, AreOptions, IsWatched};

use crate::table::{Argument, Named, row_of};
use clap::ArgMatches;
use std::alloc::{AllocError, Global};
use tl_record::Options;

/// The names of the command's files, where it has the files that it wants.
pub fn files_of(
    alloc: Global,
    named: &Named,
    found: &ArgMatches<'_>,
) -> Result<Option<Vec<String>>, AllocError>
    ensures { let given = given_by named.now (rows_of (found_of found.now)) in
        IfOk result (λ files. MatchOption files ((names : List Text) → ¬ AreFiles named.now given names)
        (λ files. AreFiles named.now given (map string_bytes files.items))) }
{
    if !has(named, "files") {
        return Ok(Some(Vec::new(alloc)));
    }
    given_files(alloc, found)
}

// The names that were given for the command's FILES, if there are some.
fn given_files(alloc: Global, found: &ArgMatches<'_>) -> Result<Option<Vec<String>>, AllocError>
    ensures { let given = all_of (codes "files") (rows_of (found_of found.now)) in
        IfOk result (λ files. MatchOption files ((names : List Text) → ¬ AreSome given names)
        (λ files. AreSome given (map string_bytes files.items))) }
{
    let Some(names) = found.get_strs("files") else {
        return Ok(None);
    };
    if names.is_empty() {
        return Ok(None);
    }
    Ok(Some(copied(alloc, names)?))
}

fn copied(alloc: Global, texts: &[&str]) -> Result<Vec<String>, AllocError>
    ensures { IfOk result (λ copies. map string_bytes copies.items ≡ map (λ text. text.now) texts.now) }
{
    let mut copies = Vec::new(alloc);
    for text in texts {
        copies.push(String::from_str(alloc, text)?)?;
    }
    Ok(copies)
}

/// What the command's switches say of records and of their map: those of the five that it has. Of a border faces are always asked.
pub fn options_of(named: &Named, found: &ArgMatches<'_>) -> Options
    ensures { AreOptions named.now (given_by named.now (rows_of (found_of found.now))) result }
{
    Options {
        zero_cells: is_on(named, found, "zero-cells"),
        released: is_on(named, found, "released"),
        faces: are_faced(named, found),
        join: is_on(named, found, "join"),
        complete: is_on(named, found, "complete"),
    }
}

// Whether faces are asked for.
fn are_faced(named: &Named, found: &ArgMatches<'_>) -> bool
    ensures { IsSwitch (faces_for named.now (given_by named.now (rows_of (found_of found.now)))) result }
{
    match named {
        Named::Border => true,
        _ => is_on(named, found, "faces"),
    }
}

/// Whether it is shown how far reading is: where the command has a switch for that, and it is given.
pub fn is_watched(named: &Named, found: &ArgMatches<'_>) -> bool
    ensures { IsWatched named.now (given_by named.now (rows_of (found_of found.now))) result }
{
    is_on(named, found, "progress")
}

// Whether the command has a switch of this name, and it is given.
fn is_on(named: &Named, found: &ArgMatches<'_>, name: &str) -> bool
    ensures { IsSwitch (switch_for named.now (given_by named.now (rows_of (found_of found.now))) name.now) result }
{
    has(named, name) && switch_of(found, name)
}

// Whether the command has an argument of this name.
fn has(named: &Named, name: &str) -> bool
    ensures { result ≡ has_argument named.now name.now }
{
    is_among(name, row_of(named).arguments)
}

// Whether one of the arguments has this name.
fn is_among(name: &str, arguments: &[Argument]) -> bool
    ensures { result ≡ list_any (λ (argument : Argument). bytes_eq name.now argument.name.now) arguments.now }
{
    for argument in arguments {
        if name == argument.name {
            return true;
        }
    }
    false
}

/// Whether the switch of this name is given.
pub fn switch_of(found: &ArgMatches<'_>, name: &str) -> bool
    ensures { IsSwitch (first_of name.now (rows_of (found_of found.now))) result }
{
    is_set(given(found, name))
}

/// Whether a switch's value is the one that it has where it is given.
pub(crate) fn is_set(value: Option<&str>) -> bool
    ensures { IsTrue result ↔ (option_map (λ text. text.now) value.entry ≡ Some (codes "true")) }
{
    match value {
        Some(text) => text == "true",
        None => false,
    }
}

/// The word that was given for the argument of this name, where one was.
pub fn given<'a>(found: &ArgMatches<'a>, name: &str) -> Option<&'a str>
    ensures { option_map (λ text. text.now) result ≡ first_of name.now (rows_of (found_of found.now)) }
{
    found.get_str(name)
}

/// A copy of it.
pub fn word_of(
    alloc: Global,
    found: &ArgMatches<'_>,
    name: &str,
) -> Result<Option<String>, AllocError>
    ensures { IfOk result (λ word. option_map string_bytes word ≡ first_of name.now (rows_of (found_of found.now))) }
{
    match given(found, name) {
        Some(word) => Ok(Some(String::from_str(alloc, word)?)),
        None => Ok(None),
    }
}
