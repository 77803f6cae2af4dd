//! What the first word shows with no memory taken.

ghost use Rattle.std.specs.Prelude.{◌≡◌, [], ◌∷◌, ◌++◌, codes, map};
ghost use Rattle.std.specs.List.{list_any};
ghost use Rattle.std.specs.Str.{bytes_eq};
ghost use Rattle.tigertopo_words.specs.CommandLine.{StopsPlanning, may_be_use as may_be_use_of, is_option as is_option_of, first_names};
ghost use Rattle.tigertopo_words.specs.Escapes.{ShowsNoEscape};
ghost use Rattle.tigertopo_words.specs.declared.table.Row.{Row};

use crate::stop::WordsStop;
use crate::table::{Row, rows};
use std::alloc::Global;
use std::convert::AsStr;

/// Why words that couldn't be read for want of memory are no command: for that, unless their first word shows that they
/// are no use of one.
pub fn unread<S: AsStr>(alloc: Global, words: &[S]) -> WordsStop
    ensures stops { StopsPlanning (map S.text words.now) result }
    ensures texts { ShowsNoEscape result }
{
    if may_be_use(words) {
        WordsStop::Memory
    } else {
        WordsStop::Usage(String::new(alloc))
    }
}

// Whether the first word begins as an option does, or is the name of a command.
fn may_be_use<S: AsStr>(words: &[S]) -> bool
    ensures { result ≡ may_be_use_of (map S.text words.now) }
{
    match words {
        [first, ..] => is_option(first.as_str().as_bytes()) || is_name(first.as_str()),
        [] => false,
    }
}

fn is_option(word: &[u8]) -> bool
    ensures { result ≡ is_option_of word.now }
{
    match word {
        [first, ..] => *first == b'-',
        [] => false,
    }
}

// Whether the word is the name of a command, or `clap`'s own word for help.
fn is_name(word: &str) -> bool
    ensures { result ≡ list_any (bytes_eq word.now) first_names }
{
    is_among(word, rows())
}

// Whether the word is the name of one of these, or help.
fn is_among(word: &str, rows: &[Row]) -> bool
    ensures { result ≡ list_any (bytes_eq word.now) (map (λ (row : Row). row.name.now) rows.now ++ codes "help" ∷ []) }
{
    for row in rows {
        if word == row.name {
            return true;
        }
    }
    word == "help"
}
