//! The words of the command line.

ghost use Rattle.std.specs.Prelude.{IfErr};
ghost use Rattle.tigertopo_program.specs.Starting.{IsUnread};

use std::alloc::{Alloc, Global};
use std::io::ErrorKind;
use std::rt::Env;
use std::{env, io};
use tigertopo_words::WordsStop;

// What is said where a word is no text.
const NO_TEXT: &str = "error: a word of the command line is no UTF-8 text\n";

/// The words behind the program's name. Which these are no contract knows. The error is that memory was refused, or that one of
/// them is no UTF-8 text.
pub fn words_of<R: Env + Alloc<A = Global>>(rt: &R, alloc: Global) -> Result<Vec<String>, WordsStop>
    ensures { IfErr result IsUnread }
{
    match env::args(rt) {
        Ok(mut args) => {
            let _ = args.next();
            match args.collect::<Vec<String>>(alloc) {
                Ok(words) => Ok(words),
                Err(_) => Err(WordsStop::Memory),
            }
        }
        Err(error) => Err(unread_by(alloc, &error)),
    }
}

fn unread_by(alloc: Global, error: &io::Error) -> WordsStop
    ensures { IsUnread result }
{
    if error.kind() == ErrorKind::OutOfMemory {
        return WordsStop::Memory;
    }
    match String::from_str(alloc, NO_TEXT) {
        Ok(text) => WordsStop::Usage(text),
        Err(_) => WordsStop::Memory,
    }
}
