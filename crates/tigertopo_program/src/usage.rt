//! What is said of words that are no command.

ghost use Rattle.std.specs.Prelude.{◌≡◌};
ghost use Rattle.tl_cert_output.specs.Streams.{Tries, stream};
ghost use Rattle.tigertopo_program.specs.Telling.{TellsWordsStop};

use crate::stop::{DONE, USAGE, stopped, try_to_write};
use crate::telling::write_text;
use std::alloc::Global;
use tigertopo_words::WordsStop;
use tl_cert_output::{Bytes, Stop};
use tl_record::Sink;

/// What is said of words that are no use of a command, where memory was refused for a text that says why.
pub const NO_USE: &str = "error: the words are no use of a command\n";

/// Tells why words are no command: what is wrong with them on `err`, or the help that they wish for on `out`; and gives the
/// program's exit status.
pub fn say_stop<W: Sink, E: Sink>(alloc: Global, stop: &WordsStop, out: &mut W, err: &mut E) -> u8
    ensures { TellsWordsStop (stream W.contents W.failure_count out.old out.new)
        (stream E.contents E.failure_count err.old err.new) result stop.now }
{
    match stop {
        WordsStop::Memory => stopped(&Stop::Memory, err),
        WordsStop::Usage(text) => {
            let shown = text.as_str();
            if shown.is_empty() {
                say_usage(NO_USE, err)
            } else {
                say_usage(shown, err)
            }
        }
        WordsStop::Help(text) => {
            let shown = text.as_str();
            if shown.is_empty() {
                // It never is: `clap` has a text for each wish.
                stopped(&Stop::Memory, err)
            } else {
                write_text(
                    alloc,
                    &Bytes {
                        bytes: shown.as_bytes(),
                    },
                    DONE,
                    out,
                    err,
                )
            }
        }
    }
}

/// Says what is wrong with the words, and gives the exit status of that. Where it can't be written, the status alone is left to tell it.
pub fn say_usage<E: Sink>(text: &str, err: &mut E) -> u8
    ensures status { result ≡ 64 }
    ensures said { Tries (stream E.contents E.failure_count err.old err.new) text.now }
{
    try_to_write(text.as_bytes(), err);
    USAGE
}
