//! How an answer is told.

ghost use Rattle.tl_cert_output.specs.Streams.{stream};
ghost use Rattle.tigertopo_program.specs.Telling.{Tells, TellsAnswer, TellsAside, TellsText};

use crate::answer::Answer;
use crate::stop::{STOPPED, stopped};
use std::alloc::Global;
use tl_cert_output::{Stop, Text};
use tl_record::Sink;

/// Tells an answer, on the error output where `aside` says so, and gives its status; or tells on `err` why there is none, or why it can't
/// be written, and gives the status of that.
pub fn tell<W: Sink, E: Sink>(
    alloc: Global,
    answer: &Result<Answer, Stop>,
    aside: bool,
    out: &mut W,
    err: &mut E,
) -> u8
    ensures { Tells aside (stream W.contents W.failure_count out.old out.new)
        (stream E.contents E.failure_count err.old err.new) result answer.now }
{
    match answer {
        Ok(answer) => tell_answer(alloc, answer, aside, out, err),
        Err(stop) => stopped(stop, err),
    }
}

// Tells an answer.
fn tell_answer<W: Sink, E: Sink>(
    alloc: Global,
    answer: &Answer,
    aside: bool,
    out: &mut W,
    err: &mut E,
) -> u8
    ensures { TellsAnswer aside (stream W.contents W.failure_count out.old out.new)
        (stream E.contents E.failure_count err.old err.new) result answer.now }
{
    if aside {
        return tell_aside(alloc, answer, err);
    }
    write_text(alloc, answer, answer.status(), out, err)
}

// Tells an answer on the error output. Where a write of it fails, nobody can be told.
fn tell_aside<E: Sink>(alloc: Global, answer: &Answer, err: &mut E) -> u8
    ensures { TellsAside (stream E.contents E.failure_count err.old err.new) result answer.now }
{
    match answer.print(alloc, err) {
        Ok(()) => answer.status(),
        Err(_) => STOPPED,
    }
}

/// Writes a text to `out`, and gives this status, or tells on `err` why that can't be written, and gives the status of that.
pub fn write_text<T: Text, W: Sink, E: Sink>(
    alloc: Global,
    text: &T,
    status: u8,
    out: &mut W,
    err: &mut E,
) -> u8
    requires { T.is_ready text.now }
    ensures { TellsText (stream W.contents W.failure_count out.old out.new)
        (stream E.contents E.failure_count err.old err.new) result status (T.text text.now) }
{
    match text.print(alloc, out) {
        Ok(()) => status,
        Err(stop) => stopped(&stop, err),
    }
}
