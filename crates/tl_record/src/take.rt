//! Lines that are taken off a text, however long they are, and told by why they are refused.

ghost use Rattle.std.specs.Prelude.{◌≡◌, ◌<◌};
ghost use Rattle.std.specs.Io.KnownBytes.{prepend_known};
ghost use Rattle.tl_record.specs.Judgement.{judgement};
ghost use Rattle.tl_record.specs.Refusals.{cause_of};
ghost use Rattle.tl_record.specs.Searching.{SkipsLine, CountsSkip, TakesNext, CountsTaken};

use crate::judge::{Meaning, judge_into};
use crate::layout::Layout;
use crate::line_buffer::{Fetched, LineBuffer, fetch_line};
use crate::reader::{BLOCK, long_line_cause};
use crate::record::NO_RECORD;
use crate::refusal::RefusalStop;
use crate::source::Source;
use crate::stop::Cause;

/// The next line, taken off the text.
#[derive(Clone, Copy)]
pub(crate) enum Taken {
    /// Why it is refused, if it is.
    Line(Option<Cause>),
    /// There is none.
    End,
    /// It can't be had.
    Stopped(RefusalStop),
}

// Why a raw line is refused under its number, if it is.
fn refusal_cause(layout: &Layout, number: u64, raw: &[u8]) -> Option<Cause>
    ensures { result ≡ cause_of (judgement layout.now number raw.now) }
{
    let mut record = NO_RECORD;
    match judge_into(layout, number, raw, &mut record) {
        Meaning::Refused(cause) => Some(cause),
        _ => None,
    }
}

/// Takes bytes off the front up to the first line feed, or to the end where none comes. `Device` comes where a read fails, and
/// `Endless` of no text that has a line feed or an end within 2^64 - 1 bytes.
pub fn skip_line<const N: usize, R: Source>(
    buffer: &mut LineBuffer<N>,
    source: &mut R,
) -> Result<(), RefusalStop>
    requires { 0 < N }
    ensures skips { SkipsLine (prepend_known buffer.old (R.remaining source.old))
        (prepend_known buffer.new (R.remaining source.new)) result }
    ensures failures { CountsSkip (R.failure_count source.old) (R.failure_count source.new) result }
    ensures same_reference { R.reference source.new ≡ R.reference source.old }
{
    // A source may have no end.
    'blocks: for _ in 0..u64::MAX {
        match fetch_line(buffer, source) {
            Fetched::Whole(len) => {
                buffer.consume_line(len);
                return Ok(());
            }
            Fetched::Rest => {
                buffer.clear();
                return Ok(());
            }
            Fetched::Full => buffer.clear(),
            Fetched::Failed => return Err(RefusalStop::Device),
        }
    }
    Err(RefusalStop::Endless)
}

/// Judges the next line, and takes it off however long it is.
pub(crate) fn take_line<R: Source>(
    buffer: &mut LineBuffer<BLOCK>,
    source: &mut R,
    layout: &Layout,
    number: u64,
) -> Taken
    ensures takes { TakesNext layout.now number (prepend_known buffer.old (R.remaining source.old))
        (prepend_known buffer.new (R.remaining source.new)) result }
    ensures failures { CountsTaken (R.failure_count source.old) (R.failure_count source.new) result }
    ensures same_reference { R.reference source.new ≡ R.reference source.old }
{
    match fetch_line(buffer, source) {
        Fetched::Whole(len) => {
            let cause = refusal_cause(layout, number, &buffer.bytes()[..len]);
            buffer.consume_line(len);
            Taken::Line(cause)
        }
        Fetched::Rest => {
            if buffer.bytes().is_empty() {
                return Taken::End;
            }
            let cause = refusal_cause(layout, number, buffer.bytes());
            buffer.clear();
            Taken::Line(cause)
        }
        Fetched::Full => match skip_line(buffer, source) {
            Ok(()) => Taken::Line(Some(long_line_cause(number))),
            Err(stop) => Taken::Stopped(stop),
        },
        Fetched::Failed => Taken::Stopped(RefusalStop::Device),
    }
}
