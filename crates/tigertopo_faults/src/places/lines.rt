//! Lines of a source, by their numbers.

ghost use Rattle.std.specs.Prelude.{◌≡◌, ◌<◌, ℕ, List, Option, IfOk, OnOk, min, nat_lt};
ghost use Rattle.std.specs.Io.KnownBytes.{Keeps, prepend_known};
ghost use Rattle.tl_record.specs.Searching.{CountsSkip};
ghost use Rattle.tl_record.specs.Limits.{most_line_bytes};
ghost use Rattle.tigertopo_faults.specs.declared.places.lines.Found.TheVariants.{Line};
ghost use Rattle.tigertopo_faults.specs.Places.Finding.{Answers, CountsAll, IsFound, IsWithin, Passes, PassesTo};

use tl_record::{Fetched, LineBuffer, MAX_LINE_BYTES, RefusalStop, Source, fetch_line, skip_line};

/// How many bytes of a text are kept: what is fetched at once.
pub const BLOCK: usize = 65_536;

/// A line that was looked for by its number.
#[derive(Clone, Copy, Debug, PartialEq, Eq)]
pub enum Found {
    /// Its first bytes, 1,024 at most, are the first `len` of the buffer; where `goes_on` it has more.
    Line { len: usize, goes_on: bool },
    /// The text has fewer lines.
    Missing,
}

// Looks for the line with this number of a text of which so many lines were passed, and what follows them is in the buffer and
// left in the source. It is left at the front of the buffer, and the lines before it are passed.
pub(crate) fn find_ahead<R: Source>(
    buffer: &mut LineBuffer<BLOCK>,
    source: &mut R,
    passed: &mut u64,
    number: u64,
) -> Result<Found, RefusalStop>
    requires { passed.old < number }
    ensures found { (text : Option (List ℕ)) → PassesTo passed.old text (prepend_known buffer.old (R.remaining source.old))
        → Answers text (IsFound number buffer.new) result }
    ensures passed { (text : Option (List ℕ)) → PassesTo passed.old text (prepend_known buffer.old (R.remaining source.old))
        → OnOk result (PassesTo passed.new text (prepend_known buffer.new (R.remaining source.new))) }
    ensures counted { (text : Option (List ℕ)) → PassesTo passed.old text (prepend_known buffer.old (R.remaining source.old))
        → Answers text (CountsAll passed.new) result }
    ensures before { passed.new < number }
    ensures within { IfOk result (IsWithin buffer.new) }
    ensures failures { CountsSkip (R.failure_count source.old) (R.failure_count source.new) result }
{
    let first = *passed + 1;
    'lines: for line in first..number {
        match pass_line(buffer, source) {
            Ok(true) => *passed = line,
            Ok(false) => return Ok(Found::Missing),
            Err(stop) => return Err(stop),
        }
    }
    show_line(buffer, source)
}

/// The next line's first bytes, which stand at the front of the buffer. It isn't taken off.
pub(crate) fn show_line<R: Source>(
    buffer: &mut LineBuffer<BLOCK>,
    source: &mut R,
) -> Result<Found, RefusalStop>
    ensures found { Answers (prepend_known buffer.old (R.remaining source.old)) (IsFound 1 buffer.new) result }
    ensures kept { Keeps (prepend_known buffer.old (R.remaining source.old)) (prepend_known buffer.new (R.remaining source.new)) }
    ensures within { IfOk result (IsWithin buffer.new) }
    ensures failures { CountsSkip (R.failure_count source.old) (R.failure_count source.new) result }
{
    match fetch_line(buffer, source) {
        Fetched::Whole(len) => Ok(shown(len)),
        Fetched::Rest => {
            let len = buffer.bytes().len();
            if len == 0 {
                return Ok(Found::Missing);
            }
            Ok(shown(len))
        }
        Fetched::Full => Ok(shown(buffer.bytes().len())),
        Fetched::Failed => Err(RefusalStop::Device),
    }
}

// A line of so many bytes, which are the first of the buffer.
fn shown(len: usize) -> Found
    ensures { result ≡ Line (min len most_line_bytes) (nat_lt most_line_bytes len) }
{
    Found::Line {
        len: len.min(MAX_LINE_BYTES),
        goes_on: len > MAX_LINE_BYTES,
    }
}

/// Takes the next line off, and says whether there was one.
pub(crate) fn pass_line<R: Source>(
    buffer: &mut LineBuffer<BLOCK>,
    source: &mut R,
) -> Result<bool, RefusalStop>
    ensures passes { Answers (prepend_known buffer.old (R.remaining source.old))
        (Passes (prepend_known buffer.new (R.remaining source.new))) result }
    ensures failures { CountsSkip (R.failure_count source.old) (R.failure_count source.new) result }
{
    match fetch_line(buffer, source) {
        Fetched::Whole(len) => {
            buffer.consume_line(len);
            Ok(true)
        }
        Fetched::Rest => {
            let is_line = !buffer.bytes().is_empty();
            buffer.clear();
            Ok(is_line)
        }
        Fetched::Full => match skip_line(buffer, source) {
            Ok(()) => Ok(true),
            Err(stop) => Err(stop),
        },
        Fetched::Failed => Err(RefusalStop::Device),
    }
}
