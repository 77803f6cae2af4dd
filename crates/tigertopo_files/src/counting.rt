//! How many lines a text has.

ghost use Rattle.std.specs.Prelude.{◌≡◌, ◌<◌, ◌-◌, ◌^◌, ◌++◌, ℕ, All, List, [], IfOk, IfErr, IfSome, length, map, if◌then◌else◌, vec_len};
ghost use Rattle.tl_record.specs.Lines.{line_feeds as line_feeds_of};
ghost use Rattle.tl_cert_output.specs.Stops.{StopsFor};
ghost use Rattle.tigertopo_files.specs.Counting.{CountsAt, IsNew, lines_with};
ghost use Rattle.tigertopo_files.specs.Joining.{leaves_open as leaves_open_by};
ghost use Rattle.tigertopo_files.specs.Reading.{MayFail};

use memchr::memchr_iter;
use std::alloc::{AllocError, Global};
use tl_cert_output::Stop;
use tl_record::Source;

// How many bytes are read at a time where none of them is kept.
const BLOCK: usize = 16_384;

/// How many lines a text has, whose bytes come one after the other in pieces of any size.
#[derive(Clone, Copy, Debug, PartialEq, Eq)]
pub struct LineCount {
    line_feeds: u64,
    // Whether bytes came behind the last line feed.
    is_open: bool,
}

impl LineCount {
    /// That of no byte.
    pub fn new() -> LineCount
        ensures { IsNew result }
    {
        LineCount {
            line_feeds: 0,
            is_open: false,
        }
    }

    /// That of the text with these bytes behind it.
    pub fn with(self, bytes: &[u8]) -> LineCount
        ensures { (text : List ℕ) → lines_with result text ≡ lines_with self (bytes.now ++ text) }
    {
        LineCount {
            line_feeds: self.line_feeds.saturating_add(line_feeds(bytes)),
            is_open: leaves_open(self.is_open, bytes),
        }
    }

    /// How many lines that are, up to the greatest u64: as many as there are line feeds, and one more where bytes stand behind the last.
    pub fn lines(self) -> u64
        ensures { result ≡ lines_with self [] }
    {
        self.line_feeds.saturating_add(open_lines(self.is_open))
    }
}

/// Counts of so many texts, of none of which a byte came.
pub(crate) fn no_lines(alloc: Global, texts: usize) -> Result<Vec<LineCount>, AllocError>
    ensures count { IfOk result (λ counts. vec_len counts ≡ texts) }
    ensures new { IfOk result (λ counts. All IsNew counts.items) }
{
    let mut counts = Vec::new(alloc);
    for _ in 0..texts {
        counts.push(LineCount::new())?;
    }
    Ok(counts)
}

/// Goes on with these bytes in the count at this place, if there is one.
pub(crate) fn count_at(counts: &mut Vec<LineCount>, place: usize, bytes: &[u8])
    ensures { CountsAt counts.old.items counts.new.items place bytes.now }
{
    if place < counts.len() {
        counts[place] = counts[place].with(bytes);
    }
}

/// How many lines each of these texts has.
pub(crate) fn lines_of_each(alloc: Global, counts: &[LineCount]) -> Result<Vec<u64>, AllocError>
    ensures { IfOk result (λ lines. lines.items ≡ map (λ count. lines_with count []) counts.now) }
{
    let mut lines = Vec::new(alloc);
    for count in counts {
        lines.push(count.lines())?;
    }
    Ok(lines)
}

/// Reads a source to its end, and goes on counting with its bytes, where fewer are known than a u64 counts.
pub(crate) fn count_rest<S: Source>(source: &mut S, count: LineCount) -> Result<LineCount, Stop>
    ensures counted { IfOk result (λ all. IfSome (S.remaining source.old)
        (λ bytes. length bytes < 2 ^ 64 - 1 → lines_with all [] ≡ lines_with count bytes)) }
    ensures stop { IfErr result (StopsFor (MayFail S.failure_count)) }
{
    let mut all = count;
    let mut bytes = [0; BLOCK];
    for _ in 0..u64::MAX {
        let taken = source.fetch(&mut bytes)?;
        if taken == 0 {
            return Ok(all);
        }
        all = all.with(&bytes[..taken]);
    }
    Ok(all)
}

// How many line feeds these bytes have.
fn line_feeds(bytes: &[u8]) -> u64
    ensures { result ≡ line_feeds_of bytes.now }
{
    let mut count = 0u64;
    let mut found = memchr_iter(b'\n', bytes);
    'places: while let Some(_) = found.next() {
        count += 1;
    }
    count
}

/// Whether a text leaves its last line open behind these bytes, where it is said whether it does before them.
pub fn leaves_open(before: bool, bytes: &[u8]) -> bool
    ensures { result ≡ leaves_open_by before bytes.now }
{
    match bytes.last() {
        Some(byte) => *byte != b'\n',
        None => before,
    }
}

// One line more where the last is open, which has no line feed.
fn open_lines(is_open: bool) -> u64
    ensures { result ≡ if is_open then 1 else 0 }
{
    if is_open { 1 } else { 0 }
}
