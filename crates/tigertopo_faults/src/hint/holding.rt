//! What a file holds, by how its lines begin.

ghost use Rattle.std.specs.Prelude.{◌≡◌, ◌||◌, List, Option, ℕ};
ghost use Rattle.std.specs.Io.KnownBytes.{prepend_known};
ghost use Rattle.tl_record.specs.Lines.{raw_lines};
ghost use Rattle.tl_record.specs.Searching.{CountsSkip};
ghost use Rattle.tl_cert_output.specs.Stops.{StopsFor};
ghost use Rattle.tigertopo_faults.specs.Places.Finding.{Answers, PassesTo};
ghost use Rattle.tigertopo_faults.specs.Hint.Again.{HasNoEnd};
ghost use Rattle.tigertopo_faults.specs.Hint.Unread.{IsHeld, held_by, is_chain, is_read, kinds_of};

use crate::hint::advice::FileForm;
use crate::hint::refused::first_form;
use crate::places::{BLOCK, Found, pass_line, show_line};
use crate::shown::byte_at;
use std::alloc::Global;
use tigertopo_files::Reading;
use tl_cert_output::Stop;
use tl_record::{LineBuffer, RefusalStop, Source};

/// What a file holds.
#[derive(Clone, Copy)]
pub enum Held {
    /// A line that begins as a record of type 1 does.
    Chains,
    /// None, but lines that begin as records that are read.
    Others,
    /// No record that is read; and what the file is, where its first line tells that.
    Nothing(Option<FileForm>),
}

/// What the file that is read by itself holds.
#[derive(Clone, Copy)]
pub struct Holding;

impl Reading for Holding {
    type Answer = Held;

    ghost answers = { λ asked known single held. IsHeld single held };

    ghost stops = { λ asked known single. StopsFor (HasNoEnd single) };

    fn read<R: Source, S: Source>(
        &self,
        _alloc: Global,
        _joined: &mut R,
        single: &mut S,
    ) -> Result<Held, Stop> {
        let mut buffer = LineBuffer::new();
        let form = match first_form(&mut buffer, single) {
            Ok(form) => form,
            Err(_) => return Err(Stop::Device),
        };
        match kinds_ahead(&mut buffer, single) {
            Ok(kinds) => Ok(held_by(kinds, form)),
            Err(_) => Err(Stop::Device),
        }
    }
}

// What a text with such lines holds, whose first line is of this form.
fn held_by(kinds: Option<bool>, form: Option<FileForm>) -> Held
    ensures { result ≡ held_by kinds form }
{
    match kinds {
        None => Held::Chains,
        Some(is_any_read) => {
            if is_any_read && form.is_none() {
                Held::Others
            } else {
                Held::Nothing(form)
            }
        }
    }
}

// Whether a line of the text that comes next begins as a record that is read; none where one begins as one of type 1.
fn kinds_ahead<S: Source>(
    buffer: &mut LineBuffer<BLOCK>,
    source: &mut S,
) -> Result<Option<bool>, RefusalStop>
    ensures kinds { (text : Option (List ℕ)) → PassesTo 0 text (prepend_known buffer.old (S.remaining source.old))
        → Answers text (λ text kinds. kinds ≡ kinds_of (raw_lines text)) result }
    ensures failures { CountsSkip (S.failure_count source.old) (S.failure_count source.new) result }
{
    let mut is_any_read = false;
    'lines: for count in 0..u64::MAX {
        match show_line(buffer, source) {
            Ok(Found::Line { len, .. }) => {
                let line = &buffer.bytes()[..len];
                if is_chain(line) {
                    return Ok(None);
                }
                is_any_read = is_any_read_with(is_any_read, line);
            }
            Ok(Found::Missing) => return Ok(Some(is_any_read)),
            Err(stop) => return Err(stop),
        }
        match pass_line(buffer, source) {
            Ok(true) => {}
            Ok(false) => return Ok(Some(is_any_read)),
            Err(stop) => return Err(stop),
        }
    }
    Err(RefusalStop::Endless)
}

// Does a line begin as a record of type 1 does?
fn is_chain(line: &[u8]) -> bool
    ensures { result ≡ is_chain line.now }
{
    byte_at(line, 0) == b'1'
}

// Does a line begin as a record that is read?
fn is_read(line: &[u8]) -> bool
    ensures { result ≡ is_read line.now }
{
    let kind = byte_at(line, 0);
    ((kind == b'1' || kind == b'2') || (kind == b'7' || kind == b'8'))
        || (kind == b'I' || kind == b'P')
}

// Was a line read that begins so, or does this one?
fn is_any_read_with(is_any_read: bool, line: &[u8]) -> bool
    ensures { result ≡ (is_any_read || is_read line.now) }
{
    is_any_read || is_read(line)
}
