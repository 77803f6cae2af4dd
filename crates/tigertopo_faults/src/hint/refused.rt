//! A refused line of a file that is read by itself, and what is said of it.

ghost use Rattle.std.specs.Prelude.{◌≡◌, string_bytes};
ghost use Rattle.std.specs.Io.KnownBytes.{prepend_known, Keeps};
ghost use Rattle.tl_record.specs.Searching.{CountsSkip};
ghost use Rattle.tl_cert_output.specs.Stops.{StopsFor};
ghost use Rattle.tigertopo_faults.specs.Places.Finding.{Answers};
ghost use Rattle.tigertopo_faults.specs.Hint.Advice.{asking, form_of};
ghost use Rattle.tigertopo_faults.specs.Hint.Again.{HasNoEnd};
ghost use Rattle.tigertopo_faults.specs.Hint.Hints.{columns_hint, first_bytes, form_hint};
ghost use Rattle.tigertopo_faults.specs.Hint.Placing.{IsSought};

use crate::hint::advice::{FileForm, form_of, print_form, print_otherwise, reads_otherwise};
use crate::hint::asking::Asking;
use crate::hint::shown::{field_of, print_place};
use crate::places::{BLOCK, Found, find_ahead, show_line};
use std::alloc::{AllocError, Global};
use tigertopo_files::{Reading, with_printed};
use tl_cert_output::{Page, Stop, Text};
use tl_record::{Cause, LineBuffer, Options, RefusalStop, Source};

/// A refused line of the file of a name, which is read by itself, and who asks.
#[derive(Clone, Copy)]
pub struct RefusedLine<'a> {
    pub name: &'a String,
    pub by: Asking<'a>,
    /// The line's number in the file, and why it is refused.
    pub number: u64,
    pub cause: Cause,
}

/// What comes of looking for a line in a file.
#[derive(Drop)]
pub enum Sought {
    /// What is said of the line.
    Told(Vec<u8>),
    /// The file has fewer lines: so many.
    Behind(u64),
}

impl Reading for RefusedLine<'_> {
    type Answer = Sought;

    ghost answers = { λ asked known single sought.
        IsSought (asking asked.by) (string_bytes asked.name.now) asked.cause asked.number single sought };

    ghost stops = { λ asked known single. StopsFor (HasNoEnd single) };

    fn read<R: Source, S: Source>(
        &self,
        alloc: Global,
        _joined: &mut R,
        single: &mut S,
    ) -> Result<Sought, Stop> {
        if self.number == 0 {
            return Ok(Sought::Told(Vec::new(alloc)));
        }
        let mut buffer = LineBuffer::new();
        let form = match first_form(&mut buffer, single) {
            Ok(form) => form,
            Err(_) => return Err(Stop::Device),
        };
        let mut passed = 0;
        match find_ahead(&mut buffer, single, &mut passed, self.number) {
            Ok(Found::Line { len, .. }) => {
                let line = &buffer.bytes()[..len];
                let told = LineHint {
                    refused: *self,
                    line,
                    form,
                };
                Ok(Sought::Told(with_printed(alloc, &[], &told)?))
            }
            Ok(Found::Missing) => Ok(Sought::Behind(passed)),
            Err(_) => Err(Stop::Device),
        }
    }
}

/// What the file is whose first line comes next, where it is none of records. The line isn't taken off.
pub fn first_form<S: Source>(
    buffer: &mut LineBuffer<BLOCK>,
    source: &mut S,
) -> Result<Option<FileForm>, RefusalStop>
    ensures form { Answers (prepend_known buffer.old (S.remaining source.old)) (λ text form. form ≡ form_of (first_bytes text)) result }
    ensures kept { Keeps (prepend_known buffer.old (S.remaining source.old)) (prepend_known buffer.new (S.remaining source.new)) }
    ensures failures { CountsSkip (S.failure_count source.old) (S.failure_count source.new) result }
{
    match show_line(buffer, source) {
        Ok(Found::Line { len, .. }) => Ok(form_of(&buffer.bytes()[..len])),
        Ok(Found::Missing) => Ok(None),
        Err(stop) => Err(stop),
    }
}

// What is said of the line, which begins with these bytes, in a file of this form.
#[derive(Clone, Copy)]
struct LineHint<'a> {
    refused: RefusedLine<'a>,
    line: &'a [u8],
    form: Option<FileForm>,
}

impl Text for LineHint<'_> {
    ghost use Rattle.std.specs.Prelude.{⊤};
    ghost use Rattle.tigertopo_faults.specs.Hint.Hints.{line_hint};

    ghost text = { λ told. line_hint (asking told.refused.by) (string_bytes told.refused.name.now) told.refused.number told.line.now
        told.refused.cause told.form };

    ghost is_ready = { λ told. ⊤ };

    fn add_to<P: Page>(&self, _alloc: Global, page: &mut P) -> Result<(), AllocError> {
        let RefusedLine {
            name,
            by,
            number,
            cause,
        } = self.refused;
        let options = by.options;
        print_place(name.as_str(), number, self.line, options, cause, page);
        page.add(b"\n");
        print_columns_hint(options, number, self.line, cause, page);
        print_form_hint(by, name.as_str(), self.form, page);
        Ok(())
    }
}

// Prints what is said of other columns, where a line is refused for a field.
fn print_columns_hint<P: Page>(
    options: Options,
    number: u64,
    line: &[u8],
    cause: Cause,
    page: &mut P,
)
    ensures { P.adds page.old page.new (columns_hint options number line.now cause) }
{
    if field_of(cause).is_some() && reads_otherwise(options, number, line) {
        print_otherwise(options, page);
    }
}

// Prints what is said of a file that is none of records.
fn print_form_hint<P: Page>(by: Asking<'_>, name: &str, form: Option<FileForm>, page: &mut P)
    ensures { P.adds page.old page.new (form_hint (asking by.entry) name.now form) }
{
    if let Some(form) = form {
        print_form(name, by, form, page);
    }
}
