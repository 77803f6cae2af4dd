//! The text of a refused line's place.

ghost use Rattle.std.specs.Prelude.{◌≡◌, [], option_map, slice_index};
ghost use Rattle.std.specs.Option.{option_map_or};
ghost use Rattle.tl_record.specs.Layout.{layout_with};
ghost use Rattle.tl_record.specs.Lines.{content};
ghost use Rattle.tigertopo_faults.specs.Places.FieldColumns.{range_of};
ghost use Rattle.tigertopo_faults.specs.Hint.Shown.{is_plain, shown_byte, shown_bytes};
ghost use Rattle.tigertopo_faults.specs.Hint.Hints.{field_of, columns_for, columns_text, place_text};

use crate::places::{FieldColumns, columns_of};
use crate::shown::{print_escaped, print_name};
use tl_cert_output::Page;
use tl_record::{Cause, Columns, Field, Options};

/// Prints where a refused line stands: the file's name, the line's number in it, and where it is refused for a field, the
/// field's columns and what the line holds there.
pub fn print_place<P: Page>(
    name: &str,
    number: u64,
    line: &[u8],
    options: Options,
    cause: Cause,
    page: &mut P,
)
    ensures { P.adds page.old page.new (place_text (layout_with options) name.now number line.now cause) }
{
    page.add(b"  ");
    print_name(name, page);
    page.add(b" line ");
    page.number(number);
    print_field(content(line), options, cause, page);
}

// Prints the columns of the field that a line is refused for, if it is for one.
fn print_field<P: Page>(line: &[u8], options: Options, cause: Cause, page: &mut P)
    ensures { P.adds page.old page.new (option_map_or (columns_text line.now) (columns_for (layout_with options) line.now cause) []) }
{
    if let Some(columns) = columns_for(options, line, cause) {
        print_columns(line, columns, page);
    }
}

// Prints columns, and what a line holds there.
fn print_columns<P: Page>(line: &[u8], columns: FieldColumns, page: &mut P)
    ensures { P.adds page.old page.new (columns_text line.now (range_of columns)) }
{
    page.add(b", columns ");
    page.number(columns.first);
    page.add(b" to ");
    page.number(columns.last);
    page.add(b": `");
    print_shown(Columns::new(line).field(columns.first, columns.last), page);
    page.add(b"`");
}

/// The columns of the field that a line is refused for.
pub fn columns_for(options: Options, line: &[u8], cause: Cause) -> Option<FieldColumns>
    ensures { option_map range_of result ≡ columns_for (layout_with options) line.now cause }
{
    match field_of(cause) {
        Some(field) => columns_of(options, first_byte(line), field),
        None => None,
    }
}

/// The field that a line is refused for, if it is for one.
pub fn field_of(cause: Cause) -> Option<Field>
    ensures { result ≡ field_of cause }
{
    match cause {
        Cause::Missing(field) | Cause::BadField(field) | Cause::OutOfRange(field) => Some(field),
        Cause::LineTooLong | Cause::TooManyLines => None,
    }
}

// The first byte of a line, which is its record type. An empty line has none.
fn first_byte(line: &[u8]) -> u8
    ensures { result ≡ slice_index line.now 0 }
{
    if line.is_empty() { 0 } else { line[0] }
}

/// A line without one carriage return at its end.
pub fn content(line: &[u8]) -> &[u8]
    ensures { result.now ≡ content line.now }
{
    let len = line.len();
    if len > 0 && line[len - 1] == b'\r' {
        &line[..len - 1]
    } else {
        line
    }
}

// Prints bytes as they are shown.
fn print_shown<P: Page>(bytes: &[u8], page: &mut P)
    ensures { P.adds page.old page.new (shown_bytes bytes.now) }
{
    for byte in bytes {
        print_byte(*byte, page);
    }
}

// Prints a byte as it is shown: printable ASCII as it is, but for the backquote and the backslash.
fn print_byte<P: Page>(byte: u8, page: &mut P)
    ensures { P.adds page.old page.new (shown_byte byte) }
{
    if is_plain(byte) {
        page.add(&[byte]);
    } else {
        print_escaped(byte, page);
    }
}

// Is a byte shown as itself?
fn is_plain(byte: u8) -> bool
    ensures { result ≡ is_plain byte }
{
    (32 <= byte && byte <= 126) && (byte != b'`' && byte != b'\\')
}
