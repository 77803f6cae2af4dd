//! A refused line as an object of JSON, or as a feature of GeoJSON.

ghost use Rattle.tl_record.specs.Layout.{layout_with};
ghost use Rattle.tigertopo_faults.specs.Places.FieldColumns.{range_of};
ghost use Rattle.tigertopo_faults.specs.Hint.Objects.{cause_members, columns_members, field_members, field_string, place_object};
ghost use Rattle.tigertopo_faults.specs.Hint.Objects.{refused_feature, refused_object};

use crate::hint::shown::{columns_for, content};
use crate::places::FieldColumns;
use crate::shown::print_byte_string;
use tigertopo_pictures::Words;
use tigertopo_pictures::geojson::{print_quoted, print_string};
use tl_cert_output::{Page, print_cause, print_field};
use tl_record::{Cause, CauseRow, Columns, Field, Options};

/// Prints the beginning of the object of a refused line.
pub fn print_refused_object<P: Page>(number: u64, cause: Cause, page: &mut P)
    ensures { P.adds page.old page.new (refused_object number cause) }
{
    page.add(b"{\"is\":\"refused\",");
    print_cause_members(cause, page);
    page.add(b",\"about\":{\"line\":");
    page.number(number);
    page.add(b",\"field\":");
    print_field_string(cause.row().field, page);
    page.add(b"},\"records\":[");
}

/// Prints the beginning of the feature of a refused line.
pub fn print_refused_feature<P: Page>(number: u64, cause: Cause, page: &mut P)
    ensures { P.adds page.old page.new (refused_feature number cause) }
{
    page.add(b",\n{\"type\":\"Feature\",\"geometry\":null,\"properties\":{");
    print_cause_members(cause, page);
    page.add(b",\"refused\":");
    print_quoted(&CauseWords(cause), page);
    page.add(b",\"line\":");
    page.number(number);
    page.add(b",\"records\":[");
}

// Prints the code and the name of a cause.
fn print_cause_members<P: Page>(cause: Cause, page: &mut P)
    ensures { P.adds page.old page.new (cause_members cause) }
{
    let CauseRow { code, name, .. } = cause.row();
    page.add(b"\"code\":");
    print_string(code.as_bytes(), page);
    page.add(b",\"name\":");
    print_string(name.as_bytes(), page);
}

// The text of a cause.
#[derive(Clone, Copy)]
struct CauseWords(Cause);

impl Words for CauseWords {
    ghost use Rattle.tl_record.specs.Messages.{cause_text};

    ghost text = { λ words. cause_text words.0 };

    fn print<P: Page>(&self, page: &mut P) {
        print_cause(self.0, page);
    }
}

// Prints the name of a field as a string, or null where there is none.
fn print_field_string<P: Page>(field: Option<Field>, page: &mut P)
    ensures { P.adds page.old page.new (field_string field) }
{
    match field {
        Some(field) => print_quoted(&FieldWords(field), page),
        None => page.add(b"null"),
    }
}

// The name of a field.
#[derive(Clone, Copy)]
struct FieldWords(Field);

impl Words for FieldWords {
    ghost use Rattle.tl_record.specs.Messages.{field_text};

    ghost text = { λ words. field_text words.0 };

    fn print<P: Page>(&self, page: &mut P) {
        print_field(self.0, page);
    }
}

/// Prints where a refused line stands, as an object: the file's name, the line's number in it, and where it is refused for a field,
/// the field's columns and what the line holds there.
pub fn print_place_object<P: Page>(
    name: &str,
    number: u64,
    line: &[u8],
    options: Options,
    cause: Cause,
    page: &mut P,
)
    ensures { P.adds page.old page.new (place_object (layout_with options) name.now number line.now cause) }
{
    page.add(b"{\"file\":");
    print_string(name.as_bytes(), page);
    page.add(b",\"line\":");
    page.number(number);
    print_field_members(content(line), options, cause, page);
    page.add(b"}");
}

// Prints the columns of the field that a line is refused for, if it is for one.
fn print_field_members<P: Page>(line: &[u8], options: Options, cause: Cause, page: &mut P)
    ensures { P.adds page.old page.new (field_members (layout_with options) line.now cause) }
{
    if let Some(columns) = columns_for(options, line, cause) {
        print_members(line, columns, page);
    }
}

// Prints columns, and what a line holds there.
fn print_members<P: Page>(line: &[u8], columns: FieldColumns, page: &mut P)
    ensures { P.adds page.old page.new (columns_members line.now (range_of columns)) }
{
    page.add(b",\"columns\":[");
    page.number(columns.first);
    page.add(b",");
    page.number(columns.last);
    page.add(b"],\"bytes\":");
    print_byte_string(Columns::new(line).field(columns.first, columns.last), page);
}
