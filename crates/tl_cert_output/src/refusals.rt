//! What is printed of a refusal.

ghost use Rattle.tl_record.specs.Messages.{cause_text, field_text, refusal_text};
ghost use Rattle.tl_cert_output.specs.Writing.{line_of};

use crate::page::Page;
use tl_record::{Cause, CauseRow, Field};

/// Prints the line of a refusal. It isn't printed by `Display`, whose errors no contract excludes.
pub fn print_refusal<P: Page>(line: u64, cause: Cause, page: &mut P)
    ensures { P.adds page.old page.new (line_of (refusal_text line cause)) }
{
    page.add(b"refused line ");
    page.number(line);
    page.add(b" ");
    print_cause(cause, page);
    page.add(b"\n");
}

/// Prints the code and the name of a cause, and the field that it is about, if it is about one.
pub fn print_cause<P: Page>(cause: Cause, page: &mut P)
    ensures { P.adds page.old page.new (cause_text cause) }
{
    let CauseRow { code, name, field } = cause.row();
    page.add(code.as_bytes());
    page.add(b" ");
    page.add(name.as_bytes());
    if let Some(field) = field {
        page.add(b" ");
        print_field(field, page);
    }
}

/// Prints the name of a field.
pub fn print_field<P: Page>(field: Field, page: &mut P)
    ensures { P.adds page.old page.new (field_text field) }
{
    page.add(field.word().as_bytes());
    if let Some(pair) = field.pair() {
        page.number(pair);
    }
}
