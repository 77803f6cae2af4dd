//! The ends of a segment that a record holds, as they are printed.

ghost use Rattle.std.specs.Prelude.{◌≡◌};
ghost use Rattle.tigertopo_faults.specs.Geojson.Records.{ends_text, other_text, part_text};

use crate::records::{Part, SegmentEnds};
use tl_cert_output::Page;

/// Prints the segment that is spoken of, and the ends that the record holds of it, where one is.
pub fn print_ends<P: Page>(ends: Option<SegmentEnds>, page: &mut P)
    ensures { P.adds page.old page.new (ends_text ends) }
{
    if let Some(ends) = ends {
        page.add(b",\"segment\":");
        page.number(u64::from(ends.segment));
        page.add(b",\"ends\":[");
        print_part(ends.part, page);
        print_other(ends.other, page);
        page.add(b"]");
    }
}

// Prints the other end, behind the one.
fn print_other<P: Page>(other: Option<Part>, page: &mut P)
    ensures { P.adds page.old page.new (other_text other) }
{
    if let Some(part) = other {
        page.add(b",");
        print_part(part, page);
    }
}

// Prints one end.
fn print_part<P: Page>(part: Part, page: &mut P)
    ensures { P.adds page.old page.new (part_text part) }
{
    match part {
        Part::Start => page.add(b"\"start\""),
        Part::Pair(number) => page.number(u64::from(number)),
        Part::End => page.add(b"\"end\""),
    }
}
