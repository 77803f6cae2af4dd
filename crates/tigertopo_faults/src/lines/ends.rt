//! The text of the ends of a segment that a record holds.

ghost use Rattle.tigertopo_faults.specs.Lines.Texts.{ends_text, parts_text, part_text};

use crate::records::{Part, SegmentEnds};
use tl_cert_output::Page;

/// Prints the ends that a record holds of the segment that is spoken of, and that segment, where one is.
pub(crate) fn print_ends<P: Page>(ends: Option<SegmentEnds>, page: &mut P)
    ensures { P.adds page.old page.new (ends_text ends) }
{
    if let Some(ends) = ends {
        page.add(b", ");
        print_parts(ends.part, ends.other, page);
        page.add(b", segment ");
        page.number(ends.segment);
        page.add(b" of its chain");
    }
}

// Prints the one end, or both.
fn print_parts<P: Page>(part: Part, other: Option<Part>, page: &mut P)
    ensures { P.adds page.old page.new (parts_text part other) }
{
    match (part, other) {
        (part, None) => print_part(part, page),
        (Part::Pair(one), Some(Part::Pair(two))) => {
            page.add(b"pairs ");
            page.number(one);
            page.add(b" and ");
            page.number(two);
        }
        (part, Some(other)) => {
            print_part(part, page);
            page.add(b" and ");
            print_part(other, page);
        }
    }
}

// Prints one end.
fn print_part<P: Page>(part: Part, page: &mut P)
    ensures { P.adds page.old page.new (part_text part) }
{
    match part {
        Part::Start => page.add(b"start"),
        Part::Pair(number) => {
            page.add(b"pair ");
            page.number(number);
        }
        Part::End => page.add(b"end"),
    }
}
