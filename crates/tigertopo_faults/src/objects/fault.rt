//! A fault as an object.

ghost use Rattle.std.specs.Prelude.{map, string_bytes, option_copied, length};
ghost use Rattle.tigertopo_faults.specs.Records.SpokenOf.{chains_of};
ghost use Rattle.tigertopo_faults.specs.Records.Keeping.{held};
ghost use Rattle.tigertopo_faults.specs.Objects.Texts.{about_text, fault_object, object_text, objects_below};

use crate::geojson::{print_names, print_spoken, print_words};
use crate::lines::place_at;
use crate::objects::about::print_details;
use crate::objects::place::print_place;
use crate::records::RecordLines;
use tl_cert_output::Page;
use tl_check_verdict::{About, MapFault, row};
use tl_geom::Rational;
use tl_map_county::Map;

/// Prints faults, which lie at these places, each as an object.
pub fn print_objects<P: Page>(
    names: &[String],
    counts: &[u64],
    drawn: Option<&Map>,
    lines: &RecordLines,
    places: &[Option<Rational>],
    faults: &[MapFault],
    page: &mut P,
)
    ensures { P.adds page.old page.new
        (objects_below (fault_object (map string_bytes names.now) counts.now (chains_of (option_copied drawn.entry))
        (held lines.now) places.now faults.now) (length faults.now)) }
{
    for (number, fault) in faults.iter().enumerate() {
        let at = place_at(places, number);
        print_object(names, counts, drawn, lines, at, fault, page);
    }
}

// Prints a fault: its words, what it is about, where it lies and the records that it speaks of.
fn print_object<P: Page>(
    names: &[String],
    counts: &[u64],
    drawn: Option<&Map>,
    lines: &RecordLines,
    at: Option<Rational>,
    fault: &MapFault,
    page: &mut P,
)
    ensures { P.adds page.old page.new
        (object_text (map string_bytes names.now) counts.now (chains_of (option_copied drawn.entry)) (held lines.now) at fault.now) }
{
    page.add(b"{\"is\":\"fault\",");
    print_words(fault, page);
    let about = row(fault).about;
    print_about(drawn, &about, page);
    page.add(b",\"place\":");
    print_place(at, page);
    print_spoken(names, counts, drawn, lines, &about, page);
    page.add(b"}\n");
}

// Prints what a fault is about.
fn print_about<P: Page>(drawn: Option<&Map>, about: &About, page: &mut P)
    ensures { P.adds page.old page.new (about_text (chains_of (option_copied drawn.entry)) about.now) }
{
    page.add(b",\"about\":{");
    print_names(drawn, about, page);
    print_details(about, page);
    page.add(b"}");
}
