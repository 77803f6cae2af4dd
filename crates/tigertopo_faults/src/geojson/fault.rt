//! A fault as a feature.

ghost use Rattle.std.specs.Prelude.{map, string_bytes, option_copied, option_to_list, decimal, length};
ghost use Rattle.tigertopo_faults.specs.Records.SpokenOf.{chains_of};
ghost use Rattle.tigertopo_faults.specs.Records.Keeping.{held};
ghost use Rattle.tigertopo_pictures.specs.Geojson.Strings.{key_string};
ghost use Rattle.tigertopo_pictures.specs.Geojson.Features.{features_below};
ghost use Rattle.tigertopo_pictures.specs.Items.{separated};
ghost use Rattle.tigertopo_faults.specs.Geojson.Named.{listed};
ghost use Rattle.tigertopo_faults.specs.Geojson.Records.{spoken_lines, records_text};
ghost use Rattle.tigertopo_faults.specs.Geojson.Texts.{names_text, fault_text, fault_feature};

use crate::geojson::named::{keys_of, land_of, tlids_of};
use crate::geojson::place::{print_exact, print_geometry};
use crate::geojson::record::print_records;
use crate::geojson::words::print_words;
use crate::lines::{lines_for, place_at, segment_spoken};
use crate::records::{RecordLines, subjects_about};
use tigertopo_pictures::geojson::{print_key, print_lead};
use tl_cert_output::Page;
use tl_check_verdict::{About, MapFault, row};
use tl_geom::Rational;
use tl_map_county::Map;
use tl_record::PolyKey;

/// Prints faults, which lie at these places, each as a feature.
pub fn print_features<P: Page>(
    names: &[String],
    counts: &[u64],
    drawn: Option<&Map>,
    lines: &RecordLines,
    places: &[Option<Rational>],
    faults: &[MapFault],
    page: &mut P,
)
    ensures { P.adds page.old page.new
        (features_below 0 (fault_feature (map string_bytes names.now) counts.now (chains_of (option_copied drawn.entry))
        (held lines.now) places.now faults.now) (length faults.now)) }
{
    for (number, fault) in faults.iter().enumerate() {
        print_lead(number as u64, page);
        let at = place_at(places, number);
        print_fault(names, counts, drawn, lines, at, fault, page);
    }
}

// Prints a fault: the point where it lies, its words, what it names and the records that it speaks of.
fn print_fault<P: Page>(
    names: &[String],
    counts: &[u64],
    drawn: Option<&Map>,
    lines: &RecordLines,
    at: Option<Rational>,
    fault: &MapFault,
    page: &mut P,
)
    ensures { P.adds page.old page.new
        (fault_text (map string_bytes names.now) counts.now (chains_of (option_copied drawn.entry)) (held lines.now) at fault.now) }
{
    page.add(b"{\"type\":\"Feature\",\"geometry\":");
    print_geometry(at, page);
    page.add(b",\"properties\":{");
    print_words(fault, page);
    page.add(b",\"at\":");
    print_exact(at, page);
    page.add(b",");
    let about = row(fault).about;
    print_names(drawn, &about, page);
    print_spoken(names, counts, drawn, lines, &about, page);
    page.add(b"}}");
}

/// Prints the TLIDs, the keys and the LAND that a fault names.
pub fn print_names<P: Page>(drawn: Option<&Map>, about: &About, page: &mut P)
    ensures { P.adds page.old page.new (names_text (chains_of (option_copied drawn.entry)) about.now) }
{
    page.add(b"\"tlids\":[");
    print_numbers(tlids_of(drawn, about), page);
    page.add(b"],\"polygons\":[");
    print_keys(keys_of(about), page);
    page.add(b"],\"landmarks\":[");
    print_number(land_of(about), page);
    page.add(b"]");
}

// Prints a number, where there is one.
fn print_number<P: Page>(number: Option<u64>, page: &mut P)
    ensures { P.adds page.old page.new (separated decimal (option_to_list number)) }
{
    if let Some(number) = number {
        page.number(number);
    }
}

// Prints one number or two, or none.
fn print_numbers<P: Page>(numbers: (Option<u64>, Option<u64>), page: &mut P)
    ensures { P.adds page.old page.new (separated decimal (listed numbers)) }
{
    match numbers {
        (Some(number), Some(other)) => {
            page.number(number);
            page.add(b",");
            page.number(other);
        }
        (Some(number), None) => print_number(Some(number), page),
        (None, other) => print_number(other, page),
    }
}

// Prints a key, where there is one.
fn print_some_key<P: Page>(key: Option<PolyKey>, page: &mut P)
    ensures { P.adds page.old page.new (separated key_string (option_to_list key)) }
{
    if let Some(key) = key {
        print_key(key, page);
    }
}

// Prints one key or two, or none.
fn print_keys<P: Page>(keys: (Option<PolyKey>, Option<PolyKey>), page: &mut P)
    ensures { P.adds page.old page.new (separated key_string (listed keys)) }
{
    match keys {
        (Some(key), Some(other)) => {
            print_key(key, page);
            page.add(b",");
            print_key(other, page);
        }
        (Some(key), None) => print_some_key(Some(key), page),
        (None, other) => print_some_key(other, page),
    }
}

/// Prints the records that a fault speaks of, by what it is about.
pub fn print_spoken<P: Page>(
    names: &[String],
    counts: &[u64],
    drawn: Option<&Map>,
    lines: &RecordLines,
    about: &About,
    page: &mut P,
)
    ensures { P.adds page.old page.new (records_text
        (map string_bytes names.now) counts.now (spoken_lines (chains_of (option_copied drawn.entry)) (held lines.now) about.now)) }
{
    if let About::Meet(meet) = about {
        let first = segment_spoken(drawn, lines, meet.tlid, meet.s);
        let second = segment_spoken(drawn, lines, meet.other, meet.t);
        return print_records(names, counts, first.as_slice(), second.as_slice(), page);
    }
    let (first, second) = subjects_about(drawn, about);
    print_records(
        names,
        counts,
        lines_for(lines, &first),
        lines_for(lines, &second),
        page,
    );
}
