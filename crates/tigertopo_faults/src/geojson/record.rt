//! The records that a fault speaks of, as they are printed.

ghost use Rattle.std.specs.Prelude.{◌≡◌, ◌++◌, map, string_bytes, codes};
ghost use Rattle.std.specs.List.{flat_map};
ghost use Rattle.tigertopo_faults.specs.Places.LinePlaces.{place_pair};
ghost use Rattle.tigertopo_pictures.specs.Items.{separated};
ghost use Rattle.tigertopo_faults.specs.Geojson.Records.{type_text, unknown_text, known_text, line_text, record_text, records_text};

use crate::geojson::ends::print_ends;
use crate::places::{TextLine, place_of};
use crate::records::RecordLine;
use tigertopo_pictures::geojson::print_string;
use tl_cert_output::Page;
use tl_record::Record;

/// Prints a list of records: some, then others.
pub fn print_records<P: Page>(
    names: &[String],
    counts: &[u64],
    first: &[RecordLine],
    second: &[RecordLine],
    page: &mut P,
)
    ensures { P.adds page.old page.new (records_text (map string_bytes names.now) counts.now (first.now ++ second.now)) }
{
    page.add(b",\"records\":[");
    print_both(names, counts, first, second, page);
    page.add(b"]");
}

// Prints records, and others behind them, with a comma between two.
fn print_both<P: Page>(
    names: &[String],
    counts: &[u64],
    first: &[RecordLine],
    second: &[RecordLine],
    page: &mut P,
)
    ensures { P.adds page.old page.new (separated (record_text (map string_bytes names.now) counts.now) (first.now ++ second.now)) }
{
    if first.is_empty() {
        print_some(names, counts, second, page);
    } else {
        print_some(names, counts, first, page);
        print_more(names, counts, second, page);
    }
}

// Prints records with a comma between two.
fn print_some<P: Page>(names: &[String], counts: &[u64], lines: &[RecordLine], page: &mut P)
    ensures { P.adds page.old page.new (separated (record_text (map string_bytes names.now) counts.now) lines.now) }
{
    if !lines.is_empty() {
        print_record(names, counts, &lines[0], page);
        print_more(names, counts, &lines[1..], page);
    }
}

// Prints records, each behind a comma.
fn print_more<P: Page>(names: &[String], counts: &[u64], lines: &[RecordLine], page: &mut P)
    ensures { P.adds page.old page.new (flat_map (λ line. codes "," ++ record_text (map string_bytes names.now) counts.now line) lines.now) }
{
    for line in lines {
        page.add(b",");
        print_record(names, counts, line, page);
    }
}

// Prints a record: its file, its line there and its type, and where a segment is spoken of, which of its ends the record holds.
fn print_record<P: Page>(names: &[String], counts: &[u64], line: &RecordLine, page: &mut P)
    ensures { P.adds page.old page.new (record_text (map string_bytes names.now) counts.now line.now) }
{
    page.add(b"{\"file\":");
    print_line(names, counts, line.line, page);
    page.add(b",\"type\":\"");
    page.add(type_of(&line.holds));
    page.add(b"\"");
    print_ends(line.ends, page);
    page.add(b"}");
}

// Prints a line's file and its number there, or where the files have fewer lines, its number in all of them.
fn print_line<P: Page>(names: &[String], counts: &[u64], number: u64, page: &mut P)
    ensures { P.adds page.old page.new (line_text (map string_bytes names.now) counts.now number) }
{
    match place_of(counts, number) {
        Some(place) => print_known(names, place, number, page),
        None => print_unknown(number, page),
    }
}

// Prints a line's file, where there is one of that number, and its number there.
fn print_known<P: Page>(names: &[String], place: TextLine, number: u64, page: &mut P)
    ensures { P.adds page.old page.new (known_text (map string_bytes names.now) number (place_pair place)) }
{
    if place.text < names.len() {
        print_string(names[place.text].as_str().as_bytes(), page);
        page.add(b",\"line\":");
        page.number(place.line);
    } else {
        print_unknown(number, page);
    }
}

// Prints a line's number in all files.
fn print_unknown<P: Page>(number: u64, page: &mut P)
    ensures { P.adds page.old page.new (unknown_text number) }
{
    page.add(b"null,\"line\":");
    page.number(number);
}

// The type of a record.
fn type_of<'a>(record: &Record) -> &'a [u8]
    ensures { result.now ≡ type_text record.now }
{
    match record {
        Record::Chain { .. } => b"1",
        Record::Shape { .. } => b"2",
        Record::Sides { .. } => b"I",
        Record::PolyPoint { .. } => b"P",
        Record::Landmark { .. } => b"7",
        Record::AreaLink { .. } => b"8",
    }
}
