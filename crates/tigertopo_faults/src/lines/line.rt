//! The lines of records.

ghost use Rattle.std.specs.Prelude.{◌++◌, decimal, map, string_bytes};
ghost use Rattle.tigertopo_faults.specs.Places.LinePlaces.{place_pair};
ghost use Rattle.tigertopo_faults.specs.Lines.Texts.{record_text, at_text, number_text, named_text, where_text, record_line_text, record_lines_text};

use crate::lines::ends::print_ends;
use crate::places::{TextLine, is_in_reach, place_of, print_location};
use crate::records::RecordLine;
use crate::shown::print_name;
use tl_cert_output::Page;
use tl_geom::Rational;
use tl_list_text::print_key;
use tl_record::Record;

/// Prints the lines of records that a fault at this place speaks of, of files with these names and so many lines each.
pub(crate) fn print_record_lines<P: Page>(
    names: &[String],
    counts: &[u64],
    at: Option<Rational>,
    lines: &[RecordLine],
    page: &mut P,
)
    ensures { P.adds page.old page.new (record_lines_text (map string_bytes names.now) counts.now at lines.now) }
{
    for line in lines {
        print_record_line(names, counts, at, line, page);
    }
}

// Prints the line of a record.
fn print_record_line<P: Page>(
    names: &[String],
    counts: &[u64],
    at: Option<Rational>,
    line: &RecordLine,
    page: &mut P,
)
    ensures { P.adds page.old page.new (record_line_text (map string_bytes names.now) counts.now at line.now) }
{
    page.add(b"  ");
    print_where(names, counts, line.line, page);
    print_record(&line.holds, page);
    print_ends(line.ends, page);
    print_at(at, page);
    page.add(b"\n");
}

// Prints a line's file and its number there, or where the files have fewer lines, its number in all of them.
fn print_where<P: Page>(names: &[String], counts: &[u64], number: u64, page: &mut P)
    ensures { P.adds page.old page.new (where_text (map string_bytes names.now) counts.now number) }
{
    match place_of(counts, number) {
        Some(place) => print_place(names, place, number, page),
        None => print_whole(number, page),
    }
}

// Prints a line's file, where there is one of that number, and its number there.
fn print_place<P: Page>(names: &[String], place: TextLine, number: u64, page: &mut P)
    ensures { P.adds page.old page.new (named_text (map string_bytes names.now) number (place_pair place)) }
{
    if place.text < names.len() {
        print_name(names[place.text].as_str(), page);
        page.add(b" line ");
        page.number(place.line);
    } else {
        print_whole(number, page);
    }
}

// Prints a line's number in all files.
fn print_whole<P: Page>(number: u64, page: &mut P)
    ensures { P.adds page.old page.new (number_text number) }
{
    page.add(b"line ");
    page.number(number);
    page.add(b" of all files");
}

// Prints the type of a record, and what it is of.
fn print_record<P: Page>(held: &Record, page: &mut P)
    ensures { P.adds page.old page.new (record_text held.now) }
{
    match *held {
        Record::Chain { tlid, .. } => print_numbered(b", type 1, tlid ", tlid, page),
        Record::Shape { tlid, .. } => print_numbered(b", type 2, tlid ", tlid, page),
        Record::Sides { tlid, .. } => print_numbered(b", type I, tlid ", tlid, page),
        Record::PolyPoint { key, .. } => {
            page.add(b", type P, polygon ");
            print_key(key, page);
        }
        Record::Landmark { land, .. } => print_numbered(b", type 7, land ", land, page),
        Record::AreaLink { key, land } => {
            page.add(b", type 8, polygon ");
            print_key(key, page);
            print_numbered(b" land ", land, page);
        }
    }
}

// Prints a word and a number.
fn print_numbered<P: Page>(word: &[u8], number: u64, page: &mut P)
    ensures { P.adds page.old page.new (word.now ++ decimal number) }
{
    page.add(word);
    page.number(number);
}

// Prints a place in decimal degrees, where it can be printed.
fn print_at<P: Page>(at: Option<Rational>, page: &mut P)
    ensures { P.adds page.old page.new (at_text at) }
{
    if let Some(at) = at {
        if is_in_reach(&at) {
            page.add(b", at ");
            print_location(at, page);
        }
    }
}
