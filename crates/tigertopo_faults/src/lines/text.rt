//! What is printed of faults with the records that they speak of.

ghost use Rattle.std.specs.Prelude.{◌≡◌, map, string_bytes, option_copied};
ghost use Rattle.tigertopo_faults.specs.Records.SpokenOf.{chains_of};
ghost use Rattle.tigertopo_faults.specs.Records.Keeping.{held};
ghost use Rattle.tigertopo_faults.specs.Lines.Texts.{placed_fault_text, placed_faults_text, placed_text, spoken_text, chosen, end_text};

use crate::lines::line::print_record_lines;
use crate::lines::places::place_at;
use crate::lines::spoken::{lines_for, segment_spoken};
use crate::records::{RecordLines, subjects_about};
use crate::told::ToldFaults;
use tigertopo_words::Told;
use tl_cert_output::Page;
use tl_check_verdict::{About, MapFault, row};
use tl_geom::Rational;
use tl_list_text::{first_of, print_end, print_fault};
use tl_map_county::Map;

/// Prints faults, each with the records that it speaks of, and where all are told, how many polygons are touched and how many faults there
/// are.
pub(crate) fn print_placed_faults<P: Page>(text: &ToldFaults<'_>, page: &mut P)
    ensures { P.adds page.old page.new (placed_text (map string_bytes text.now.names.now) text.now.spoken.now.counts.items
        (chains_of (option_copied text.now.drawn)) (held text.now.spoken.now.lines) text.now.spoken.now.places.items
        text.now.told text.now.faults.now text.now.touched) }
{
    let spoken = text.spoken;
    print_faults(
        text.names,
        spoken.counts.as_slice(),
        text.drawn,
        &spoken.lines,
        spoken.places.as_slice(),
        chosen(text.faults, text.told),
        page,
    );
    print_behind(text.told, text.faults.len() as u64, text.touched, page);
}

/// The first of the faults, or all, or so many from the front.
pub(crate) fn chosen(faults: &[MapFault], told: Told) -> &[MapFault]
    ensures { result.now ≡ chosen told faults.now }
{
    match told {
        Told::One => first_of(faults, Some(1)),
        Told::All { most, .. } => first_of(faults, most),
    }
}

/// Prints what stands behind the faults, where all are told.
pub(crate) fn print_behind<P: Page>(told: Told, count: u64, touched: u64, page: &mut P)
    ensures { P.adds page.old page.new (end_text told count touched) }
{
    if let Told::All { most, .. } = told {
        print_end(touched, "faults=", most, count, page);
    }
}

// Prints the lines of faults, each with those of the records that it speaks of.
fn print_faults<P: Page>(
    names: &[String],
    counts: &[u64],
    drawn: Option<&Map>,
    lines: &RecordLines,
    places: &[Option<Rational>],
    faults: &[MapFault],
    page: &mut P,
)
    ensures { P.adds page.old page.new (placed_faults_text (map string_bytes names.now) counts.now
        (chains_of (option_copied drawn.entry)) (held lines.now) places.now 0 faults.now) }
{
    for (number, fault) in faults.iter().enumerate() {
        let at = place_at(places, number);
        print_placed(names, counts, drawn, lines, at, fault, page);
    }
}

// Prints the line of a fault that lies there, and those of the records that it speaks of.
fn print_placed<P: Page>(
    names: &[String],
    counts: &[u64],
    drawn: Option<&Map>,
    lines: &RecordLines,
    at: Option<Rational>,
    fault: &MapFault,
    page: &mut P,
)
    ensures { P.adds page.old page.new (placed_fault_text (map string_bytes names.now) counts.now
        (chains_of (option_copied drawn.entry)) (held lines.now) at fault.now) }
{
    print_fault(fault, page);
    print_spoken(names, counts, drawn, lines, at, &row(fault).about, page);
}

// Prints the lines of the records that a fault speaks of, by what it is about.
fn print_spoken<P: Page>(
    names: &[String],
    counts: &[u64],
    drawn: Option<&Map>,
    lines: &RecordLines,
    at: Option<Rational>,
    about: &About,
    page: &mut P,
)
    ensures { P.adds page.old page.new (spoken_text (map string_bytes names.now) counts.now
        (chains_of (option_copied drawn.entry)) (held lines.now) at about.now) }
{
    if let About::Meet(meet) = about {
        let first = segment_spoken(drawn, lines, meet.tlid, meet.s);
        let second = segment_spoken(drawn, lines, meet.other, meet.t);
        print_record_lines(names, counts, at, first.as_slice(), page);
        return print_record_lines(names, counts, at, second.as_slice(), page);
    }
    let (first, second) = subjects_about(drawn, about);
    print_record_lines(names, counts, at, lines_for(lines, &first), page);
    print_record_lines(names, counts, at, lines_for(lines, &second), page);
}
