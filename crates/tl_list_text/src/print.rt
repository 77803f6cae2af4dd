//! Listings on their way out.

ghost use Rattle.std.specs.Prelude.{◌≡◌, ◌++◌, None, codes, length};
ghost use Rattle.tl_check_verdict.specs.Messages.{map_fault_text};
ghost use Rattle.tl_list_text.specs.declared.listing.Listing.TheVariants.{Sound};
ghost use Rattle.tl_list_text.specs.Texts.{lines, told_refusal, printed, printed_text, touched_text, count_line, listing_text};

use crate::faults::print_fault;
use crate::listing::Listing;
use tl_cert_output::{Page, print_refusal};
use tl_check_verdict::{MapFault, Report};
use tl_record::Refusal;

/// Prints the line of a sound county, or a line for each fault or refusal and how many there are; where a number is given, only
/// so many of their lines, and how many those are.
pub fn print_listing<P: Page>(listing: &Listing, most: Option<u64>, page: &mut P)
    ensures { P.adds page.old page.new
        (listing_text most listing.now) }
{
    match listing {
        Listing::Sound(report) => print_report(report, page),
        Listing::Refused(list) => print_refusals(list.as_slice(), most, page),
        Listing::Faults { faults, touched } => print_faults(
            faults.as_slice(),
            *touched,
            most,
            page,
        ),
    }
}

// The line of a sound county.
fn print_report<P: Page>(report: &Report, page: &mut P)
    ensures { P.adds page.old page.new (listing_text None (Sound report.now)) }
{
    page.add(b"sound chains=");
    page.number(report.chains);
    page.add(b" segments=");
    page.number(report.segments);
    page.add(b" nodes=");
    page.number(report.nodes);
    page.add(b" polygons=");
    page.number(report.polygons);
    page.add(b" landmarks=");
    page.number(report.landmarks);
    page.add(b" rings=");
    page.number(report.rings);
    page.add(b"\n");
}

// The refused lines, or so many of them, and how many there are.
fn print_refusals<P: Page>(list: &[Refusal], most: Option<u64>, page: &mut P)
    ensures { P.adds page.old page.new
        (lines told_refusal (printed most list.now) ++ count_line (codes "refused=") most (length list.now)) }
{
    print_refusal_lines(first_of(list, most), page);
    print_end(0, "refused=", most, list.len() as u64, page);
}

// The faults, or so many of them, how many polygons are touched, and how many faults there are.
fn print_faults<P: Page>(list: &[MapFault], touched: u64, most: Option<u64>, page: &mut P)
    ensures { P.adds page.old page.new
        (lines map_fault_text (printed most list.now)
        ++ (touched_text touched ++ count_line (codes "faults=") most (length list.now))) }
{
    print_fault_lines(first_of(list, most), page);
    print_end(touched, "faults=", most, list.len() as u64, page);
}

/// What is printed of a list: all of it, or where a number is given, so many from the front.
pub fn first_of<T>(list: &[T], most: Option<u64>) -> &[T]
    ensures { result.now ≡ printed most list.now }
{
    match most {
        Some(most) if most < list.len() as u64 => &list[..most as usize],
        _ => list,
    }
}

// A line for each refusal.
fn print_refusal_lines<P: Page>(list: &[Refusal], page: &mut P)
    ensures { P.adds page.old page.new (lines told_refusal list.now) }
{
    for refusal in list {
        print_refusal(refusal.line, refusal.cause, page);
    }
}

/// Prints a line for each fault.
pub fn print_fault_lines<P: Page>(list: &[MapFault], page: &mut P)
    ensures { P.adds page.old page.new (lines map_fault_text list.now) }
{
    for fault in list {
        print_fault(fault, page);
    }
}

/// Prints how many polygons are touched, and the line of how many there are behind a word.
pub fn print_end<P: Page>(touched: u64, word: &str, most: Option<u64>, count: u64, page: &mut P)
    ensures { P.adds page.old page.new (touched_text touched ++ count_line word.now most count) }
{
    print_touched(touched, page);
    page.add(word.as_bytes());
    page.number(count);
    print_most(most, count, page);
    page.add(b"\n");
}

// The line that says how many polygons are touched, where some are.
fn print_touched<P: Page>(touched: u64, page: &mut P)
    ensures { P.adds page.old page.new (touched_text touched) }
{
    if touched != 0 {
        page.add(b"touched polygons=");
        page.number(touched);
        page.add(b" not looked at\n");
    }
}

// How many of so many lines are printed, where a number is given.
fn print_most<P: Page>(most: Option<u64>, count: u64, page: &mut P)
    ensures { P.adds page.old page.new (printed_text most count) }
{
    if let Some(most) = most {
        page.add(b" printed=");
        page.number(most.min(count));
    }
}
