//! What is printed of an answer. It is put together here and not by `Display`, whose errors no contract excludes: so it is printed however
//! long it is, and an error says that a write failed.

ghost use Rattle.std.specs.Prelude.{◌++◌};
ghost use Rattle.tl_cert_output.specs.Writing.{line_of};
ghost use Rattle.tl_check_verdict.specs.Messages.{report_text, cert_fault_text, numbered_text};
ghost use Rattle.tigertopo_program.specs.Texts.{answer_text, verdict_text, counts_text, exported_text, drawn_text, bordered_text, touched_behind};

use crate::answer::{Answer, Bordered, Converted, Drawn, Exported};
use crate::print::{print_chains, print_landmarks};
use itoa::Integer;
use tl_cert_output::Page;
use tl_check_verdict::{CertFault, Report, Verdict};
use tl_list_text::{print_fault, print_listing};

/// Adds what is answered to what is printed.
pub fn add_answer<P: Page>(answer: &Answer, page: &mut P)
    ensures { P.adds page.old page.new (answer_text answer.now) }
{
    match answer {
        Answer::Chains(chains) => print_chains(chains, page),
        Answer::Landmarks(map) => print_landmarks(map, page),
        Answer::Verdict(verdict) => add_verdict(verdict, page),
        Answer::Built(report) => add_report(b"built ", report, page),
        Answer::Converted(counts) => add_counts(counts, page),
        Answer::Exported(exported) => add_exported(exported, page),
        Answer::Drawn(drawn) => add_drawn(drawn, page),
        Answer::Bordered(bordered) => add_bordered(bordered, page),
        Answer::Listing { listing, most } => print_listing(listing, *most, page),
        Answer::Lines { text, .. } => page.add(text.as_slice()),
    }
}

// Adds the line of a verdict.
fn add_verdict<P: Page>(verdict: &Verdict, page: &mut P)
    ensures { P.adds page.old page.new (line_of (verdict_text verdict.now)) }
{
    match verdict {
        Verdict::Sound(report) => add_report(b"sound ", report, page),
        Verdict::MapFault(fault) => print_fault(fault, page),
        Verdict::CertFault(fault) => add_cert_fault(fault, page),
    }
}

// Adds a line: a word, and the numbers of a map.
fn add_report<P: Page>(word: &[u8], report: &Report, page: &mut P)
    ensures { P.adds page.old page.new (line_of (word.now ++ report_text report.now)) }
{
    page.add(word);
    add_number(b"chains=", report.chains, page);
    add_number(b" segments=", report.segments, page);
    add_number(b" nodes=", report.nodes, page);
    add_number(b" polygons=", report.polygons, page);
    add_number(b" landmarks=", report.landmarks, page);
    add_number(b" rings=", report.rings, page);
    page.add(b"\n");
}

// Adds the line of a certificate's fault.
fn add_cert_fault<P: Page>(fault: &CertFault, page: &mut P)
    ensures { P.adds page.old page.new (line_of (cert_fault_text fault.now)) }
{
    let (name, number) = fault.cause();
    add_numbered(name, number, page);
    page.add(b"\n");
}

// Adds a text, and the number behind it, if one is.
fn add_numbered<P: Page>(name: &str, number: Option<u128>, page: &mut P)
    ensures { P.adds page.old page.new (numbered_text name.now number) }
{
    page.add(name.as_bytes());
    if let Some(number) = number {
        add_number(b" ", number, page);
    }
}

// Adds the line of a conversion.
fn add_counts<P: Page>(counts: &Converted, page: &mut P)
    ensures { P.adds page.old page.new (line_of (counts_text counts.now.nodes counts.now.rounds counts.now.walks)) }
{
    add_number(b"converted nodes=", counts.nodes, page);
    add_number(b" rounds=", counts.rounds, page);
    add_number(b" walks=", counts.walks, page);
    page.add(b"\n");
}

// Adds the line of an export.
fn add_exported<P: Page>(exported: &Exported, page: &mut P)
    ensures { P.adds page.old page.new (line_of (exported_text exported.now.chains exported.now.polygons exported.now.rings)) }
{
    add_number(b"exported chains=", exported.chains, page);
    add_number(b" polygons=", exported.polygons, page);
    match exported.rings {
        Some(rings) => {
            add_number(b" rings=", rings, page);
            page.add(b"\n");
        }
        None => {
            page.add(b"\nnot sound");
            page.add(b"\n");
        }
    }
}

// Adds the line of a picture.
fn add_drawn<P: Page>(drawn: &Drawn, page: &mut P)
    ensures { P.adds page.old page.new (line_of (drawn_text drawn.now.chains drawn.now.faults drawn.now.touched)) }
{
    add_number(b"drawn chains=", drawn.chains, page);
    match drawn.faults {
        Some(faults) => {
            add_number(b" faults=", faults, page);
            add_touched(drawn.touched, page);
            page.add(b"\n");
        }
        None => page.add(b"\n"),
    }
}

// Adds how many polygons are touched, where some are.
fn add_touched<P: Page>(touched: u64, page: &mut P)
    ensures { P.adds page.old page.new (touched_behind touched) }
{
    if touched != 0 {
        add_number(b" touched polygons=", touched, page);
        page.add(b" not looked at");
    }
}

// Adds the line of a border.
fn add_bordered<P: Page>(bordered: &Bordered, page: &mut P)
    ensures { P.adds page.old page.new (line_of (bordered_text bordered.now.chains bordered.now.segments)) }
{
    add_number(b"bordered chains=", bordered.chains, page);
    add_number(b" segments=", bordered.segments, page);
    page.add(b"\n");
}

// Adds a word and a number.
fn add_number<I: Integer, P: Page>(word: &[u8], number: I, page: &mut P)
    ensures { P.adds page.old page.new (word.now ++ I.text number) }
{
    page.add(word);
    page.number(number);
}
