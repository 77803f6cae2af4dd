//! Refused lines that are skipped, as they are answered with the faults of the records that are left, and the file of both.

ghost use Rattle.std.specs.Prelude.{◌≡◌, ◌++◌, [], true, ℕ, List, Option, Some, IfOk, IfErr, IfSome};
ghost use Rattle.std.specs.Prelude.{map as map_list, option_map, string_bytes};
ghost use Rattle.tl_record.specs.Layout.{layout_with};
ghost use Rattle.tl_cert_output.specs.declared.stop.Stop.TheVariants.{Memory};
ghost use Rattle.tl_list.specs.Listings.{IsListingOf};
ghost use Rattle.tl_list_text.specs.declared.listing.Listing.TheVariants.{Refused as RefusedLines};
ghost use Rattle.tigertopo_files.specs.Files.{Under};
ghost use Rattle.tigertopo_files.specs.World.{Does, MayMake, world};
ghost use Rattle.tigertopo_files.specs.declared.beginning.FileKind.TheVariants.{Collection};
ghost use Rattle.tl_list.specs.Findings.{IsLeft};
ghost use Rattle.tigertopo_program.specs.Lists.Listed.{ListAnswers, StopsList, asks_lines, is_skipping, skipped_text, wanted_of};
ghost use Rattle.tigertopo_program.specs.Lists.Keeping.{AreFronts, AreLinesOf, IsLeftPrepared};
ghost use Rattle.tl_list.specs.Keeping.Noting.{bytes_of};
ghost use Rattle.tigertopo_program.specs.Answers.{IsSaid};
ghost use Rattle.tigertopo_program.specs.Texts.{answer_text};

use crate::answer::Answer;
use crate::line::add_answer;
use crate::lists::collection::make_collection;
use crate::lists::listing::Wanted;
use crate::lists::refused::refused_texts;
use crate::lists::speaking::{featured, speak_where};
use crate::stop::REFUSED;
use std::alloc::{AllocError, Global};
use std::hash::RandomState;
use tigertopo_faults::lines::Spoken;
use tigertopo_faults::objects::print_skipped_end;
use tigertopo_faults::told::ToldFaults;
use tigertopo_files::{FileSystem, with_printed};
use tigertopo_words::Form;
use tl_cert_output::{Page, Stop, Text};
use tl_list::{LeftFaults, NotedLines};
use tl_record::{Options, Refusal};

/// Answers lines that are refused, behind them the faults of what is left, and how many lines were skipped, and makes the file that is
/// wanted of both.
pub(crate) fn tell_left<F: FileSystem>(
    files: &mut F,
    alloc: Global,
    hasher: RandomState,
    options: Options,
    names: &[String],
    wanted: Wanted<'_>,
    list: Vec<Refusal>,
    left: &LeftFaults,
    counts: Vec<u64>,
    noted: &NotedLines,
) -> Result<Answer, Stop>
    requires { MayMake (F.under files.old) (option_map string_bytes wanted.made.now) (map_list string_bytes names.now) Collection }
    ensures { let w = world F.under F.log F.knows files.old files.new in
        let asked = wanted_of (map_list string_bytes names.now) wanted.entry in
        (known : Option (List ℕ)) → IfSome known (λ text. IsListingOf options text (RefusedLines list))
        → IsLeft options (is_skipping asked.told) known (RefusedLines list) (Some left.now)
        → (asks_lines asked.form asked.made ≡ true → AreFronts w.before asked.names counts.items list.items (bytes_of noted.now.fronts.items)
        × AreLinesOf (layout_with options) w.before asked.names counts.items noted.now.records)
        → Does w [] asked.made (IsSaid (ListAnswers w options known asked))
        (StopsList options known asked) result }
{
    let texts = prepare_left(
        alloc, hasher, options, names, wanted, list, left, counts, noted,
    )?;
    let drawn = left.map.as_ref();
    let faults = left.faults.as_slice();
    let shown = featured(wanted.told, faults);
    let features = texts.features.as_slice();
    make_collection(
        files,
        alloc,
        wanted.made,
        names,
        drawn,
        &texts.spoken,
        shown,
        left.touched,
        features,
    )?;
    Ok(Answer::Lines {
        status: REFUSED,
        text: texts.text,
    })
}

/// What is answered of refused lines and of what is left, the records that its faults speak of, and the features of those refused lines that
/// the file has.
#[derive(Drop)]
pub(crate) struct LeftTexts {
    pub text: Vec<u8>,
    pub spoken: Spoken,
    pub features: Vec<u8>,
}

// These texts.
fn prepare_left(
    alloc: Global,
    hasher: RandomState,
    options: Options,
    names: &[String],
    wanted: Wanted<'_>,
    list: Vec<Refusal>,
    left: &LeftFaults,
    counts: Vec<u64>,
    noted: &NotedLines,
) -> Result<LeftTexts, Stop>
    ensures prepared { let asked = wanted_of (map_list string_bytes names.now) wanted.entry in
        IfOk result (λ texts. (under : Under) → (asks_lines asked.form asked.made ≡ true →
        AreFronts under asked.names counts.items list.items (bytes_of noted.now.fronts.items)
        × AreLinesOf (layout_with options) under asked.names counts.items noted.now.records)
        → IsLeftPrepared (layout_with options) under asked list.items left.now texts) }
    ensures stop { IfErr result (λ stop. stop ≡ Memory) }
{
    let drawn = left.map.as_ref();
    let faults = left.faults.as_slice();
    let shown = featured(wanted.told, faults);
    let records = &noted.records;
    let spoken = speak_where(alloc, hasher, wanted, counts, records, drawn, shown)?;
    let told = ToldFaults {
        names,
        drawn,
        spoken: &spoken,
        form: wanted.form,
        told: wanted.told,
        faults,
        touched: left.touched,
    };
    let behind = with_printed(alloc, &[], &told)?;
    let refusals = list.as_slice();
    let count = refusals.len() as u64;
    let counts = spoken.counts.as_slice();
    let fronts = noted.fronts.as_slice();
    let refused = refused_texts(alloc, options, names, wanted, list, counts, fronts)?;
    let whole = LeftText {
        refused: &refused.0,
        behind: behind.as_slice(),
        form: wanted.form,
        count,
    };
    let text = with_printed(alloc, &[], &whole)?;
    Ok(LeftTexts {
        text,
        spoken,
        features: refused.1,
    })
}

// What is answered of refused lines, behind it a text of faults, and how many lines were skipped.
#[derive(Clone, Copy)]
struct LeftText<'a> {
    refused: &'a Answer,
    behind: &'a [u8],
    form: Form,
    count: u64,
}

impl Text for LeftText<'_> {
    ghost use Rattle.std.specs.Prelude.{⊤};

    ghost text = { λ left. answer_text left.refused.now ++ left.behind.now ++ skipped_text left.form left.count };

    ghost is_ready = { λ left. ⊤ };

    fn add_to<P: Page>(&self, _alloc: Global, page: &mut P) -> Result<(), AllocError> {
        add_answer(self.refused, page);
        page.add(self.behind);
        print_skipped(self.form, self.count, page);
        Ok(())
    }
}

// Prints the last line, which says how many refused lines were skipped.
fn print_skipped<P: Page>(form: Form, count: u64, page: &mut P)
    ensures { P.adds page.old page.new (skipped_text form count) }
{
    match form {
        Form::Lines | Form::Records => {
            page.add(b"refused lines=");
            page.number(count);
            page.add(b" skipped\n");
        }
        Form::Objects => print_skipped_end(count, page),
    }
}
