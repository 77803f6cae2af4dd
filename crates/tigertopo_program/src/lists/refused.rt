//! Lines that are refused, as they are answered, and the file of them.

ghost use Rattle.std.specs.Prelude.{◌≡◌, ◌<◌, ◌++◌, [], ℕ, List, Option, None, Some, true, false, IfOk, IfErr, IfSome};
ghost use Rattle.std.specs.Prelude.{length, map as map_list, option_map, is_some, slice_get, string_bytes};
ghost use Rattle.tl_record.specs.Layout.{layout_with};
ghost use Rattle.tl_cert_output.specs.declared.stop.Stop.TheVariants.{Memory};
ghost use Rattle.tl_list.specs.Listings.{IsListingOf};
ghost use Rattle.tl_list_text.specs.Texts.{printed};
ghost use Rattle.tl_list_text.specs.declared.listing.Listing.TheVariants.{Refused as RefusedListing};
ghost use Rattle.tigertopo_files.specs.World.{Does, MayMake, world};
ghost use Rattle.tigertopo_faults.specs.Hint.Fronts.{fronted_text};
ghost use Rattle.tigertopo_faults.specs.declared.hint.form.RefusedForm.TheVariants.{Features};
ghost use Rattle.tigertopo_files.specs.declared.beginning.FileKind.TheVariants.{Collection};
ghost use Rattle.tl_list.specs.Findings.{IsLeft};
ghost use Rattle.tigertopo_program.specs.Lists.Listed.{ListAnswers, StopsList, asks_lines, has_places};
ghost use Rattle.tigertopo_program.specs.Answers.{IsSaid};
ghost use Rattle.tigertopo_program.specs.Lists.Listed.{is_skipping, refusals_last, refused_form, stops_refused, wanted_of};
ghost use Rattle.tigertopo_program.specs.Lists.Keeping.{AnswersFronted, AreFronts, AreLinesOf, ArePreparedOf, stop_of_refusal};
ghost use Rattle.tl_list.specs.Keeping.Noting.{bytes_of};

use crate::answer::Answer;
use crate::lists::collection::make_without_faults;
use crate::lists::listing::{Wanted, has_places, most_of};
use crate::lists::skipping::tell_left;
use crate::lists::speaking::featured;
use crate::stop::REFUSED;
use std::alloc::{AllocError, Global};
use std::hash::RandomState;
use tigertopo_faults::hint::{RefusedForm, RefusedLines, print_refusals};
use tigertopo_faults::objects::print_refusals_end;
use tigertopo_files::{FileSystem, with_printed};
use tigertopo_words::{Form, Told};
use tl_cert_output::{Page, Stop, Text};
use tl_list::{LeftFaults, NotedLines};
use tl_list_text::{Listing, first_of, print_end};
use tl_record::{Options, Refusal};

/// Answers lines that are refused: all, or so many from the front, with where they stand if the form has that, and makes the file that is
/// wanted; or where one fault is asked for as a line, the first as a stop. Where they are skipped, the faults of what is left stand behind
/// them, if there is something.
pub(crate) fn tell_refused<F: FileSystem>(
    files: &mut F,
    alloc: Global,
    hasher: RandomState,
    options: Options,
    names: &[String],
    wanted: Wanted<'_>,
    list: Vec<Refusal>,
    left: Option<LeftFaults>,
    counts: Vec<u64>,
    noted: &NotedLines,
) -> Result<Answer, Stop>
    requires some { 0 < length list.items }
    requires made { MayMake (F.under files.old) (option_map string_bytes wanted.made.now) (map_list string_bytes names.now) Collection }
    ensures { (known : Option (List ℕ)) → IfSome known (λ text. IsListingOf options text (RefusedListing list))
        → IsLeft options (is_skipping wanted.entry.told) known (RefusedListing list) left →
        let w = world F.under F.log F.knows files.old files.new in
        let asked = wanted_of (map_list string_bytes names.now) wanted.entry in
        (asks_lines asked.form asked.made ≡ true → AreFronts w.before asked.names counts.items list.items (bytes_of noted.now.fronts.items)
        × IfSome left (λ it. AreLinesOf (layout_with options) w.before asked.names counts.items noted.now.records))
        → Does w [] asked.made (IsSaid (ListAnswers w options known asked))
        (StopsList options known asked) result }
{
    if stops_refused(wanted.told, wanted.form) {
        return Err(first_stop(list.as_slice()));
    }
    match left {
        Some(left) => tell_left(
            files, alloc, hasher, options, names, wanted, list, &left, counts, noted,
        ),
        None => {
            let counts = counts.as_slice();
            let fronts = noted.fronts.as_slice();
            tell_refusals(
                files, alloc, hasher, options, names, wanted, list, counts, fronts,
            )
        }
    }
}

// Answers these lines alone, and makes the file that is wanted of them.
fn tell_refusals<F: FileSystem>(
    files: &mut F,
    alloc: Global,
    hasher: RandomState,
    options: Options,
    names: &[String],
    wanted: Wanted<'_>,
    list: Vec<Refusal>,
    counts: &[u64],
    fronts: &[Vec<u8>],
) -> Result<Answer, Stop>
    requires { MayMake (F.under files.old) (option_map string_bytes wanted.made.now) (map_list string_bytes names.now) Collection }
    ensures { let w = world F.under F.log F.knows files.old files.new in
        let asked = wanted_of (map_list string_bytes names.now) wanted.entry in
        (known : Option (List ℕ)) → stops_refused asked.told asked.form ≡ false
        → IfSome known (λ text. IsListingOf options text (RefusedListing list))
        → IsLeft options (is_skipping asked.told) known (RefusedListing list) None
        → (asks_lines asked.form asked.made ≡ true → AreFronts w.before asked.names counts.now list.items (bytes_of fronts.now))
        → Does w [] asked.made (IsSaid (ListAnswers w options known asked))
        (StopsList options known asked) result }
{
    let prepared = refused_texts(alloc, options, names, wanted, list, counts, fronts)?;
    make_without_faults(
        files,
        alloc,
        hasher,
        wanted.made,
        names,
        prepared.1.as_slice(),
    )?;
    Ok(prepared.0)
}

/// What is answered of lines that are refused, in files of so many lines each, and begin with these bytes; and the features of those that
/// the file has, which is made of them if it is wanted.
pub(crate) fn refused_texts(
    alloc: Global,
    options: Options,
    names: &[String],
    wanted: Wanted<'_>,
    list: Vec<Refusal>,
    counts: &[u64],
    fronts: &[Vec<u8>],
) -> Result<(Answer, Vec<u8>), Stop>
    ensures prepared { let asked = wanted_of (map_list string_bytes names.now) wanted.entry in
        IfOk result (ArePreparedOf (layout_with options) asked list counts.now (bytes_of fronts.now)) }
    ensures stop { IfErr result (λ stop. stop ≡ Memory) }
{
    let shown = featured(wanted.told, list.as_slice());
    let features = features_of(alloc, options, names, wanted.made, counts, shown, fronts)?;
    let answer = tell_all_refused(alloc, options, names, wanted, list, counts, fronts)?;
    Ok((answer, features))
}

// The features of refused lines, each with where it stands and with a comma in front, if a file is made of them.
fn features_of(
    alloc: Global,
    options: Options,
    names: &[String],
    made: &Option<String>,
    counts: &[u64],
    refusals: &[Refusal],
    fronts: &[Vec<u8>],
) -> Result<Vec<u8>, Stop>
    ensures text { IfOk result (λ text. is_some (option_map string_bytes made.now) ≡ true
        → text.items ≡ fronted_text Features (layout_with options) (map_list string_bytes names.now) counts.now refusals.now (bytes_of fronts.now)) }
    ensures stop { IfErr result (λ stop. stop ≡ Memory) }
{
    if made.is_none() {
        return Ok(Vec::new(alloc));
    }
    let features = RefusedLines {
        form: RefusedForm::Features,
        options,
        names,
        counts,
        refusals,
        fronts,
    };
    with_printed(alloc, &[], &features)
}

/// Whether refused lines are skipped.
pub(crate) fn is_skipping(told: Told) -> bool
    ensures { result ≡ is_skipping told }
{
    match told {
        Told::One => false,
        Told::All { skips, .. } => skips,
    }
}

// Whether a refused line is a stop, and isn't answered: where one fault is asked for as a line.
fn stops_refused(told: Told, form: Form) -> bool
    ensures { result ≡ stops_refused told form }
{
    match (told, form) {
        (Told::One, Form::Lines | Form::Records) => true,
        (Told::One, Form::Objects) => false,
        (Told::All { .. }, _) => false,
    }
}

// Answers lines that are refused: all, or so many from the front, with where they stand if the form has that.
fn tell_all_refused(
    alloc: Global,
    options: Options,
    names: &[String],
    wanted: Wanted<'_>,
    list: Vec<Refusal>,
    counts: &[u64],
    fronts: &[Vec<u8>],
) -> Result<Answer, Stop>
    ensures answer { let asked = wanted_of (map_list string_bytes names.now) wanted.entry in
        IfOk result (AnswersFronted (layout_with options) asked list counts.now (bytes_of fronts.now)) }
    ensures stop { IfErr result (λ stop. stop ≡ Memory) }
{
    let most = most_of(wanted.told);
    if !has_places(wanted.form) {
        return Ok(Answer::Listing {
            listing: Listing::Refused(list),
            most,
        });
    }
    let placed = PlacedList {
        options,
        names,
        form: wanted.form,
        list: list.as_slice(),
        most,
        counts,
        fronts,
    };
    let text = with_printed(alloc, &[], &placed)?;
    Ok(Answer::Lines {
        status: REFUSED,
        text,
    })
}

// Lines that are refused, all or so many from the front, each with where it stands, and how many there are.
#[derive(Clone, Copy)]
struct PlacedList<'a> {
    options: Options,
    names: &'a [String],
    form: Form,
    list: &'a [Refusal],
    most: Option<u64>,
    counts: &'a [u64],
    fronts: &'a [Vec<u8>],
}

impl Text for PlacedList<'_> {
    ghost use Rattle.std.specs.Prelude.{⊤};

    ghost text = { λ told. let shown = printed told.most told.list.now in
        fronted_text (refused_form told.form) (layout_with told.options) (map_list string_bytes told.names.now) told.counts.now shown
        (bytes_of told.fronts.now)
        ++ refusals_last told.form told.most (length told.list.now) (length shown) };

    ghost is_ready = { λ told. ⊤ };

    fn add_to<P: Page>(&self, _alloc: Global, page: &mut P) -> Result<(), AllocError> {
        let shown = first_of(self.list, self.most);
        print_refusals(
            refused_form(self.form),
            self.options,
            self.names,
            self.counts,
            shown,
            self.fronts,
            page,
        );
        print_last(
            self.form,
            self.most,
            self.list.len() as u64,
            shown.len() as u64,
            page,
        );
        Ok(())
    }
}

// In which form refused lines are printed, with where they stand.
fn refused_form(form: Form) -> RefusedForm
    ensures { result ≡ refused_form form }
{
    match form {
        Form::Lines | Form::Records => RefusedForm::Lines,
        Form::Objects => RefusedForm::Objects,
    }
}

// Prints how many lines are refused, and how many of them are printed where a number is given.
fn print_last<P: Page>(form: Form, most: Option<u64>, count: u64, printed: u64, page: &mut P)
    ensures { P.adds page.old page.new (refusals_last form most count printed) }
{
    match form {
        Form::Lines | Form::Records => print_end(0, "refused=", most, count, page),
        Form::Objects => print_refusals_end(count, printed, page),
    }
}

/// Why there is no answer, where these lines are refused: the first of them.
pub(crate) fn first_stop(list: &[Refusal]) -> Stop
    requires { 0 < length list.now }
    ensures { option_map stop_of_refusal (slice_get list.now 0) ≡ Some result }
{
    Stop::Record {
        line: list[0].line,
        cause: list[0].cause,
    }
}
