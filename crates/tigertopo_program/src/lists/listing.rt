//! Lists over files: what is found is answered, and the file is made.

ghost use Rattle.std.specs.Prelude.{◌≡◌, [], ℕ, List, Option, None, true, IfOk, IfErr, map as map_list, option_map, string_bytes};
ghost use Rattle.tl_record.specs.declared.layout.Layout.{Layout};
ghost use Rattle.tl_record.specs.Layout.{layout_with};
ghost use Rattle.tl_cert_output.specs.declared.stop.Stop.TheVariants.{Memory};
ghost use Rattle.tl_list.specs.Findings.{IsFoundIn, SaysWhy};
ghost use Rattle.tigertopo_files.specs.World.{Does, MayMake, world};
ghost use Rattle.tigertopo_files.specs.declared.beginning.FileKind.TheVariants.{Collection};
ghost use Rattle.tigertopo_files.specs.Reading.{IsReply, text_under};
ghost use Rattle.tigertopo_program.specs.Records.{StopsNever};
ghost use Rattle.tigertopo_program.specs.Lists.Listed.{ListAnswers, IsSoundList, IsFaultList, StopsList, has_places, most_of};
ghost use Rattle.tigertopo_program.specs.Answers.{IsSaid};
ghost use Rattle.tigertopo_program.specs.Lists.Listed.{asks_lines, is_skipping, report_text, wanted_of};
ghost use Rattle.tigertopo_program.specs.Lists.Keeping.{AreLinesOf, AreNoted, IsFoundWith, faults_answer};

use crate::answer::Answer;
use crate::lists::collection::{make_collection, make_without_faults};
use crate::lists::found::FindingsIn;
use crate::lists::prepared::prepare;
use crate::lists::refused::{is_skipping, tell_refused};
use crate::lists::speaking::{featured, speak_where};
use crate::reading::over_records_with;
use crate::stop::{DONE, MAP_FAULT};
use std::alloc::Global;
use std::hash::RandomState;
use tigertopo_faults::objects::SoundObject;
use tigertopo_faults::told::ToldFaults;
use tigertopo_files::{FileSystem, Reply, with_printed};
use tigertopo_words::{Form, Told};
use tl_cert_output::Stop;
use tl_check_verdict::{MapFault, Report};
use tl_list::{Findings, Found};
use tl_list_text::{Listing, NotedRecords};
use tl_map_county::Map;
use tl_record::Options;

/// What is asked of a list: which faults are told, the first or all or so many from the front, in which form, and the name of the file of
/// GeoJSON that is made of them, if one is.
#[derive(Clone, Copy)]
pub struct Wanted<'a> {
    pub told: Told,
    pub form: Form,
    pub made: &'a Option<String>,
}

/// Answers what is wrong with the county of the files of these names, and makes the file that is wanted, which it may; that takes its
/// name when it is whole.
pub fn list<F: FileSystem>(
    files: &mut F,
    alloc: Global,
    hasher: RandomState,
    options: Options,
    names: &[String],
    wanted: Wanted<'_>,
) -> Result<Answer, Stop>
    requires { MayMake (F.under files.old) (option_map string_bytes wanted.made.now) (map_list string_bytes names.now) Collection }
    ensures { let w = world F.under F.log F.knows files.old files.new in
        let known = text_under (F.under files.old) (map_list string_bytes names.now) in
        let asked = wanted_of (map_list string_bytes names.now) wanted.entry in
        Does w asked.names asked.made (IsSaid (ListAnswers w options known asked))
        (StopsList options known asked) result }
{
    let skips = is_skipping(wanted.told);
    let asks = asks_lines(wanted.form, wanted.made);
    let Reply {
        answer: found,
        line_counts: counts,
    } = find_all(files, alloc, hasher, options, names, skips, asks)?;
    tell_found(files, alloc, hasher, options, names, wanted, found, counts)
}

// All that is wrong with the records of the files of these names, and where refused lines are skipped, with what is left without them. Where
// lines are noted, the lines of each file are counted.
fn find_all<F: FileSystem>(
    files: &mut F,
    alloc: Global,
    hasher: RandomState,
    options: Options,
    names: &[String],
    skips: bool,
    notes: bool,
) -> Result<Reply<Found>, Stop>
    ensures { let known = text_under (F.under files.old) (map_list string_bytes names.now) in
        Does (world F.under F.log F.knows files.old files.new) (map_list string_bytes names.now) None
        (IsReply (IsFoundWith options skips notes known) (F.under files.old) (map_list string_bytes names.now) notes) StopsNever result }
{
    let asked = FindingsIn {
        options,
        skips,
        notes,
    };
    over_records_with(files, alloc, hasher, names, notes, &asked)
}

// Answers what was found in files of these names, which have so many lines each, and makes the file that is wanted.
fn tell_found<F: FileSystem>(
    files: &mut F,
    alloc: Global,
    hasher: RandomState,
    options: Options,
    names: &[String],
    wanted: Wanted<'_>,
    found: Found,
    counts: Vec<u64>,
) -> Result<Answer, Stop>
    requires why { SaysWhy found.whole.map found.whole.listing }
    requires made { MayMake (F.under files.old) (option_map string_bytes wanted.made.now) (map_list string_bytes names.now) Collection }
    ensures { (known : Option (List ℕ)) → IsFoundIn options (is_skipping wanted.entry.told) known found →
        let w = world F.under F.log F.knows files.old files.new in
        let asked = wanted_of (map_list string_bytes names.now) wanted.entry in
        (asks_lines asked.form asked.made ≡ true → AreNoted (layout_with options) w.before asked.names counts.items found)
        → Does w [] asked.made (IsSaid (ListAnswers w options known asked))
        (StopsList options known asked) result }
{
    let Found { whole, left, noted } = found;
    let Findings { listing, map } = whole;
    match listing {
        Listing::Sound(report) => tell_sound(files, alloc, hasher, names, wanted, report),
        Listing::Refused(list) => tell_refused(
            files, alloc, hasher, options, names, wanted, list, left, counts, &noted,
        ),
        Listing::Faults { faults, touched } => {
            let records = &noted.records;
            tell_faults(
                files, alloc, hasher, names, wanted, map, faults, touched, counts, records,
            )
        }
    }
}

// Answers that the map is sound. Of no fault the file that is wanted has a feature.
fn tell_sound<F: FileSystem>(
    files: &mut F,
    alloc: Global,
    hasher: RandomState,
    names: &[String],
    wanted: Wanted<'_>,
    report: Report,
) -> Result<Answer, Stop>
    requires { MayMake (F.under files.old) (option_map string_bytes wanted.made.now) (map_list string_bytes names.now) Collection }
    ensures { let w = world F.under F.log F.knows files.old files.new in
        let asked = wanted_of (map_list string_bytes names.now) wanted.entry in
        Does w [] asked.made (IsSoundList w asked report) StopsNever result }
{
    let answer = sound_answer(alloc, wanted.form, report)?;
    make_without_faults(files, alloc, hasher, wanted.made, names, &[])?;
    Ok(answer)
}

// The report of a sound map, in this form.
fn sound_answer(alloc: Global, form: Form, report: Report) -> Result<Answer, Stop>
    ensures said { IfOk result (IsSaid (λ status text. (status ≡ 0) × (text ≡ report_text form report))) }
    ensures stop { IfErr result (λ stop. stop ≡ Memory) }
{
    match form {
        Form::Lines | Form::Records => Ok(Answer::Listing {
            listing: Listing::Sound(report),
            most: None,
        }),
        Form::Objects => {
            let text = with_printed(alloc, &[], &SoundObject { report: &report })?;
            Ok(Answer::Lines { status: DONE, text })
        }
    }
}

/// Whether in this form faults have the records that they speak of, and refused lines where they stand.
pub(crate) fn has_places(form: Form) -> bool
    ensures { result ≡ has_places form }
{
    match form {
        Form::Lines => false,
        Form::Records | Form::Objects => true,
    }
}

// Answers faults, and makes the file of them that is wanted.
fn tell_faults<F: FileSystem>(
    files: &mut F,
    alloc: Global,
    hasher: RandomState,
    names: &[String],
    wanted: Wanted<'_>,
    map: Option<Map>,
    faults: Vec<MapFault>,
    touched: u64,
    counts: Vec<u64>,
    records: &NotedRecords,
) -> Result<Answer, Stop>
    requires { MayMake (F.under files.old) (option_map string_bytes wanted.made.now) (map_list string_bytes names.now) Collection }
    ensures { let w = world F.under F.log F.knows files.old files.new in
        let asked = wanted_of (map_list string_bytes names.now) wanted.entry in
        (layout : Layout) → (asks_lines asked.form asked.made ≡ true → AreLinesOf layout w.before asked.names counts.items records.now)
        → Does w [] asked.made (IsFaultList w layout asked map (record { faults = faults; touched = touched })) StopsNever result }
{
    let drawn = map.as_ref();
    let listed = faults.as_slice();
    let shown = featured(wanted.told, listed);
    let spoken = speak_where(alloc, hasher, wanted, counts, records, drawn, shown)?;
    let told = ToldFaults {
        names,
        drawn,
        spoken: &spoken,
        form: wanted.form,
        told: wanted.told,
        faults: listed,
        touched,
    };
    let text = prepare(alloc, &told)?;
    make_collection(
        files,
        alloc,
        wanted.made,
        names,
        drawn,
        &spoken,
        shown,
        touched,
        &[],
    )?;
    Ok(faults_answer(text, faults, touched, wanted.told))
}

/// Whether lines are asked for: in this form faults have the records that they speak of, and refused lines where they stand, or a file is
/// made of them.
pub(crate) fn asks_lines(form: Form, made: &Option<String>) -> bool
    ensures { result ≡ asks_lines form (option_map string_bytes made.now) }
{
    match made {
        Some(_) => true,
        None => has_places(form),
    }
}

// What was prepared of faults, or the listing of them, as an answer.
fn faults_answer(text: Option<Vec<u8>>, faults: Vec<MapFault>, touched: u64, told: Told) -> Answer
    ensures { result ≡ faults_answer text faults touched told }
{
    match text {
        Some(text) => Answer::Lines {
            status: MAP_FAULT,
            text,
        },
        None => Answer::Listing {
            listing: Listing::Faults { faults, touched },
            most: most_of(told),
        },
    }
}

/// How many of a list are told, where not each is.
pub(crate) fn most_of(told: Told) -> Option<u64>
    ensures { result ≡ most_of told }
{
    match told {
        Told::One => Some(1),
        Told::All { most, .. } => most,
    }
}
