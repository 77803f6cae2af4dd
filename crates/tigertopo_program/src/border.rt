//! Borders of maps, made over a file system: each takes its name when it is whole.

ghost use Rattle.std.specs.Prelude.{◌≡◌, ℕ, [], List, Option, Some, map as map_list, string_bytes};
ghost use Rattle.tl_record.specs.Layout.{layout_with};
ghost use Rattle.tl_record.specs.declared.options.Options.{Options};
ghost use Rattle.tl_check_verdict.specs.Sound.{IsSoundFor};
ghost use Rattle.tigertopo_files.specs.Files.{IsFree};
ghost use Rattle.tigertopo_files.specs.World.{Does, World, world};
ghost use Rattle.tigertopo_files.specs.Reading.{text_under};
ghost use Rattle.tigertopo_files.specs.declared.beginning.FileKind.TheVariants.{Records};
ghost use Rattle.tigertopo_program.specs.Answers.{IsSaid};
ghost use Rattle.tigertopo_program.specs.Records.{IsDoneWhereSound, StopsNever, StopsRecords};
ghost use Rattle.tigertopo_program.specs.Borders.{BorderAnswers, IsBorderAnswerOf, Wanted, numbers_of};

use crate::answer::{Answer, Bordered};
use crate::making::answer_with_file;
use crate::reading::over_records;
use crate::records::MapOf;
use std::alloc::Global;
use std::hash::RandomState;
use tigertopo_border::{BorderText, chain_count, segment_count};
use tigertopo_files::{FileKind, FileSystem};
use tl_build::{Audit, audit_map};
use tl_cert_output::Stop;
use tl_map_county::Map;
use tl_record::Options;

/// Writes the records of the border of the map of the records in the files of these names, where that keeps what the options ask, to a
/// file of the name `made`, which it may take. The border's one polygon has this CENID. The file takes its name when it is whole.
pub fn border<F: FileSystem>(
    files: &mut F,
    alloc: Global,
    hasher: RandomState,
    options: Options,
    names: &[String],
    made: &String,
    cenid: [u8; 5],
) -> Result<Answer, Stop>
    requires { IsFree (F.under files.old) (string_bytes made.now) (map_list string_bytes names.now) Records }
    ensures { let w = world F.under F.log F.knows files.old files.new in
        let known = text_under (F.under files.old) (map_list string_bytes names.now) in
        Does w (map_list string_bytes names.now) (Some (string_bytes made.now))
        (IsSaid (BorderAnswers w options known (record { name = string_bytes made.now; cenid = cenid }))) (StopsRecords (layout_with options) known)
        result }
{
    match over_records(files, alloc, hasher, names, &MapOf { options })? {
        Ok(map) => border_of_map(files, alloc, options.faces, names, made, cenid, &map),
        Err(fault) => Ok(Answer::fault(fault)),
    }
}

/// Where `border` answers, its status is 0 exactly where the map of the records keeps what is asked of it.
pub fn a_border_is_exact()
    ensures { (w : World) (options : Options) (known : Option (List ℕ)) (wanted : Wanted) (status : ℕ) (said : List ℕ) →
        BorderAnswers w options known wanted status said → IsDoneWhereSound options known status }
{}

// Writes the border of a map that keeps what is asked of it.
fn border_of_map<F: FileSystem>(
    files: &mut F,
    alloc: Global,
    faces: bool,
    names: &[String],
    made: &String,
    cenid: [u8; 5],
    map: &Map,
) -> Result<Answer, Stop>
    requires { IsFree (F.under files.old) (string_bytes made.now) (map_list string_bytes names.now) Records }
    ensures { let w = world F.under F.log F.knows files.old files.new in
        Does w [] (Some (string_bytes made.now))
        (IsBorderAnswerOf w (record { name = string_bytes made.now; cenid = cenid }) faces map.now) StopsNever result }
{
    match audit_map(alloc, map, faces)? {
        Audit::Sound(_) => keep(files, alloc, faces, names, made, cenid, map),
        Audit::Fault(fault) => Ok(Answer::fault(fault)),
    }
}

// Makes the file of the border of such a map.
fn keep<F: FileSystem>(
    files: &mut F,
    alloc: Global,
    faces: bool,
    names: &[String],
    made: &String,
    cenid: [u8; 5],
    map: &Map,
) -> Result<Answer, Stop>
    requires free { IsFree (F.under files.old) (string_bytes made.now) (map_list string_bytes names.now) Records }
    requires sound { IsSoundFor faces map.now }
    ensures { let w = world F.under F.log F.knows files.old files.new in
        Does w [] (Some (string_bytes made.now))
        (IsBorderAnswerOf w (record { name = string_bytes made.now; cenid = cenid }) faces map.now) StopsNever result }
{
    let text = BorderText { map, name: cenid };
    let numbers = numbers_of(map);
    answer_with_file(
        files,
        alloc,
        made,
        names,
        FileKind::Records,
        &text,
        Answer::Bordered(numbers),
    )
}

// The numbers of a map's border.
fn numbers_of(map: &Map) -> Bordered
    ensures { result ≡ numbers_of map.now }
{
    Bordered {
        chains: chain_count(map),
        segments: segment_count(map),
    }
}
