//! Counties that are exported.

ghost use Rattle.std.specs.Prelude.{◌≡◌, [], Some, map as map_list, option_map, slice_get, string_bytes};
ghost use Rattle.tl_record.specs.Layout.{layout_with};
ghost use Rattle.tigertopo_files.specs.Files.{IsFree};
ghost use Rattle.tigertopo_files.specs.World.{Does, world};
ghost use Rattle.tigertopo_files.specs.declared.beginning.FileKind.TheVariants.{Collection};
ghost use Rattle.tl_check_verdict.specs.Sound.{IsSound};
ghost use Rattle.tl_check_sides.specs.Walks.{AreWalks};
ghost use Rattle.tigertopo_pictures.specs.Geojson.Holes.{AreShapes};
ghost use Rattle.tigertopo_program.specs.Answers.{IsSaid};
ghost use Rattle.tigertopo_files.specs.Reading.{text_under};
ghost use Rattle.tigertopo_program.specs.Records.{StopsNever, StopsRecords};
ghost use Rattle.tigertopo_program.specs.Exports.{ExportAnswers, IsExportedOf, asked_of, counts_of};

use crate::answer::{Answer, Exported};
use crate::making::answer_with_file;
use crate::reading::over_records;
use crate::records::MapOf;
use std::alloc::Global;
use std::hash::RandomState;
use tigertopo_files::{FileKind, FileSystem};
use tigertopo_pictures::geojson::{CountyText, CountyTextWith, Shapes};
use tigertopo_words::Layer;
use tl_build::find_walks;
use tl_cert_output::Stop;
use tl_map_county::Map;
use tl_record::Options;

/// Exports the map of the records in the files of these names as GeoJSON, or one layer of it, to a file of the name `made`, which it may
/// take. The map need not be sound: of one that isn't there are no polygons, and the answer says so. The file takes its name when it
/// is whole.
pub fn export<F: FileSystem>(
    files: &mut F,
    alloc: Global,
    hasher: RandomState,
    options: Options,
    names: &[String],
    made: &String,
    layer: Option<Layer>,
) -> Result<Answer, Stop>
    requires { IsFree (F.under files.old) (string_bytes made.now) (map_list string_bytes names.now) Collection }
    ensures { let w = world F.under F.log F.knows files.old files.new in
        let known = text_under (F.under files.old) (map_list string_bytes names.now) in
        let asked = asked_of (map_list string_bytes names.now) (string_bytes made.now) layer in
        Does w (map_list string_bytes names.now) (Some (string_bytes made.now))
        (IsSaid (ExportAnswers w (layout_with options) known asked)) (StopsRecords (layout_with options) known) result }
{
    match over_records(files, alloc, hasher, names, &MapOf { options })? {
        Ok(map) => export_map(files, alloc, names, made, layer, &map),
        Err(fault) => Ok(Answer::fault(fault)),
    }
}

// Exports a map, with its polygons where it is sound.
fn export_map<F: FileSystem>(
    files: &mut F,
    alloc: Global,
    names: &[String],
    made: &String,
    layer: Option<Layer>,
    map: &Map,
) -> Result<Answer, Stop>
    requires { IsFree (F.under files.old) (string_bytes made.now) (map_list string_bytes names.now) Collection }
    ensures { let w = world F.under F.log F.knows files.old files.new in
        let asked = asked_of (map_list string_bytes names.now) (string_bytes made.now) layer in
        Does w [] (Some (string_bytes made.now)) (IsExportedOf w asked map.now) StopsNever result }
{
    match find_walks(alloc, map)? {
        Some(walks) => export_walked(files, alloc, names, made, layer, map, &walks),
        None => export_faulty(files, alloc, names, made, layer, map),
    }
}

// Exports a sound map, whose walks these are.
fn export_walked<F: FileSystem>(
    files: &mut F,
    alloc: Global,
    names: &[String],
    made: &String,
    layer: Option<Layer>,
    map: &Map,
    walks: &[Vec<u32>],
) -> Result<Answer, Stop>
    requires free { IsFree (F.under files.old) (string_bytes made.now) (map_list string_bytes names.now) Collection }
    requires sound { IsSound map.now }
    requires walks { AreWalks map.now.chains (map_list (λ w. w.items) walks.now) }
    ensures { let w = world F.under F.log F.knows files.old files.new in
        let asked = asked_of (map_list string_bytes names.now) (string_bytes made.now) layer in
        Does w [] (Some (string_bytes made.now)) (IsExportedOf w asked map.now) StopsNever result }
{
    match Shapes::new(alloc, map, walks) {
        Ok(shapes) => export_sound(files, alloc, names, made, layer, map, walks, &shapes),
        Err(_) => Err(Stop::Memory),
    }
}

// Exports a sound map, whose polygons have these shapes.
fn export_sound<F: FileSystem>(
    files: &mut F,
    alloc: Global,
    names: &[String],
    made: &String,
    layer: Option<Layer>,
    map: &Map,
    walks: &[Vec<u32>],
    shapes: &Shapes,
) -> Result<Answer, Stop>
    requires free { IsFree (F.under files.old) (string_bytes made.now) (map_list string_bytes names.now) Collection }
    requires sound { IsSound map.now }
    requires walks { AreWalks map.now.chains (map_list (λ w. w.items) walks.now) }
    requires shapes { AreShapes map.now (map_list (λ w. w.items) walks.now) shapes.now }
    ensures { let w = world F.under F.log F.knows files.old files.new in
        let asked = asked_of (map_list string_bytes names.now) (string_bytes made.now) layer in
        Does w [] (Some (string_bytes made.now)) (IsExportedOf w asked map.now) StopsNever result }
{
    let file = first_name(names);
    let text = CountyTextWith {
        map,
        layer,
        file,
        walks,
        shapes,
    };
    let counts = counts(map, Some(shapes.rings()));
    answer_with_file(
        files,
        alloc,
        made,
        names,
        FileKind::Collection,
        &text,
        Answer::Exported(counts),
    )
}

// Exports a map that isn't sound.
fn export_faulty<F: FileSystem>(
    files: &mut F,
    alloc: Global,
    names: &[String],
    made: &String,
    layer: Option<Layer>,
    map: &Map,
) -> Result<Answer, Stop>
    requires free { IsFree (F.under files.old) (string_bytes made.now) (map_list string_bytes names.now) Collection }
    requires faulty { ¬ IsSound map.now }
    ensures { let w = world F.under F.log F.knows files.old files.new in
        let asked = asked_of (map_list string_bytes names.now) (string_bytes made.now) layer in
        Does w [] (Some (string_bytes made.now)) (IsExportedOf w asked map.now) StopsNever result }
{
    let file = first_name(names);
    let text = CountyText { map, layer, file };
    let counts = counts(map, None);
    answer_with_file(
        files,
        alloc,
        made,
        names,
        FileKind::Collection,
        &text,
        Answer::Exported(counts),
    )
}

// The name that stands for all files: that of the first.
fn first_name(names: &[String]) -> Option<&str>
    ensures { option_map (λ name. name.now) result ≡ slice_get (map_list string_bytes names.now) 0 }
{
    match names {
        [first, ..] => Some(first.as_str()),
        [] => None,
    }
}

// The numbers of a map that was exported, with so many rings.
fn counts(map: &Map, rings: Option<u64>) -> Exported
    ensures { result ≡ counts_of map.now rings }
{
    Exported {
        chains: map.chains(),
        polygons: map.polygons(),
        rings,
    }
}
