//! The file of GeoJSON.

ghost use Rattle.std.specs.Prelude.{[], map, option_map, option_copied, string_bytes};
ghost use Rattle.tigertopo_faults.specs.Geojson.Texts.{faults_text};
ghost use Rattle.tigertopo_files.specs.World.{Does, Made, MayMake, world};
ghost use Rattle.tigertopo_files.specs.declared.beginning.FileKind.TheVariants.{Collection};
ghost use Rattle.tigertopo_faults.specs.Records.Keeping.{held};
ghost use Rattle.tigertopo_program.specs.Records.{StopsNever};
ghost use Rattle.tigertopo_program.specs.Lists.Listed.{refused_text};

use std::alloc::Global;
use std::hash::RandomState;
use tigertopo_faults::geojson::FaultsText;
use tigertopo_faults::lines::Spoken;
use tigertopo_files::{FileKind, FileSystem, make_file};
use tl_cert_output::Stop;
use tl_check_verdict::MapFault;
use tl_map_county::Map;

/// Makes the file of no fault, with these features of refused lines, where one is asked for.
pub(crate) fn make_without_faults<F: FileSystem>(
    files: &mut F,
    alloc: Global,
    hasher: RandomState,
    made: &Option<String>,
    names: &[String],
    refused: &[u8],
) -> Result<(), Stop>
    requires { MayMake (F.under files.old) (option_map string_bytes made.now) (map string_bytes names.now) Collection }
    ensures { let w = world F.under F.log F.knows files.old files.new in
        let name = option_map string_bytes made.now in
        Does w [] name (λ done. Made w name (refused_text (map string_bytes names.now) refused.now)) StopsNever result }
{
    let nothing = Spoken::nothing(alloc, hasher)?;
    make_collection(files, alloc, made, names, None, &nothing, &[], 0, refused)
}

/// Makes the file of these faults, with these features of refused lines, where one is asked for.
pub(crate) fn make_collection<F: FileSystem>(
    files: &mut F,
    alloc: Global,
    made: &Option<String>,
    names: &[String],
    drawn: Option<&Map>,
    spoken: &Spoken,
    faults: &[MapFault],
    touched: u64,
    refused: &[u8],
) -> Result<(), Stop>
    requires { MayMake (F.under files.old) (option_map string_bytes made.now) (map string_bytes names.now) Collection }
    ensures { let w = world F.under F.log F.knows files.old files.new in
        let text = faults_text (map string_bytes names.now) spoken.now.counts.items (option_copied drawn.entry)
        (held spoken.now.lines) spoken.now.places.items faults.now touched refused.now in
        Does w [] (option_map string_bytes made.now) (λ done. Made w (option_map string_bytes made.now) text) StopsNever result }
{
    let Some(name) = made else {
        return Ok(());
    };
    let text = FaultsText {
        names,
        counts: spoken.counts.as_slice(),
        drawn,
        lines: &spoken.lines,
        places: spoken.places.as_slice(),
        faults,
        touched,
        refused,
    };
    make_file(
        files,
        alloc,
        name.as_str(),
        names,
        FileKind::Collection,
        &text,
    )
}
