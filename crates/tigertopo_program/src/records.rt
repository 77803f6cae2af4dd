//! Answers that come of records alone.

ghost use Rattle.std.specs.Prelude.{None, map, string_bytes};
ghost use Rattle.tl_record.specs.Layout.{layout_with};
ghost use Rattle.tigertopo_files.specs.World.{Does, world};
ghost use Rattle.tigertopo_program.specs.Answers.{ShowAnswers, LandmarksAnswers, LocateAnswers, IsSaid, IsReadMap};
ghost use Rattle.tigertopo_files.specs.Reading.{text_under};
ghost use Rattle.tigertopo_program.specs.Records.{StopsRecords};

use crate::answer::Answer;
use crate::print::PlaceText;
use crate::reading::{Question, over_records};
use crate::stop::DONE;
use std::alloc::Global;
use std::hash::RandomState;
use tigertopo_files::{FileSystem, with_printed};
use tl_cert_output::Stop;
use tl_check_inside::locate as locate_in;
use tl_check_verdict::{MapFault, fault_of_records};
use tl_geom::Point;
use tl_map::{read_chains_with, read_map_with};
use tl_map_county::Map;
use tl_record::{Options, Source};
use tl_tree::PlainList;

// The chains that the records draw, or the fault of the chains.
#[derive(Clone, Copy)]
struct ChainsOf {
    options: Options,
}

impl Question for ChainsOf {
    type Answer = Answer;

    ghost answers = { λ asked known. IsSaid (ShowAnswers (layout_with asked.options) known) };

    ghost stops = { λ asked known. StopsRecords (layout_with asked.options) known };

    fn ask<R: Source>(
        &self,
        alloc: Global,
        _hasher: RandomState,
        records: &mut R,
    ) -> Result<Answer, Stop> {
        match read_chains_with(alloc, records, self.options) {
            Ok(chains) => Ok(Answer::Chains(chains)),
            Err(stop) => Ok(Answer::fault(fault_of_records(stop)?)),
        }
    }
}

/// The map of the records, or the fault of records that have none, as a question.
#[derive(Clone, Copy)]
pub struct MapOf {
    pub options: Options,
}

impl Question for MapOf {
    type Answer = Result<Map, MapFault>;

    ghost answers = { λ asked known. IsReadMap (layout_with asked.options) known };

    ghost stops = { λ asked known. StopsRecords (layout_with asked.options) known };

    fn ask<R: Source>(
        &self,
        alloc: Global,
        hasher: RandomState,
        records: &mut R,
    ) -> Result<Result<Map, MapFault>, Stop> {
        match read_map_with(alloc, hasher, records, self.options) {
            Ok(map) => Ok(Ok(map)),
            Err(stop) => Ok(Err(fault_of_records(stop)?)),
        }
    }
}

/// The chains that the records of these files draw, or a fault of the chains.
pub fn show<F: FileSystem>(
    files: &mut F,
    alloc: Global,
    hasher: RandomState,
    options: Options,
    names: &[String],
) -> Result<Answer, Stop>
    ensures { Does (world F.under F.log F.knows files.old files.new) (map string_bytes names.now) None
        (IsSaid (ShowAnswers (layout_with options) (text_under (F.under files.old) (map string_bytes names.now))))
        (StopsRecords (layout_with options) (text_under (F.under files.old) (map string_bytes names.now))) result }
{
    over_records(files, alloc, hasher, names, &ChainsOf { options })
}

/// The landmarks of the map of the records of these files, or their fault.
pub fn landmarks<F: FileSystem>(
    files: &mut F,
    alloc: Global,
    hasher: RandomState,
    options: Options,
    names: &[String],
) -> Result<Answer, Stop>
    ensures { Does (world F.under F.log F.knows files.old files.new) (map string_bytes names.now) None
        (IsSaid (LandmarksAnswers (layout_with options) (text_under (F.under files.old) (map string_bytes names.now))))
        (StopsRecords (layout_with options) (text_under (F.under files.old) (map string_bytes names.now))) result }
{
    match over_records(files, alloc, hasher, names, &MapOf { options })? {
        Ok(map) => Ok(Answer::Landmarks(map)),
        Err(fault) => Ok(Answer::fault(fault)),
    }
}

/// Where a point lies in the map of the records of these files, or their fault.
pub fn locate<F: FileSystem>(
    files: &mut F,
    alloc: Global,
    hasher: RandomState,
    options: Options,
    names: &[String],
    point: Point,
) -> Result<Answer, Stop>
    ensures { Does (world F.under F.log F.knows files.old files.new) (map string_bytes names.now) None
        (IsSaid (LocateAnswers (layout_with options) point (text_under (F.under files.old) (map string_bytes names.now))))
        (StopsRecords (layout_with options) (text_under (F.under files.old) (map string_bytes names.now))) result }
{
    match over_records(files, alloc, hasher, names, &MapOf { options })? {
        Ok(map) => {
            let place = locate_in(alloc, &map, &PlainList::new(map.segments()), point)?;
            let text = with_printed(
                alloc,
                &[],
                &PlaceText {
                    map: &map,
                    place: &place,
                },
            )?;
            Ok(Answer::Lines { status: DONE, text })
        }
        Err(fault) => Ok(Answer::fault(fault)),
    }
}
