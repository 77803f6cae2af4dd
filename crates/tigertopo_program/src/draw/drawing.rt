//! Pictures that are made over files: each takes its name when it is whole.

ghost use Rattle.std.specs.Prelude.{◌≡◌, [], Some, IfErr, IfOk, IfSome, MatchOption, length, map, map as map_list, option_map, string_bytes};
ghost use Rattle.tl_build.specs.Auditing.{IsMemoryStop};
ghost use Rattle.tl_check_sides.specs.Walks.{AreWalks};
ghost use Rattle.tl_check_verdict.specs.Sound.{IsSound};
ghost use Rattle.tl_record.specs.Layout.{layout_with};
ghost use Rattle.tigertopo_files.specs.Files.{IsFree};
ghost use Rattle.tigertopo_files.specs.World.{Does, world};
ghost use Rattle.tigertopo_files.specs.declared.beginning.FileKind.TheVariants.{Picture as PictureKind};
ghost use Rattle.tigertopo_program.specs.Answers.{IsSaid};
ghost use Rattle.tigertopo_files.specs.Reading.{text_under};
ghost use Rattle.tigertopo_program.specs.Records.{StopsNever, StopsRecords};
ghost use Rattle.tigertopo_pictures.specs.Svg.Fills.{AreFillsOf};
ghost use Rattle.tigertopo_pictures.specs.Svg.Whole.{picture_text};
ghost use Rattle.tigertopo_program.specs.Draw.Subjects.{IsKnownOf};
ghost use Rattle.tigertopo_program.specs.Draw.Drawing.{DrawAnswers, IsDrawnOf, IsFilled, drawn_of, picture_by, places_of};

use crate::answer::{Answer, Drawn};
use crate::draw::subject::{Subject, SubjectOf};
use crate::making::answer_with_file;
use crate::reading::over_records;
use std::alloc::{AllocError, Global};
use std::hash::RandomState;
use tigertopo_faults::lines::fault_places;
use tigertopo_files::{FileKind, FileSystem};
use tigertopo_pictures::svg::{
    Fills, Frame, Picture, chain_count, fault_count, picture_of, print_picture,
};
use tigertopo_words::View;
use tl_build::{find_walks, planar_walks};
use tl_cert_output::{Page, Stop, Text};
use tl_check_verdict::MapFault;
use tl_geom::Rational;
use tl_map_county::Map;
use tl_record::Options;

// A picture of a map with faults, which lie at these places, and its polygons filled where it is sound, as a text.
#[derive(Clone, Copy)]
struct PictureText<'a> {
    map: &'a Map,
    picture: Picture,
    fills: Option<&'a Fills>,
    faults: &'a [MapFault],
    places: &'a [Option<Rational>],
}

impl Text for PictureText<'_> {
    ghost text = { λ text. picture_text text.map.now text.picture (option_map (λ f. f.now.filling) text.fills) text.faults.now text.places.now };

    ghost is_ready = { λ text. (length text.places.now ≡ length text.faults.now) × IfSome text.fills (λ f. AreFillsOf text.map.now f.now) };

    fn add_to<P: Page>(&self, _alloc: Global, page: &mut P) -> Result<(), AllocError> {
        print_picture(
            self.map,
            self.picture,
            self.fills,
            self.faults,
            self.places,
            page,
        );
        Ok(())
    }
}

/// Draws the map of the records of these files, about the place that is given or else fitted to the map and to the faults that are shown,
/// its polygons filled where it is sound, and its faults where they are to be shown, into a new file of the name `made`, which it may take,
/// and answers how much the picture shows. The file takes its name when it is whole.
pub fn draw<F: FileSystem>(
    files: &mut F,
    alloc: Global,
    hasher: RandomState,
    options: Options,
    names: &[String],
    made: &String,
    view: Option<View>,
    shows_faults: bool,
) -> Result<Answer, Stop>
    requires { IsFree (F.under files.old) (string_bytes made.now) (map string_bytes names.now) PictureKind }
    ensures { let w = world F.under F.log F.knows files.old files.new in
        let known = text_under (F.under files.old) (map string_bytes names.now) in
        Does w (map string_bytes names.now) (Some (string_bytes made.now))
        (IsSaid (DrawAnswers w options known (record { name = string_bytes made.now; view = view; shows = shows_faults })))
        (StopsRecords (layout_with options) known) result }
{
    let asked = SubjectOf {
        options,
        shows_faults,
    };
    match over_records(files, alloc, hasher, names, &asked)? {
        Ok(subject) => draw_subject(
            files,
            alloc,
            hasher,
            names,
            made,
            view,
            shows_faults,
            &subject,
        ),
        Err(fault) => Ok(Answer::fault(fault)),
    }
}

// Draws a map with its faults into a new file.
fn draw_subject<F: FileSystem>(
    files: &mut F,
    alloc: Global,
    hasher: RandomState,
    names: &[String],
    made: &String,
    view: Option<View>,
    shows_faults: bool,
    subject: &Subject,
) -> Result<Answer, Stop>
    requires free { IsFree (F.under files.old) (string_bytes made.now) (map string_bytes names.now) PictureKind }
    requires known { IsKnownOf subject.now.map subject.now.is_sound }
    ensures { let w = world F.under F.log F.knows files.old files.new in
        Does w [] (Some (string_bytes made.now))
        (IsDrawnOf w (record { name = string_bytes made.now; view = view; shows = shows_faults }) subject.now) StopsNever result }
{
    let fills = fills_of(alloc, &subject.map, subject.is_sound)?;
    let places = fault_places(alloc, hasher, Some(&subject.map), subject.faults.as_slice())?;
    let picture = picture_by(view, subject, places.as_slice());
    let text = PictureText {
        map: &subject.map,
        picture,
        fills: fills.as_ref(),
        faults: subject.faults.as_slice(),
        places: places.as_slice(),
    };
    let drawn = drawn_of(picture, places.as_slice(), shows_faults, subject);
    answer_with_file(
        files,
        alloc,
        made,
        names,
        FileKind::Picture,
        &text,
        Answer::Drawn(drawn),
    )
}

// What the polygons of a map are filled by, if it is sound, as may be known.
fn fills_of(alloc: Global, map: &Map, is_sound: Option<bool>) -> Result<Option<Fills>, Stop>
    requires { IsKnownOf map.now is_sound }
    ensures filled { IfOk result (λ found. IsFilled map.now (option_map (λ f. f.filling) found)) }
    ensures fills { IfOk result (λ found. IfSome found (AreFillsOf map.now)) }
    ensures stops { IfErr result IsMemoryStop }
{
    match walks_of(alloc, map, is_sound)? {
        Some(walks) => match Fills::new(alloc, map, walks) {
            Ok(fills) => Ok(Some(fills)),
            Err(_) => Err(Stop::Memory),
        },
        None => Ok(None),
    }
}

// The walks of a map, if it is sound. Where that is known, the map isn't decided once more.
fn walks_of(alloc: Global, map: &Map, is_sound: Option<bool>) -> Result<Option<Vec<Vec<u32>>>, Stop>
    requires { IsKnownOf map.now is_sound }
    ensures sound { IfOk result (λ found. MatchOption found (¬ IsSound map.now) (λ walks. IsSound map.now)) }
    ensures walks { IfOk result (λ found. IfSome found (λ walks. AreWalks map.now.chains (map_list (λ w. w.items) walks.items))) }
    ensures stops { IfErr result IsMemoryStop }
{
    match is_sound {
        Some(true) => Ok(Some(planar_walks(alloc, map)?)),
        Some(false) => Ok(None),
        None => find_walks(alloc, map),
    }
}

// How a map is drawn: about a place, or fitted to it and to where its faults lie.
fn picture_by(view: Option<View>, subject: &Subject, places: &[Option<Rational>]) -> Picture
    requires { places.now ≡ places_of subject.now.map subject.now.faults.items }
    ensures { result ≡ picture_by view subject.now.map subject.now.faults.items }
{
    let frame = match view {
        Some(view) => Frame::at(view.center, view.width),
        None => Frame::fitted(&subject.map, places),
    };
    picture_of(frame, &subject.map)
}

// How much a picture shows of a map whose faults lie at these places.
fn drawn_of(
    picture: Picture,
    places: &[Option<Rational>],
    shows_faults: bool,
    subject: &Subject,
) -> Drawn
    requires { places.now ≡ places_of subject.now.map subject.now.faults.items }
    ensures { result ≡ drawn_of picture shows_faults subject.now }
{
    let chains = chain_count(picture, &subject.map);
    let faults = if shows_faults {
        Some(fault_count(picture.frame, places))
    } else {
        None
    };
    Drawn {
        chains,
        faults,
        touched: subject.touched,
    }
}
