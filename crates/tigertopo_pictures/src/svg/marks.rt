//! What is marked in a picture: nodes, polygons' points and faults.

ghost use Rattle.std.specs.Prelude.{◌≡◌, ◌<◌, flat_map, length};
ghost use Rattle.tigertopo_pictures.specs.Svg.Frames.{spot_at};
ghost use Rattle.tigertopo_pictures.specs.Svg.Strokes.{strokes_left};
ghost use Rattle.tigertopo_pictures.specs.Svg.Pictures.{drawn};
ghost use Rattle.tigertopo_pictures.specs.Svg.Texts.{ends_text, polygon_text, circle_text, circle_at, fault_text, faults_part};

use crate::faults::FaultWords;
use crate::spelling::{Spelling, print_spelt};
use crate::svg::chains::walk_along;
use crate::svg::frame::Frame;
use crate::svg::pairs::print_dot;
use crate::svg::picture::Picture;
use crate::svg::places::{Mark, mark_if};
use crate::svg::text::{print_circle_head, print_closer, print_label_head};
use crate::svg::walk::Walk;
use tl_cert_output::Page;
use tl_check_verdict::{MapFault, row};
use tl_geom::{Point, Rational};
use tl_map_county::Map;

/// Prints the dots at the ends of the chains that are shown.
pub fn print_nodes<P: Page>(map: &Map, picture: Picture, page: &mut P)
    ensures { P.adds page.old page.new
        (flat_map (ends_text picture.frame) (drawn picture map.now)) }
{
    for number in 0..map.chains() {
        let points = map.chain(number).points;
        let mut walk = walk_along(picture.frame, points);
        print_ends(picture.frame, &mut walk, points, page);
    }
}

// Prints the dots at the ends of a chain, where something is drawn of it.
fn print_ends<P: Page>(frame: Frame, walk: &mut Walk<'_>, points: &[Point], page: &mut P)
    requires { 0 < length points.now }
    ensures { P.adds page.old page.new
        (ends_text frame (record { strokes = strokes_left walk.old; points = points.now })) }
{
    if walk.next().is_some() {
        print_dot(frame, points[0], page);
        print_dot(frame, points[points.len() - 1], page);
    }
}

/// Prints the dots at the polygons' points.
pub fn print_points<P: Page>(map: &Map, frame: Frame, page: &mut P)
    ensures { P.adds page.old page.new
        (flat_map (polygon_text frame) map.now.polygons) }
{
    for number in 0..map.polygons() {
        print_dot(frame, map.polygon(number).point, page);
    }
}

/// Prints the circles of the faults that lie in the picture, each at its place.
pub fn print_faults<P: Page>(
    frame: Frame,
    faults: &[MapFault],
    places: &[Option<Rational>],
    page: &mut P,
)
    requires { length places.now ≡ length faults.now }
    ensures { P.adds page.old page.new
        (faults_part frame faults.now places.now) }
{
    for number in 0..faults.len() {
        print_fault(frame, &faults[number], places[number], page);
    }
}

// Prints the circle of a fault that lies there, where that is in the picture.
fn print_fault<P: Page>(frame: Frame, fault: &MapFault, place: Option<Rational>, page: &mut P)
    ensures { P.adds page.old page.new
        (fault_text frame fault.now place) }
{
    match mark_if(frame, place) {
        Some(mark) => print_circle_at(frame, fault, mark, page),
        None => {}
    }
}

// Prints the circle of a fault at a place, where that lies in the picture.
fn print_circle_at<P: Page>(frame: Frame, fault: &MapFault, mark: Mark, page: &mut P)
    ensures { P.adds page.old page.new
        (circle_at frame fault.now mark) }
{
    if frame.holds(mark.at) {
        print_circle(frame, mark, fault, page);
    }
}

// Prints the circle of a fault at a place, with what is said of it and its code.
fn print_circle<P: Page>(frame: Frame, mark: Mark, fault: &MapFault, page: &mut P)
    ensures { P.adds page.old page.new
        (circle_text frame mark fault.now) }
{
    let spot = frame.spot_at(mark.at);
    print_circle_head(spot, page);
    print_spelt(&InMarkup, &FaultWords { fault }, page);
    print_closer(frame, mark.corner, page);
    print_label_head(frame, spot, page);
    page.add(row(fault).code.as_bytes());
    page.add(b"</text>\n");
}

// Bytes as they are spelt in the file.
#[derive(Clone, Copy)]
struct InMarkup;

impl Spelling for InMarkup {
    ghost use Rattle.tigertopo_pictures.specs.Svg.Texts.{escaped_byte};

    ghost spelt = { escaped_byte };

    fn print<P: Page>(&self, byte: u8, page: &mut P) {
        match byte {
            b'&' => page.add(b"&amp;"),
            b'<' => page.add(b"&lt;"),
            b'>' => page.add(b"&gt;"),
            _ => page.add(&[byte]),
        }
    }
}
