//! Places and steps on their way out.

ghost use Rattle.std.specs.Prelude.{◌≡◌, ◌++◌, ◌-ℤ◌, codes};
ghost use Rattle.tigertopo_pictures.specs.Svg.Texts.{dot_text, move_text, start_text, stroke_text};

use crate::svg::frame::{Frame, Spot};
use crate::svg::walk::Stroke;
use itoa::Integer;
use tl_cert_output::Page;
use tl_geom::Point;

/// Prints two numbers behind a word, with a blank between them.
pub fn print_pair<I: Integer, P: Page>(word: &[u8], x: I, y: I, page: &mut P)
    ensures { P.adds page.old page.new
        (word.now ++ I.text x ++ codes " " ++ I.text y) }
{
    page.add(word);
    page.number(x);
    page.add(b" ");
    page.number(y);
}

/// Prints the command that goes to a place.
pub fn print_move<P: Page>(spot: Spot, page: &mut P)
    ensures { P.adds page.old page.new (move_text spot) }
{
    print_pair(b"M", spot.x, spot.y, page);
}

/// Prints a stroke: behind its start how far it goes.
#[inline]
pub fn print_stroke<P: Page>(stroke: Stroke, page: &mut P)
    ensures { P.adds page.old page.new (stroke_text stroke) }
{
    print_start(stroke, page);
    let (from, to) = (stroke.from, stroke.to);
    match (to.x.checked_sub(from.x), to.y.checked_sub(from.y)) {
        (Some(east), Some(south)) => print_pair(b"l", east, south, page),
        _ => print_pair(b"l", step(from.x, to.x), step(from.y, to.y), page),
    }
}

// Prints where a stroke starts, if it begins anew.
fn print_start<P: Page>(stroke: Stroke, page: &mut P)
    ensures { P.adds page.old page.new (start_text stroke) }
{
    if stroke.begins {
        print_move(stroke.from, page);
    }
}

// How far it is from one number to another.
fn step(from: i64, to: i64) -> i128
    ensures { result ≡ to -ℤ from }
{
    i128::from(to) - i128::from(from)
}

/// Prints the dot at a point, where it lies in the picture.
pub fn print_dot<P: Page>(frame: Frame, p: Point, page: &mut P)
    ensures { P.adds page.old page.new (dot_text frame p) }
{
    if frame.has_inside(p) {
        print_move(frame.spot(p), page);
        page.add(b"h0");
    }
}
