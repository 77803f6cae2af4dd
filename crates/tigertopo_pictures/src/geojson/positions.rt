//! Positions: longitude and latitude in degrees.

ghost use Rattle.std.specs.Prelude.{◌≡◌, ◌+◌, ◌<◌, length};
ghost use Rattle.tigertopo_pictures.specs.Geojson.Positions.{sign_text, six_digits, degrees_text, position_text, positions_text};

use crate::rings::{Pen, print_line};
use tl_cert_output::Page;
use tl_geom::Point;

/// The pen of GeoJSON, which writes positions with a comma between two.
#[derive(Clone, Copy)]
pub struct Positions;

impl Pen for Positions {
    ghost use Rattle.tigertopo_pictures.specs.Geojson.Positions.{positions_pen};

    ghost pen = { λ positions. positions_pen };

    fn start<P: Page>(&self, at: Point, page: &mut P) {
        print_position(at, page);
    }

    fn step<P: Page>(&self, _from: Point, to: Point, page: &mut P) {
        page.add(b",");
        print_position(to, page);
    }
}

/// Prints positions with a comma between two.
pub fn print_positions<P: Page>(points: &[Point], page: &mut P)
    requires { 0 < length points.now }
    ensures { P.adds page.old page.new (positions_text points.now) }
{
    print_position(points[0], page);
    print_line(&Positions, points, true, page);
}

/// Prints a position.
pub fn print_position<P: Page>(point: Point, page: &mut P)
    ensures { P.adds page.old page.new (position_text point) }
{
    page.add(b"[");
    print_degrees(point.x, page);
    page.add(b",");
    print_degrees(point.y, page);
    page.add(b"]");
}

// Prints a number of millionths of a degree in degrees.
fn print_degrees<P: Page>(millionths: i32, page: &mut P)
    ensures { P.adds page.old page.new (degrees_text millionths) }
{
    let size = millionths.unsigned_abs();
    page.add(sign(millionths < 0));
    page.number(size / 1_000_000);
    page.add(b".");
    page.add(&places(size % 1_000_000));
}

/// The sign of a number that is below 0 or isn't.
pub fn sign<'a>(is_below: bool) -> &'a [u8]
    ensures { result.now ≡ sign_text is_below }
{
    if is_below { b"-" } else { b"" }
}

// The six digits of a number below a million.
fn places(number: u32) -> [u8; 6]
    requires { number < 1000000 }
    ensures { result ≡ six_digits number }
{
    [
        digit(number / 100_000),
        digit(number / 10_000 % 10),
        digit(number / 1000 % 10),
        digit(number / 100 % 10),
        digit(number / 10 % 10),
        digit(number % 10),
    ]
}

// A digit.
fn digit(number: u32) -> u8
    requires { number < 10 }
    ensures { result ≡ 48 + number }
{
    b'0' + number as u8
}
