//! Where a fault lies, as it is printed.

ghost use Rattle.std.specs.Prelude.{◌≡◌, true, Some};
ghost use Rattle.std.specs.Fmt.{signed_decimal};
ghost use Rattle.tl_check_faces.specs.FaultTexts.{rational_text};
ghost use Rattle.tigertopo_faults.specs.Places.Degrees.{is_in_reach};
ghost use Rattle.tigertopo_faults.specs.Geojson.Places.{position_text, point_text, geometry_text, exact_text};

use crate::places::{is_in_reach, print_degrees};
use tl_cert_output::Page;
use tl_geom::Rational;

// How many decimal places of a degree are printed.
const PLACES: u32 = 12;

/// Prints the point where a fault lies, or null where it has no place or one that can't be printed.
pub fn print_geometry<P: Page>(at: Option<Rational>, page: &mut P)
    ensures { P.adds page.old page.new (geometry_text at) }
{
    if let Some(at) = at {
        return print_place(at, page);
    }
    page.add(b"null");
}

// Prints the point of a place that can be printed, or null.
fn print_place<P: Page>(at: Rational, page: &mut P)
    ensures { P.adds page.old page.new (geometry_text (Some at)) }
{
    if is_in_reach(&at) {
        print_point(at, page);
    } else {
        page.add(b"null");
    }
}

// Prints a point at a place.
fn print_point<P: Page>(at: Rational, page: &mut P)
    requires { is_in_reach at ≡ true }
    ensures { P.adds page.old page.new (point_text at) }
{
    page.add(b"{\"type\":\"Point\",\"coordinates\":");
    print_position(at, page);
    page.add(b"}");
}

/// Prints a position: the longitude, then the latitude, in degrees.
pub fn print_position<P: Page>(at: Rational, page: &mut P)
    requires { is_in_reach at ≡ true }
    ensures { P.adds page.old page.new (position_text at) }
{
    page.add(b"[");
    print_degrees(at.x, at.d, PLACES, page);
    page.add(b",");
    print_degrees(at.y, at.d, PLACES, page);
    page.add(b"]");
}

/// Prints where a fault lies exactly, in millionths of a degree, or null where it has no place.
pub fn print_exact<P: Page>(at: Option<Rational>, page: &mut P)
    ensures { P.adds page.old page.new (exact_text at) }
{
    match at {
        Some(at) => {
            page.add(b"\"");
            print_rational(at, page);
            page.add(b"\"");
        }
        None => page.add(b"null"),
    }
}

// Prints two numerators and their denominator.
fn print_rational<P: Page>(at: Rational, page: &mut P)
    ensures { P.adds page.old page.new (rational_text at) }
{
    print_signed(at.x, page);
    page.add(b" ");
    print_signed(at.y, page);
    page.add(b" ");
    print_signed(at.d, page);
}

/// Prints a number.
pub fn print_signed<P: Page>(number: i128, page: &mut P)
    ensures { P.adds page.old page.new (signed_decimal number) }
{
    page.number(number);
}
