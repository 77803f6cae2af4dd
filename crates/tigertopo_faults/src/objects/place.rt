//! Where a fault lies, exactly and in degrees.

ghost use Rattle.std.specs.Prelude.{◌≡◌};
ghost use Rattle.tigertopo_faults.specs.Objects.Places.{degrees_text, fraction_text, fractions_text, place_text};

use crate::geojson::{print_position, print_signed};
use crate::places::is_in_reach;
use tl_cert_output::Page;
use tl_geom::Rational;

/// Prints where a fault lies, or null where it has no place.
pub fn print_place<P: Page>(at: Option<Rational>, page: &mut P)
    ensures { P.adds page.old page.new (place_text at) }
{
    match at {
        Some(at) => {
            page.add(b"{\"exact\":");
            print_fractions(at, page);
            page.add(b",\"degrees\":");
            print_degrees(at, page);
            page.add(b"}");
        }
        None => page.add(b"null"),
    }
}

// Prints a place in degrees, or null where it can't be printed.
fn print_degrees<P: Page>(at: Rational, page: &mut P)
    ensures { P.adds page.old page.new (degrees_text at) }
{
    if is_in_reach(&at) {
        print_position(at, page);
    } else {
        page.add(b"null");
    }
}

/// Prints a place exactly, in millionths of a degree.
pub fn print_fractions<P: Page>(at: Rational, page: &mut P)
    ensures { P.adds page.old page.new (fractions_text at) }
{
    page.add(b"[");
    print_fraction(at.x, at.d, page);
    page.add(b",");
    print_fraction(at.y, at.d, page);
    page.add(b"]");
}

// Prints a fraction.
fn print_fraction<P: Page>(x: i128, d: i128, page: &mut P)
    ensures { P.adds page.old page.new (fraction_text x d) }
{
    page.add(b"\"");
    print_signed(x, page);
    page.add(b"/");
    print_signed(d, page);
    page.add(b"\"");
}
