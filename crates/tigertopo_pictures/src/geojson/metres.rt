//! Areas in square metres.

ghost use Rattle.std.specs.Prelude.{◌≡◌, ◌*◌, ◌+◌, ◌/◌, ◌<◌, ◌≤◌, ◌^◌, unsigned_abs};
ghost use Rattle.tigertopo_pictures.specs.Geojson.Metres.{part_of, squared, cosine, north, east, square_degree, distance, metres, has_sign, metres_text};

use crate::geojson::positions::sign;
use tl_cert_output::Page;
use tl_geom::Point;

// Of how many parts shares are.
const UNIT: u64 = 1_000_000_000;

// So many square millionths of a degree, by ten-thousandths of a square metre, make two square metres.
const TWO: u128 = 20_000_000_000_000_000;

/// Prints an area in square metres, as a whole number, of which this is twice the size in square millionths of a degree, about this point.
pub fn print_metres<P: Page>(doubled: i128, about: Point, page: &mut P)
    requires { unsigned_abs doubled < 2 ^ 127 }
    ensures { P.adds page.old page.new (metres_text doubled about.y) }
{
    let whole = metres(doubled.unsigned_abs(), about);
    page.add(sign(has_sign(doubled, whole)));
    page.number(whole);
}

// Whether an area is told with a sign: it is below 0, and isn't told as 0.
fn has_sign(doubled: i128, whole: u128) -> bool
    ensures { result ≡ has_sign doubled whole }
{
    doubled < 0 && whole != 0
}

// An area in square metres, rounded.
fn metres(size: u128, about: Point) -> u128
    requires { size < 2 ^ 127 }
    ensures { result ≡ metres size about.y }
{
    rounded(size, square_degree(cosine(squared(distance(about)))))
}

// How far a point is from the equator.
fn distance(about: Point) -> u64
    ensures value { result ≡ distance about.y }
    ensures bound { result ≤ 90000000 }
{
    u64::from(about.y.unsigned_abs()).min(90_000_000)
}

// The square of that, where the pole is at 1.
fn squared(distance: u64) -> u64
    requires { distance ≤ 90000000 }
    ensures value { result ≡ squared distance }
    ensures bound { result ≤ 1000000000 }
{
    distance * distance / 8_100_000
}

// So many thousand-millionths of a number.
fn part_of(u: u64, n: u64) -> u64
    requires share { u ≤ 1000000000 }
    requires few { n ≤ 2 ^ 33 }
    ensures value { result ≡ part_of u n }
    ensures bound { result ≤ n }
{
    u * n / UNIT
}

// The cosine of a latitude whose square this is.
fn cosine(u: u64) -> u64
    requires { u ≤ 1000000000 }
    ensures value { result ≡ cosine u }
    ensures bound { result ≤ 1000000000 }
{
    let eighth = part_of(u, 919_260);
    let sixth = part_of(u, 20_863_481 - eighth);
    let fourth = part_of(u, 253_669_507 - sixth);
    let second = part_of(u, 1_233_700_550 - fourth);
    UNIT.saturating_sub(second)
}

// A degree to the north, in hundredths of a metre.
fn north(squared: u64) -> u64
    requires { squared ≤ 1000000000 }
    ensures value { result ≡ north squared }
    ensures bound { result ≤ 11169278 }
{
    11_169_278 - part_of(squared, 111_964)
}

// One to the east, without the cosine.
fn east(squared: u64) -> u64
    requires { squared ≤ 1000000000 }
    ensures value { result ≡ east squared }
    ensures bound { result ≤ 11169334 }
{
    11_169_334 - part_of(squared, 37_400)
}

// A square degree, in ten-thousandths of a square metre.
fn square_degree(cosine: u64) -> u128
    requires { cosine ≤ 1000000000 }
    ensures value { result ≡ square_degree cosine }
    ensures bound { result ≤ 2 ^ 47 }
{
    let squared = part_of(cosine, cosine);
    share(cosine, product(north(squared), east(squared)))
}

// The sides of a square degree, multiplied.
fn product(north: u64, east: u64) -> u128
    requires first { north ≤ 11169278 }
    requires second { east ≤ 11169334 }
    ensures value { result ≡ north * east }
    ensures bound { result ≤ 2 ^ 47 }
{
    u128::from(north) * u128::from(east)
}

// So many thousand-millionths of a greater number.
fn share(u: u64, n: u128) -> u128
    requires share { u ≤ 1000000000 }
    requires few { n ≤ 2 ^ 47 }
    ensures value { result ≡ part_of u n }
    ensures bound { result ≤ n }
{
    u128::from(u) * n / u128::from(UNIT)
}

// Half of a size by what a square degree has, rounded. Whole parts are taken apart, since all of it may have no room.
fn rounded(size: u128, degree: u128) -> u128
    requires size { size < 2 ^ 127 }
    requires degree { degree ≤ 2 ^ 47 }
    ensures { result ≡ (size * degree + 10000000000000000) / 20000000000000000 }
{
    size / TWO * degree + (size % TWO * degree + TWO / 2) / TWO
}
