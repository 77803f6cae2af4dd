//! Places in decimal degrees.

ghost use Rattle.std.specs.Prelude.{◌≡◌, ◌<◌, ◌≤◌, ◌*◌, ◌-◌, ◌^◌, true, unsigned_abs};
ghost use Rattle.tigertopo_faults.specs.Places.Degrees.{degrees_text, digits_below, is_in_reach, reach, nearest, sign_of};
ghost use Rattle.tigertopo_faults.specs.Places.Degrees.{is_whole, decimals_of, location_text};

use tl_cert_output::Page;
use tl_geom::Rational;

// How great a number of a place may be.
const REACH: u128 = 1 << 100;

/// Whether a place can be printed: its numbers are below 2^100, as those of each crossing of two segments are.
pub fn is_in_reach(at: &Rational) -> bool
    ensures { result ≡ is_in_reach at.now }
{
    at.x.unsigned_abs() < REACH && at.y.unsigned_abs() < REACH && at.d.unsigned_abs() < REACH
}

/// Prints a coordinate, of `x / d` millionths of a degree, in decimal degrees with so many places, from 6 to 12. It is
/// rounded to the nearest, half away from zero.
pub fn print_degrees<P: Page>(x: i128, d: i128, places: u32, page: &mut P)
    requires from_six { 6 ≤ places }
    requires to_twelve { places ≤ 12 }
    requires numerator { unsigned_abs x < reach }
    requires denominator { unsigned_abs d < reach }
    requires above_zero { 0 < unsigned_abs d }
    ensures { P.adds page.old page.new (degrees_text places x d) }
{
    let units = units_of(distance(x), distance(d), places);
    print_sign(x, units, page);
    page.number(units / power(places));
    page.add(b".");
    print_digits(units, places, page);
}

/// Prints a place in decimal degrees, the longitude, a comma and the latitude: with six decimals where it lies at whole millionths
/// of a degree, so that it is exact and `@` in front makes a word of it that spells the point, and else with ten, rounded as a
/// coordinate is.
pub fn print_location<P: Page>(at: Rational, page: &mut P)
    requires { is_in_reach at ≡ true }
    ensures { P.adds page.old page.new (location_text at) }
{
    let decimals = decimals_of(&at);
    print_degrees(at.x, at.d, decimals, page);
    page.add(b",");
    print_degrees(at.y, at.d, decimals, page);
}

// With how many decimals a place is printed.
fn decimals_of(at: &Rational) -> u32
    ensures decimals { result ≡ decimals_of at.now }
    ensures from_six { 6 ≤ result }
    ensures to_twelve { result ≤ 12 }
{
    if is_whole(at) { 6 } else { 10 }
}

// Whether a place lies at whole millionths of a degree.
fn is_whole(at: &Rational) -> bool
    ensures { result ≡ is_whole at.now }
{
    let d = distance(at.d);
    distance(at.x) % d == 0 && distance(at.y) % d == 0
}

// How far a number is from 0.
fn distance(number: i128) -> u128
    ensures { result ≡ unsigned_abs number }
{
    number.unsigned_abs()
}

// Prints the sign of a coordinate of so many units.
fn print_sign<P: Page>(x: i128, units: u128, page: &mut P)
    ensures { P.adds page.old page.new (sign_of x units) }
{
    if x < 0 && units > 0 {
        page.add(b"-");
    }
}

// How far from 0 it is, in units of that many places of a degree.
fn units_of(x: u128, d: u128, places: u32) -> u128
    requires from_six { 6 ≤ places }
    requires to_twelve { places ≤ 12 }
    requires numerator { x < reach }
    requires denominator { d < reach }
    requires above_zero { 0 < d }
    ensures { result ≡ nearest (x * 10 ^ (places - 6)) d }
{
    (2 * (x * power(places - 6)) + d) / (2 * d)
}

// A power of ten.
fn power(exponent: u32) -> u128
    requires { exponent ≤ 12 }
    ensures power { result ≡ 10 ^ exponent }
    ensures bound { result ≤ 10 ^ 12 }
    ensures small { exponent ≤ 6 → result ≤ 10 ^ 6 }
    ensures some { 0 < result }
{
    let mut power: u128 = 1;
    for _ in 0..exponent {
        power *= 10;
    }
    power
}

// Prints so many digits of a number, the last of them.
fn print_digits<P: Page>(number: u128, places: u32, page: &mut P)
    requires { places ≤ 12 }
    ensures { P.adds page.old page.new (digits_below places number) }
{
    for done in 0..places {
        let digit = number / power(places - 1 - done) % 10;
        page.add(&[b'0' + digit as u8]);
    }
}
