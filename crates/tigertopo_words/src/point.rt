//! How a point is spelt as a word.

ghost use Rattle.std.specs.Prelude.{◌≡◌, ◌≢◌, ◌<◌, ◌≤◌, ◌^◌, ℕ, ℤ, MatchOption, option_map, unsigned_abs};
ghost use Rattle.std.specs.Fmt.{signed_decimal};
ghost use Rattle.tl_geom.specs.declared.point.Point.{Point};
ghost use Rattle.tigertopo_words.specs.Arguments.{IsPlace};
ghost use Rattle.tigertopo_words.specs.Points.{AreDegrees, AreMillionths, Spells, SpellsBy};

use crate::degrees::degrees_of;
use itoa::Buffer;
use tl_geom::Point;
use tl_record::{MAX_LATITUDE, MAX_LONGITUDE};

/// The point that was given, where a word was and spells one.
pub fn place_of(given: Option<&str>) -> Option<Point>
    ensures { let place = option_map (λ text. text.now) given.entry in
        MatchOption result ((p : Point) → ¬ IsPlace place p) (IsPlace place) }
{
    match given {
        Some(word) => point_of(word),
        None => None,
    }
}

/// The point that the word spells: `@`, its longitude, a comma and its latitude. Both are whole numbers of millionths of a
/// degree, or both are degrees with a point and from one to six decimals; each has no plus, no leading zero and no minus
/// before 0. A word that spells none, or one past the limits of records, has no point.
pub fn point_of(word: &str) -> Option<Point>
    ensures { MatchOption result ((p : Point) → ¬ Spells word.now p) (Spells word.now) }
{
    match point_in_millionths(word) {
        Some(point) => Some(point),
        None => point_in_degrees(word),
    }
}

// The point that the word spells in millionths of a degree.
fn point_in_millionths(word: &str) -> Option<Point>
    ensures { MatchOption result ((p : Point) → ¬ SpellsBy AreMillionths word.now p) (SpellsBy AreMillionths word.now) }
{
    let (longitude, latitude) = word.strip_prefix('@')?.split_once(',')?;
    let x = millionths_of(longitude, MAX_LONGITUDE)?;
    let y = millionths_of(latitude, MAX_LATITUDE)?;
    Some(Point { x, y })
}

// The point that the word spells in degrees.
fn point_in_degrees(word: &str) -> Option<Point>
    ensures { MatchOption result ((p : Point) → ¬ SpellsBy AreDegrees word.now p) (SpellsBy AreDegrees word.now) }
{
    let (longitude, latitude) = word.strip_prefix('@')?.split_once(',')?;
    let x = degrees_of(longitude, MAX_LONGITUDE)?;
    let y = degrees_of(latitude, MAX_LATITUDE)?;
    Some(Point { x, y })
}

// The number that the text spells, if it is no farther from 0 than the limit.
fn millionths_of(text: &str, limit: u32) -> Option<i32>
    requires { limit < 2 ^ 31 }
    ensures { MatchOption result ((z : ℤ) → unsigned_abs z ≤ limit → ¬ AreMillionths text.now z)
        (λ z. AreMillionths text.now z × (unsigned_abs z ≤ limit)) }
{
    let Ok(number) = text.parse::<i32>() else {
        return None;
    };
    let mut digits = Buffer::new();
    // Other spellings of the number, as with a plus or with leading zeros, aren't what is printed.
    if digits.format(number) != text || number.unsigned_abs() > limit {
        return None;
    }
    Some(number)
}
