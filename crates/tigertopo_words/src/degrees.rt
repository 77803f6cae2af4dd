//! How a coordinate is spelt in degrees.

ghost use Rattle.std.specs.Prelude.{◌≡◌, ◌<◌, ◌≤◌, ◌-◌, ◌^◌, ℕ, ℤ, suc, pos, negsuc, MatchOption, unsigned_abs};
ghost use Rattle.tigertopo_words.specs.Points.{AreDecimals, AreDegrees, AreDegreesOf};

use crate::budget::number_of;

// How many decimals a number of degrees has at most.
const MOST_DECIMALS: usize = 6;

// How many millionths a degree has.
const DEGREE: u64 = 1_000_000;

/// The millionths of a degree that the text spells in degrees, if they are no farther from 0 than the limit.
pub fn degrees_of(text: &str, limit: u32) -> Option<i32>
    requires { limit < 2 ^ 31 }
    ensures { MatchOption result ((z : ℤ) → unsigned_abs z ≤ limit → ¬ AreDegrees text.now z)
        (λ z. AreDegrees text.now z × (unsigned_abs z ≤ limit)) }
{
    match text.strip_prefix('-') {
        Some(rest) => below_zero(rest, limit),
        None => from_zero(text, limit),
    }
}

// The coordinate below 0 that the text, which follows a minus, spells.
fn below_zero(rest: &str, limit: u32) -> Option<i32>
    requires { limit < 2 ^ 31 }
    ensures { MatchOption result ((n : ℕ) → suc n ≤ limit → ¬ AreDegreesOf rest.now (suc n))
        (λ z. (n : ℕ) × (z ≡ negsuc n) × AreDegreesOf rest.now (suc n) × (suc n ≤ limit)) }
{
    let distance = distance_of(rest, limit)?;
    if distance == 0 {
        return None;
    }
    Some(-(distance as i32))
}

// The coordinate that the text spells with no sign.
fn from_zero(text: &str, limit: u32) -> Option<i32>
    requires { limit < 2 ^ 31 }
    ensures { MatchOption result ((n : ℕ) → n ≤ limit → ¬ AreDegreesOf text.now n)
        (λ z. (n : ℕ) × (z ≡ pos n) × AreDegreesOf text.now n × (n ≤ limit)) }
{
    let distance = distance_of(text, limit)?;
    Some(distance as i32)
}

// The millionths that the text spells in degrees with no sign, if they are no more than the limit.
fn distance_of(text: &str, limit: u32) -> Option<u32>
    requires { limit < 2 ^ 31 }
    ensures { MatchOption result ((n : ℕ) → n ≤ limit → ¬ AreDegreesOf text.now n)
        (λ n. AreDegreesOf text.now n × (n ≤ limit) × ((m : ℕ) → m ≤ limit → AreDegreesOf text.now m → m ≡ n)) }
{
    let (before, behind) = text.split_once('.')?;
    let whole = number_of(before)?;
    let part = decimals_of(behind)?;
    if whole > u64::from(limit) {
        return None;
    }
    let distance = whole * DEGREE + u64::from(part);
    if distance > u64::from(limit) {
        return None;
    }
    Some(distance as u32)
}

// The millionths that the text, which follows a point, spells as decimals.
fn decimals_of(text: &str) -> Option<u32>
    ensures { MatchOption result ((n : ℕ) → ¬ AreDecimals text.now n) (λ n. AreDecimals text.now n × (n < 1000000)) }
{
    let bytes = text.as_bytes();
    // What is read as a number may have a plus.
    if bytes.is_empty() || bytes.len() > MOST_DECIMALS || bytes[0] == b'+' {
        return None;
    }
    match text.parse::<u32>() {
        Ok(number) => Some(number * scale_of(bytes.len())),
        Err(_) => None,
    }
}

// How many millionths the last of so many decimals counts.
fn scale_of(decimals: usize) -> u32
    requires { decimals ≤ 6 }
    ensures { result ≡ 10 ^ (6 - decimals) }
{
    10_u32.pow((MOST_DECIMALS - decimals) as u32)
}
