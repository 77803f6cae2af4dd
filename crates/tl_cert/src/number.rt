//! The numbers of a line.

ghost use Rattle.std.specs.Prelude.{◌≡◌, ◌<◌, ◌≤◌, ◌^◌, ◌∷◌, [], ◌++◌, ℕ, ℤ, List, ◌↔◌, FitsSigned, decimal, length};
ghost use Rattle.std.specs.Prelude.{IsTrue, MatchOption, IfSome};
ghost use Rattle.std.specs.Int.{w32};
ghost use Rattle.std.specs.Fmt.{signed_decimal};
ghost use Rattle.tl_geom.specs.declared.rect.Rect.{Rect};
ghost use Rattle.tl_cert.specs.Certificates.{IsNumber, IsInRange};
ghost use Rattle.tl_cert.specs.Text.{number, coordinate_text, rectangle};
ghost use Rattle.tl_cert.specs.Keeping.Words.{MaySpell, StartsWord, IsSplit};

use crate::front::front_coordinate;
use tl_geom::Rect;

// The most digits that are read of a number: 4,294,967,295 has ten.
const MOST_DIGITS: usize = 10;

// How many numbers a `u32` holds.
const NUMBERS: u64 = 4_294_967_296;

// How far below 0 an `i32` goes.
const FARTHEST: u64 = 2_147_483_648;

/// Whether the bytes are as many as a number's digits may be, with no leading zero.
fn may_spell(bytes: &[u8]) -> bool
    ensures { IsTrue result ↔ MaySpell bytes.now }
{
    !bytes.is_empty() && bytes.len() <= MOST_DIGITS && (bytes[0] != b'0' || bytes.len() == 1)
}

/// The number below the limit that the bytes spell, where they are digits and nothing else, with no leading zero.
fn digits_of(bytes: &[u8], limit: u64) -> Option<u64>
    requires { limit ≤ 10 ^ 10 }
    ensures { MatchOption result ((n : ℕ) → n < limit → ¬ (bytes.now ≡ decimal n))
        (λ n. (bytes.now ≡ decimal n) × (n < limit)) }
{
    if !may_spell(bytes) {
        return None;
    }
    let mut value: u64 = 0;
    for index in 0..bytes.len() {
        let byte = bytes[index];
        if !byte.is_ascii_digit() {
            return None;
        }
        value = value * 10 + u64::from(byte - b'0');
    }
    if value >= limit {
        return None;
    }
    Some(value)
}

/// The number of 32 bits that the bytes spell.
pub fn number_of(bytes: &[u8]) -> Option<u32>
    ensures { MatchOption result ((n : ℕ) → IsNumber n → ¬ (bytes.now ≡ decimal n))
        (λ n. (bytes.now ≡ decimal n) × IsNumber n) }
{
    let Some(value) = digits_of(bytes, NUMBERS) else {
        return None;
    };
    Some(value as u32)
}

/// The signed number of 32 bits that the bytes spell.
fn coordinate_of(bytes: &[u8]) -> Option<i32>
    ensures { MatchOption result ((z : ℤ) → FitsSigned w32 z → ¬ (bytes.now ≡ signed_decimal z))
        (λ z. (bytes.now ≡ signed_decimal z) × FitsSigned w32 z) }
{
    if bytes.is_empty() || bytes[0] != b'-' {
        let Some(value) = digits_of(bytes, FARTHEST) else {
            return None;
        };
        return Some(value as i32);
    }
    let Some(value) = digits_of(&bytes[1..], FARTHEST + 1) else {
        return None;
    };
    if value == 0 {
        return None;
    }
    Some((-(value as i64)) as i32)
}

/// The bytes behind this first one.
pub fn behind(bytes: &[u8], first: u8) -> Option<&[u8]>
    ensures { MatchOption result ((others : List ℕ) → ¬ (bytes.now ≡ first ∷ others))
        (λ others. bytes.now ≡ first ∷ others.now) }
{
    if bytes.is_empty() || bytes[0] != first {
        return None;
    }
    Some(&bytes[1..])
}

/// The bytes behind this first one, where there is some byte.
#[inline(always)]
pub fn next_behind(bytes: &[u8], first: u8) -> Option<&[u8]>
    requires { 0 < length bytes.now }
    ensures { IfSome result (λ others. bytes.now ≡ first ∷ others.now) }
{
    if bytes[0] != first {
        return None;
    }
    Some(&bytes[1..])
}

/// The number of 32 bits that the bytes spell behind a space.
pub fn last_number(bytes: &[u8]) -> Option<u32>
    ensures { MatchOption result ((n : ℕ) → IsNumber n → ¬ (bytes.now ≡ number n))
        (λ n. (bytes.now ≡ number n) × IsNumber n) }
{
    let Some(word) = behind(bytes, b' ') else {
        return None;
    };
    number_of(word)
}

/// The first word behind a space, and the bytes behind it.
fn split_word(bytes: &[u8]) -> Option<(&[u8], &[u8])>
    ensures { MatchOption result ((others : List ℕ) → ¬ (bytes.now ≡ 32 ∷ others))
        (λ split. IsSplit bytes.now split.0.now split.1.now) }
{
    if bytes.is_empty() || bytes[0] != b' ' {
        return None;
    }
    let others = &bytes[1..];
    let mut end = 0;
    while end < others.len() && others[end] != b' ' {
        end += 1;
    }
    Some((&others[..end], &others[end..]))
}

/// The number of 32 bits that stands first behind a space, and the bytes behind it.
pub fn split_number(bytes: &[u8]) -> Option<(u32, &[u8])>
    ensures { MatchOption result
        ((n : ℕ) (others : List ℕ) → IsNumber n → StartsWord others → ¬ (bytes.now ≡ number n ++ others))
        (λ split. (bytes.now ≡ number split.0 ++ split.1.now) × StartsWord split.1.now × IsNumber split.0) }
{
    let Some((word, others)) = split_word(bytes) else {
        return None;
    };
    let Some(n) = number_of(word) else {
        return None;
    };
    Some((n, others))
}

/// Whether a word ends before these bytes.
fn ends_word(bytes: &[u8]) -> bool
    ensures { IsTrue result ↔ StartsWord bytes.now }
{
    bytes.is_empty() || bytes[0] == b' '
}

/// The signed number of eight or nine digits that stands first behind a space, up to the end of a word, and the bytes
/// behind it. None says nothing.
#[inline(always)]
fn long_coordinate(bytes: &[u8]) -> Option<(i32, &[u8])>
    ensures { IfSome result (λ split. (bytes.now ≡ coordinate_text split.0 ++ split.1.now) × StartsWord split.1.now
        × FitsSigned w32 split.0) }
{
    if bytes.len() < 11 {
        return None;
    }
    let Some((z, others)) = front_coordinate(bytes) else {
        return None;
    };
    if !ends_word(others) {
        return None;
    }
    Some((z, others))
}

/// The signed number of 32 bits that stands first behind a space, and the bytes behind it: its word is found first.
#[inline(never)]
fn word_coordinate(bytes: &[u8]) -> Option<(i32, &[u8])>
    ensures { MatchOption result
        ((z : ℤ) (others : List ℕ) → FitsSigned w32 z → StartsWord others → ¬ (bytes.now ≡ coordinate_text z ++ others))
        (λ split. (bytes.now ≡ coordinate_text split.0 ++ split.1.now) × StartsWord split.1.now × FitsSigned w32 split.0) }
{
    let Some((word, others)) = split_word(bytes) else {
        return None;
    };
    let Some(z) = coordinate_of(word) else {
        return None;
    };
    Some((z, others))
}

/// The signed number of 32 bits that stands first behind a space, and the bytes behind it.
#[inline(always)]
fn split_coordinate(bytes: &[u8]) -> Option<(i32, &[u8])>
    ensures { MatchOption result
        ((z : ℤ) (others : List ℕ) → FitsSigned w32 z → StartsWord others → ¬ (bytes.now ≡ coordinate_text z ++ others))
        (λ split. (bytes.now ≡ coordinate_text split.0 ++ split.1.now) × StartsWord split.1.now × FitsSigned w32 split.0) }
{
    // Most coordinates have eight or nine digits.
    if let Some(split) = long_coordinate(bytes) {
        return Some(split);
    }
    word_coordinate(bytes)
}

/// The rectangle of these coordinates.
pub fn rect_of(xmin: i32, ymin: i32, xmax: i32, ymax: i32) -> Rect
    ensures { result ≡ record { xmin = xmin; ymin = ymin; xmax = xmax; ymax = ymax } }
{
    Rect {
        xmin,
        ymin,
        xmax,
        ymax,
    }
}

/// The rectangle that stands first, and the bytes behind it.
pub fn split_rectangle(bytes: &[u8]) -> Option<(Rect, &[u8])>
    ensures { MatchOption result
        ((r : Rect) (others : List ℕ) → IsInRange r → StartsWord others → ¬ (bytes.now ≡ rectangle r ++ others))
        (λ split. (bytes.now ≡ rectangle split.0 ++ split.1.now) × StartsWord split.1.now × IsInRange split.0) }
{
    let Some((xmin, others)) = split_coordinate(bytes) else {
        return None;
    };
    let Some((ymin, others)) = split_coordinate(others) else {
        return None;
    };
    let Some((xmax, others)) = split_coordinate(others) else {
        return None;
    };
    let Some((ymax, others)) = split_coordinate(others) else {
        return None;
    };
    Some((rect_of(xmin, ymin, xmax, ymax), others))
}
