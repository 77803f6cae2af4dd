//! What stands first among the bytes that were fetched, where it is seen at once.

ghost use Rattle.std.specs.Prelude.{◌≡◌, ◌+◌, ◌<◌, ◌≤◌, ◌^◌, ◌∷◌, [], ◌++◌, FitsSigned, decimal, length, IfSome};
ghost use Rattle.std.specs.Int.{w32};
ghost use Rattle.tl_cert.specs.Certificates.{IsNumber, IsInRange};
ghost use Rattle.tl_cert.specs.Text.{number, numbered_line, coordinate_text, rectangle};
ghost use Rattle.tl_cert.specs.Keeping.Words.{StandsFirst, AreDigits, AreFew};

use crate::number::{behind, next_behind, rect_of};
use tl_geom::Rect;
use tl_record::{eight_digits, first_digits, leading_digits};

/// The number of fewer than eight digits, and not 0, that stand first, with a line feed behind them, and how many they are.
/// None says nothing.
#[inline(never)]
fn short_number(bytes: &[u8]) -> Option<(u32, usize)>
    ensures first { IfSome result (λ first. IsNumber first.0 × StandsFirst bytes.now (decimal first.0) first.1) }
    ensures few { IfSome result (λ first. AreFew first.1) }
{
    if bytes.len() < 8 {
        return None;
    }
    let Ok(eight) = <[u8; 8]>::try_from(&bytes[..8]) else {
        return None;
    };
    let Some((value, len)) = leading_digits(eight) else {
        return None;
    };
    if bytes[len] != b'\n' {
        return None;
    }
    if bytes[0] == b'0' {
        return None;
    }
    Some((value as u32, len))
}

/// The number of so many digits, and not 0, that stand first, with a line feed behind them. None says nothing.
#[inline(always)]
fn number_of_digits(bytes: &[u8], digits: usize) -> Option<u32>
    requires { AreFew digits }
    ensures { IfSome result (λ n. IsNumber n × StandsFirst bytes.now (decimal n) digits) }
{
    if bytes.len() < 8 {
        return None;
    }
    let Ok(eight) = <[u8; 8]>::try_from(&bytes[..8]) else {
        return None;
    };
    if bytes[digits] != b'\n' {
        return None;
    }
    if bytes[0] == b'0' {
        return None;
    }
    let Some(value) = first_digits(eight, digits) else {
        return None;
    };
    Some(value as u32)
}

/// The value of the eight or nine digits that stand first, and how many they are, where there are so many.
#[inline(always)]
fn long_digits(bytes: &[u8]) -> Option<(u64, usize)>
    requires { 9 ≤ length bytes.now }
    ensures digits { IfSome result (λ first. AreDigits bytes.now first.1 first.0 × (first.0 < 10 ^ 9) × (8 ≤ first.1)) }
    ensures few { IfSome result (λ first. first.1 ≤ 9) }
{
    let Ok(eight) = <[u8; 8]>::try_from(&bytes[..8]) else {
        return None;
    };
    let Some(value) = eight_digits(eight) else {
        return None;
    };
    // Most have a space behind them, which is asked for next.
    if bytes[8] == b' ' {
        return Some((value, 8));
    }
    if !bytes[8].is_ascii_digit() {
        return Some((value, 8));
    }
    Some((value * 10 + u64::from(bytes[8] - b'0'), 9))
}

/// The number of eight or nine digits that stand first, with a line feed behind them, and how many they are. None says
/// nothing.
#[inline(always)]
fn long_line_number(bytes: &[u8]) -> Option<(u32, usize)>
    requires { 9 ≤ length bytes.now }
    ensures { IfSome result (λ first. IsNumber first.0 × StandsFirst bytes.now (decimal first.0) first.1) }
{
    let Some((value, len)) = long_digits(bytes) else {
        return None;
    };
    if bytes[0] == b'0' {
        return None;
    }
    if len == bytes.len() {
        return None;
    }
    if bytes[len] != b'\n' {
        return None;
    }
    Some((value as u32, len))
}

/// The number of fewer than eight digits, and not 0, of a line that has one behind this letter and stands whole at the front
/// of the bytes, and how many digits it has. So many are looked for first. None says nothing.
#[inline(always)]
pub fn front_alike(bytes: &[u8], letter: u8, digits: usize) -> Option<(u32, usize)>
    requires { AreFew digits }
    ensures front { IfSome result (λ front. IsNumber front.0
        × StandsFirst bytes.now (numbered_line (letter ∷ []) front.0) (front.1 + 2)) }
    ensures few { IfSome result (λ front. AreFew front.1) }
{
    // Fewer bytes hold no letter, space and eight others.
    if bytes.len() < 10 {
        return None;
    }
    let Some(word) = next_behind(bytes, letter) else {
        return None;
    };
    let Some(others) = next_behind(word, b' ') else {
        return None;
    };
    // The place of the next line then waits for no count of digits.
    if let Some(n) = number_of_digits(others, digits) {
        return Some((n, digits));
    }
    short_number(others)
}

/// The number of one digit of such a line. None says nothing.
#[inline(always)]
fn front_digit(bytes: &[u8], letter: u8) -> Option<u8>
    ensures { IfSome result (λ n. (n ≤ 9) × StandsFirst bytes.now (numbered_line (letter ∷ []) n) 3) }
{
    if bytes.len() < 4 || bytes[0] != letter || bytes[1] != b' ' || bytes[3] != b'\n' {
        return None;
    }
    let digit = bytes[2];
    if digit < b'0' || digit > b'9' {
        return None;
    }
    Some(digit - b'0')
}

/// The number of fewer than ten digits of such a line, and the line's length. None says nothing.
#[inline(always)]
pub fn front_number(bytes: &[u8], letter: u8) -> Option<(u32, usize)>
    ensures { IfSome result (λ front. IsNumber front.0
        × StandsFirst bytes.now (numbered_line (letter ∷ []) front.0) front.1) }
{
    // Most lists are short.
    if let Some(n) = front_digit(bytes, letter) {
        return Some((u32::from(n), 3));
    }
    front_digits(bytes, letter)
}

/// The same, where it mostly has more than one digit.
#[inline(never)]
fn front_digits(bytes: &[u8], letter: u8) -> Option<(u32, usize)>
    ensures { IfSome result (λ front. IsNumber front.0
        × StandsFirst bytes.now (numbered_line (letter ∷ []) front.0) front.1) }
{
    let Some(word) = behind(bytes, letter) else {
        return None;
    };
    let Some(digits) = behind(word, b' ') else {
        return None;
    };
    let Some((n, len)) = digits_number(digits) else {
        return None;
    };
    Some((n, len + 2))
}

/// The number of fewer than ten digits, and not 0, that stands first, with a line feed behind it, and how many digits it
/// has. None says nothing.
#[inline(always)]
fn digits_number(bytes: &[u8]) -> Option<(u32, usize)>
    ensures { IfSome result (λ first. IsNumber first.0 × StandsFirst bytes.now (decimal first.0) first.1) }
{
    if let Some(first) = short_number(bytes) {
        return Some(first);
    }
    if bytes.len() < 9 {
        return None;
    }
    long_line_number(bytes)
}

/// The number of eight or nine digits that stands first, and the bytes behind it. None says nothing.
#[inline(always)]
fn long_number(bytes: &[u8]) -> Option<(u64, &[u8])>
    requires { 9 ≤ length bytes.now }
    ensures first { IfSome result (λ first. (bytes.now ≡ decimal first.0 ++ first.1.now) × (first.0 < 10 ^ 9) × (0 < first.0)) }
    ensures few { IfSome result (λ first. length bytes.now ≤ length first.1.now + 9) }
{
    let Some((value, len)) = long_digits(bytes) else {
        return None;
    };
    if bytes[0] == b'0' {
        return None;
    }
    Some((value, &bytes[len..]))
}

/// The signed number of eight or nine digits that stands first behind a space, and the bytes behind it. None says nothing.
#[inline(always)]
pub fn front_coordinate(bytes: &[u8]) -> Option<(i32, &[u8])>
    requires { 11 ≤ length bytes.now }
    ensures first { IfSome result (λ first. (bytes.now ≡ coordinate_text first.0 ++ first.1.now) × FitsSigned w32 first.0) }
    ensures few { IfSome result (λ first. length bytes.now ≤ length first.1.now + 11) }
{
    let Some(word) = next_behind(bytes, b' ') else {
        return None;
    };
    if let Some(digits) = next_behind(word, b'-') {
        let Some((value, others)) = long_number(digits) else {
            return None;
        };
        return Some(((0 - value as i64) as i32, others));
    }
    let Some((value, others)) = long_number(word) else {
        return None;
    };
    Some((value as i32, others))
}

/// The rectangle of such coordinates that stands first, and the bytes behind it. None says nothing.
#[inline(always)]
pub fn front_rectangle(bytes: &[u8]) -> Option<(Rect, &[u8])>
    requires { 44 ≤ length bytes.now }
    ensures first { IfSome result (λ first. (bytes.now ≡ rectangle first.0 ++ first.1.now) × IsInRange first.0) }
    ensures few { IfSome result (λ first. length bytes.now ≤ length first.1.now + 44) }
{
    let Some((xmin, others)) = front_coordinate(bytes) else {
        return None;
    };
    let Some((ymin, others)) = front_coordinate(others) else {
        return None;
    };
    let Some((xmax, others)) = front_coordinate(others) else {
        return None;
    };
    let Some((ymax, others)) = front_coordinate(others) else {
        return None;
    };
    Some((rect_of(xmin, ymin, xmax, ymax), others))
}

/// The number from `least` to 8 that stands first behind a space, and the bytes behind the line feed that follows it. None
/// says nothing.
#[inline(always)]
pub fn front_small(bytes: &[u8], least: u8) -> Option<(u8, &[u8])>
    requires { 3 ≤ length bytes.now }
    ensures { IfSome result (λ first. (bytes.now ≡ number first.0 ++ (10 ∷ first.1.now)) × (least ≤ first.0) × (first.0 ≤ 8)) }
{
    if bytes[0] != b' ' || bytes[2] != b'\n' {
        return None;
    }
    let digit = bytes[1];
    if digit < b'0' || digit > b'8' || digit - b'0' < least {
        return None;
    }
    Some((digit - b'0', &bytes[3..]))
}
