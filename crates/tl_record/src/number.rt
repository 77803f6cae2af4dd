//! What the bytes of a field spell.

ghost use Rattle.std.specs.Prelude.{◌≡◌, ◌<◌, ◌≤◌, ◌^◌, true, length, pos, IfSome};
ghost use Rattle.std.specs.List.{list_all};
ghost use Rattle.std.specs.Char.{is_ascii_digit};
ghost use Rattle.tl_record.specs.Fields.{without_leading_blanks, without_trailing_blanks, trimmed, decimal};
ghost use Rattle.tl_record.specs.Fields.{digits_spell, IsBelow, negated, not_negated, number_spelt, coordinate_spelt};

use crate::word::{are_eight_zeros, eight_digits};

/// What a field's bytes spell, where it holds a number.
#[derive(Clone, Copy)]
pub enum Spelt<T> {
    /// Nothing but blanks.
    Blank,
    /// One number.
    Value(T),
    /// Anything else.
    Unreadable,
}

fn without_leading_blanks(bytes: &[u8]) -> &[u8]
    ensures value { result.now ≡ without_leading_blanks bytes.now }
    ensures shorter { length result.now ≤ length bytes.now }
{
    let mut rest = bytes;
    while let [b' ', after @ ..] = rest {
        rest = after;
    }
    rest
}

fn without_trailing_blanks(bytes: &[u8]) -> &[u8]
    ensures value { result.now ≡ without_trailing_blanks bytes.now }
    ensures shorter { length result.now ≤ length bytes.now }
{
    let mut length = bytes.len();
    while length > 0 && bytes[length - 1] == b' ' {
        length -= 1;
    }
    &bytes[..length]
}

fn trimmed(bytes: &[u8]) -> &[u8]
    ensures value { result.now ≡ trimmed bytes.now }
    ensures shorter { length result.now ≤ length bytes.now }
{
    without_trailing_blanks(without_leading_blanks(bytes))
}

/// The value of bytes that are eight or nine decimal digits.
#[inline(always)]
fn long_number(bytes: &[u8]) -> Option<u64>
    ensures digits { IfSome result (λ _. list_all is_ascii_digit bytes.now ≡ true) }
    ensures some { IfSome result (λ _. 0 < length bytes.now) }
    ensures value { IfSome result (λ value. value ≡ decimal bytes.now) }
    ensures fits { IfSome result (λ value. value < 10 ^ 9) }
{
    if let Ok(eight) = <[u8; 8]>::try_from(bytes) {
        return eight_digits(eight);
    }
    let [first, rest @ ..] = bytes else {
        return None;
    };
    let Ok(eight) = <[u8; 8]>::try_from(rest) else {
        return None;
    };
    if !first.is_ascii_digit() {
        return None;
    }
    let Some(low) = eight_digits(eight) else {
        return None;
    };
    Some((*first - b'0') as u64 * 100_000_000 + low)
}

/// The value of one or more decimal digits.
fn digits_spell(bytes: &[u8]) -> Spelt<u64>
    requires { length bytes.now ≤ 18 }
    ensures value { result ≡ digits_spell bytes.now }
    ensures fits { IsBelow (10 ^ 18) result }
{
    if let Some(value) = long_number(bytes) {
        return Spelt::Value(value);
    }
    if bytes.is_empty() {
        return Spelt::Unreadable;
    }
    let mut value = 0u64;
    for byte in bytes {
        if !byte.is_ascii_digit() {
            return Spelt::Unreadable;
        }
        value = value * 10 + (*byte - b'0') as u64;
    }
    Spelt::Value(value)
}

fn not_negated(magnitude: Spelt<u64>) -> Spelt<i64>
    requires { IsBelow (10 ^ 18) magnitude }
    ensures { result ≡ not_negated magnitude }
{
    match magnitude {
        Spelt::Blank => Spelt::Blank,
        Spelt::Value(value) => Spelt::Value(value as i64),
        Spelt::Unreadable => Spelt::Unreadable,
    }
}

fn negated(magnitude: Spelt<u64>) -> Spelt<i64>
    requires { IsBelow (10 ^ 18) magnitude }
    ensures { result ≡ negated magnitude }
{
    match magnitude {
        Spelt::Blank => Spelt::Blank,
        Spelt::Value(value) => Spelt::Value(0 - value as i64),
        Spelt::Unreadable => Spelt::Unreadable,
    }
}

/// What the bytes of a number's field spell: digits, with blanks before them, after them or both.
#[inline(never)]
pub fn number_spelt(bytes: &[u8]) -> Spelt<u64>
    requires { length bytes.now ≤ 18 }
    ensures { result ≡ number_spelt bytes.now }
{
    match trimmed(bytes) {
        [] => Spelt::Blank,
        digits => digits_spell(digits),
    }
}

/// What the bytes of a longitude's or a latitude's field spell that is filled, as the Census Bureau writes them: a sign
/// and eight or nine digits.
#[inline(always)]
pub(crate) fn filled_spelt(bytes: &[u8]) -> Option<i64>
    ensures { IfSome result (λ value. coordinate_spelt bytes.now ≡ Spelt.Value value) }
{
    let [sign, digits @ ..] = bytes else {
        return None;
    };
    let Some(value) = long_number(digits) else {
        return None;
    };
    match sign {
        b'-' => Some(0 - value as i64),
        b'+' => Some(value as i64),
        _ => None,
    }
}

/// Whether the bytes of such a field are a plus and eight or nine zeros, as in a shape pair that isn't used. `false` says
/// nothing.
#[inline(always)]
pub(crate) fn is_plus_zero(bytes: &[u8]) -> bool
    ensures { result ≡ true → coordinate_spelt bytes.now ≡ Spelt.Value (pos 0) }
{
    match bytes {
        [b'+', b'0', zeros @ ..] if zeros.len() == 8 => are_eight_zeros(zeros),
        [b'+', zeros @ ..] => are_eight_zeros(zeros),
        _ => false,
    }
}

/// What the bytes of such a field spell where blanks may stand round it.
#[inline(never)]
fn trimmed_spelt(bytes: &[u8]) -> Spelt<i64>
    requires { length bytes.now ≤ 18 }
    ensures { result ≡ coordinate_spelt bytes.now }
{
    match trimmed(bytes) {
        [] => Spelt::Blank,
        [b'-', digits @ ..] => negated(digits_spell(digits)),
        [b'+', digits @ ..] => not_negated(digits_spell(digits)),
        digits => not_negated(digits_spell(digits)),
    }
}

/// What the bytes of a longitude's or a latitude's field spell: digits with at most one sign directly before them, with
/// blanks round both.
pub fn coordinate_spelt(bytes: &[u8]) -> Spelt<i64>
    requires { length bytes.now ≤ 18 }
    ensures { result ≡ coordinate_spelt bytes.now }
{
    match filled_spelt(bytes) {
        Some(value) => Spelt::Value(value),
        None => trimmed_spelt(bytes),
    }
}
