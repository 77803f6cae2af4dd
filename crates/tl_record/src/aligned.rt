//! A number at the end of its field, behind blanks, read by words.

ghost use Rattle.std.specs.Prelude.{◌≡◌, ◌+◌, ◌<◌, ◌≤◌, ◌^◌, true, take, drop, length, IfSome, ◌==◌, if◌then◌else◌};
ghost use Rattle.std.specs.Int.{w64, trailing_zeros};
ghost use Rattle.std.specs.List.{list_all};
ghost use Rattle.std.specs.Char.{is_ascii_digit};
ghost use Rattle.tl_record.specs.Fields.{decimal, is_blank, number_spelt};

use crate::number::Spelt;
use crate::word::first_digits;
use std::simd::prelude::*;

/// How many of so many lanes come before the first that is marked.
#[inline(always)]
pub(crate) fn lanes_before(marked: u64, lanes: usize) -> usize
    ensures { result ≡ (if marked == 0 then lanes else trailing_zeros w64 marked) }
{
    if marked == 0 {
        lanes
    } else {
        marked.trailing_zeros() as usize
    }
}

/// How many of the first sixteen bytes are blanks that no other byte stands before.
#[inline(always)]
fn leading_blanks(bytes: &[u8]) -> usize
    requires { 16 ≤ length bytes.now }
    ensures few { result ≤ 16 }
    ensures blanks { list_all is_blank (take result bytes.now) ≡ true }
{
    let others = u8x16::from_slice(&bytes[..])
        .simd_ne(u8x16::splat(b' '))
        .to_bitmask();
    lanes_before(others, 16)
}

/// The value of up to eight bytes from a place on, where all of them are digits and a word of bytes stands there. `None`
/// says nothing.
#[inline(always)]
fn word_at(bytes: &[u8], at: usize, count: usize) -> Option<u64>
    requires place { at ≤ 32 }
    requires some { 0 < count }
    requires few { count ≤ 8 }
    ensures digits { IfSome result (λ _. list_all is_ascii_digit (take count (drop at bytes.now)) ≡ true) }
    ensures value { IfSome result (λ value. value ≡ decimal (take count (drop at bytes.now))) }
    ensures fits { IfSome result (λ value. value < 10 ^ 8) }
    ensures there { IfSome result (λ _. at + 8 ≤ length bytes.now) }
{
    if bytes.len() < at + 8 {
        return None;
    }
    match <[u8; 8]>::try_from(&bytes[at..at + 8]) {
        Ok(eight) => first_digits(eight, count),
        Err(_) => None,
    }
}

/// The value of up to nine bytes from a place on, where all of them are digits: most TLIDs have eight or nine. `None` says nothing.
#[inline(always)]
fn digits_at(bytes: &[u8], at: usize, count: usize) -> Option<u64>
    requires place { at ≤ 16 }
    requires some { 0 < count }
    ensures digits { IfSome result (λ _. list_all is_ascii_digit (take count (drop at bytes.now)) ≡ true) }
    ensures value { IfSome result (λ value. value ≡ decimal (take count (drop at bytes.now))) }
    ensures there { IfSome result (λ _. at + count ≤ length bytes.now) }
{
    if count <= 8 {
        return word_at(bytes, at, count);
    }
    if count > 9 {
        return None;
    }
    let Some(low) = word_at(bytes, at + 1, 8) else {
        return None;
    };
    let first = bytes[at];
    if !first.is_ascii_digit() {
        return None;
    }
    Some((first - b'0') as u64 * 100_000_000 + low)
}

/// What a number's field spells that holds blanks and then digits, where a line has sixteen bytes or more from the field
/// on. `None` says nothing.
#[inline(always)]
pub(crate) fn aligned_number(bytes: &[u8], width: usize) -> Option<u64>
    requires many { 16 ≤ length bytes.now }
    requires narrow { width ≤ 16 }
    ensures { IfSome result (λ value. number_spelt (take width bytes.now) ≡ Spelt.Value value) }
{
    let blanks = leading_blanks(bytes);
    if width <= blanks {
        return None;
    }
    digits_at(bytes, blanks, width - blanks)
}
