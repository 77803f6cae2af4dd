//! Bytes that are printed or blanks, as those of a CENID, several at once.

ghost use Rattle.std.specs.Prelude.{◌≡◌, ℕ, ◌<◌, ◌≤◌, true, length, take, IfSome, slice_index};
ghost use Rattle.std.specs.List.{list_all};
ghost use Rattle.tl_record.specs.Fields.{is_cenid_byte};

use crate::aligned::lanes_before;
use std::simd::prelude::*;

/// How many of the first sixteen bytes come before one that is below the blank.
#[inline(always)]
fn before_control(bytes: &[u8]) -> usize
    requires { 16 ≤ length bytes.now }
    ensures few { result ≤ 16 }
    ensures none { (k : ℕ) → k < result → 32 ≤ slice_index bytes.now k }
{
    let lanes = u8x16::from_slice(&bytes[..]);
    lanes_before(lanes.simd_lt(u8x16::splat(b' ')).to_bitmask(), 16)
}

/// How many of the first sixteen bytes come before one that is above the tilde.
#[inline(always)]
fn before_deletion(bytes: &[u8]) -> usize
    requires { 16 ≤ length bytes.now }
    ensures few { result ≤ 16 }
    ensures none { (k : ℕ) → k < result → slice_index bytes.now k ≤ 126 }
{
    let lanes = u8x16::from_slice(&bytes[..]);
    lanes_before(lanes.simd_ge(u8x16::splat(0x7f)).to_bitmask(), 16)
}

/// The first five bytes, where all of them may be a CENID's. `None` says nothing.
#[inline(always)]
pub(crate) fn five_printed(bytes: &[u8]) -> Option<[u8; 5]>
    requires { 16 ≤ length bytes.now }
    ensures bytes { IfSome result (λ five. five ≡ take 5 bytes.now) }
    ensures printed { IfSome result (λ five. list_all is_cenid_byte five ≡ true) }
{
    if before_control(bytes) < 5 || before_deletion(bytes) < 5 {
        return None;
    }
    match <[u8; 5]>::try_from(&bytes[..5]) {
        Ok(five) => Some(five),
        Err(_) => None,
    }
}
