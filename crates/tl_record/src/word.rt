//! Up to eight digits at once, with no branch for each.

ghost use Rattle.std.specs.Prelude.{◌≡◌, ℕ, List, ◌+◌, ◌<◌, ◌≤◌, ◌^◌, true, false, take, map, replicate, IfSome};
ghost use Rattle.std.specs.List.{list_all};
ghost use Rattle.std.specs.Char.{is_ascii_digit};
ghost use Rattle.tl_record.specs.Fields.{decimal};
ghost use Rattle.tl_record.specs.Word.{IsWordOf, above_nine_bit};

/// The digit 0 in each byte.
const ZEROS: u64 = 0x3030_3030_3030_3030;

/// The lower seven bits of each byte.
const LOWER_BITS: u64 = 0x7f7f_7f7f_7f7f_7f7f;

/// The top bit of each byte.
const TOP_BITS: u64 = 0x8080_8080_8080_8080;

/// What brings seven bits above 9, and none below, to the top bit.
const UP_TO_TOP: u64 = 0x7676_7676_7676_7676;

/// The value of eight digits, each less the digit 0 in a byte of its own: neighbours are put together, first digits in
/// pairs, then pairs, then fours, each time in all parts of the word at once.
#[inline(always)]
fn digits_value(digits: u64) -> u64
    requires { (bytes : List ℕ) × IsWordOf bytes (digits + ZEROS) × (list_all is_ascii_digit bytes ≡ true) }
    ensures { (bytes : List ℕ) → IsWordOf bytes (digits + ZEROS) → list_all is_ascii_digit bytes ≡ true →
        (result ≡ decimal bytes) × (result < 10 ^ 8) }
{
    let pairs = (digits * 10 + (digits >> 8)) & 0x00ff_00ff_00ff_00ff;
    let fours = (pairs * 100 + (pairs >> 16)) & 0x0000_ffff_0000_ffff;
    (fours * 10_000 + (fours >> 32)) & 0xffff_ffff
}

/// The top bit of each byte that is above 9.
#[inline(always)]
fn above_nine(word: u64) -> u64
    ensures { (bytes : List ℕ) → IsWordOf bytes word → IsWordOf (map above_nine_bit bytes) result }
{
    ((word & LOWER_BITS) + UP_TO_TOP | word) & TOP_BITS
}

/// Whether a byte is above 9. Where a sum goes over into the next byte its own byte has its top bit set, so that here no bit has to be left
/// out before.
#[inline(always)]
fn has_above_nine(word: u64) -> bool
    ensures { result ≡ false → (bytes : List ℕ) → IsWordOf bytes word → IsWordOf (map above_nine_bit bytes) 0 }
{
    (word.wrapping_add(UP_TO_TOP) | word) & TOP_BITS != 0
}

/// The value of the first `count` of eight bytes, where all of these are digits. None says nothing.
#[inline(always)]
pub fn first_digits(bytes: [u8; 8], count: usize) -> Option<u64>
    requires some { 0 < count }
    requires few { count ≤ 8 }
    ensures digits { IfSome result (λ _. list_all is_ascii_digit (take count bytes) ≡ true) }
    ensures value { IfSome result (λ value. value ≡ decimal (take count bytes)) }
    ensures fits { IfSome result (λ value. value < 10 ^ 8) }
{
    let digits = (u64::from_le_bytes(bytes) ^ ZEROS) << (64 - 8 * count);
    if has_above_nine(digits) {
        return None;
    }
    Some(digits_value(digits))
}

/// The value of eight bytes, where all of them are digits. None says nothing.
#[inline(always)]
pub fn eight_digits(bytes: [u8; 8]) -> Option<u64>
    ensures digits { IfSome result (λ _. list_all is_ascii_digit bytes ≡ true) }
    ensures value { IfSome result (λ value. value ≡ decimal bytes) }
    ensures fits { IfSome result (λ value. value < 10 ^ 8) }
{
    first_digits(bytes, 8)
}

/// The value of the digits that stand first among eight bytes, and how many they are, where they are fewer than eight. None
/// says nothing.
#[inline(always)]
pub fn leading_digits(bytes: [u8; 8]) -> Option<(u64, usize)>
    ensures count { IfSome result (λ first. (0 < first.1) × (first.1 < 8)) }
    ensures digits { IfSome result (λ first. list_all is_ascii_digit (take first.1 bytes) ≡ true) }
    ensures value { IfSome result (λ first. decimal (take first.1 bytes) ≡ first.0) }
    ensures fits { IfSome result (λ first. first.0 < 10 ^ 8) }
{
    let digits = u64::from_le_bytes(bytes) ^ ZEROS;
    let others = above_nine(digits);
    if others == 0 {
        return None;
    }
    let count = (others.trailing_zeros() / 8) as usize;
    if count == 0 {
        return None;
    }
    Some((digits_value(digits << (64 - 8 * count)), count))
}

/// Whether the bytes are eight times the digit 0.
#[inline(always)]
pub(crate) fn are_eight_zeros(bytes: &[u8]) -> bool
    ensures { result ≡ true → bytes.now ≡ replicate 8 48 }
{
    match <[u8; 8]>::try_from(bytes) {
        Ok(eight) => u64::from_le_bytes(eight) == ZEROS,
        Err(_) => false,
    }
}
