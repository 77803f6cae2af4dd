//! Lines of numbers that stand whole at the front of the bytes that were fetched, one behind the other.

ghost use Rattle.std.specs.Prelude.{◌≡◌, ◌≤◌, length, take, All, IfOk};
ghost use Rattle.tl_record.specs.Lines.{joined_lines};
ghost use Rattle.tl_cert.specs.Certificates.{IsNumber};
ghost use Rattle.tl_cert.specs.Text.{item_lines, dart_lines};
ghost use Rattle.tl_cert.specs.Keeping.Words.{AreFew};

use crate::front::front_alike;
use arrayvec::ArrayVec;
use std::alloc::{AllocError, Global};

// For how many darts there is room before they are read, at most: nearly all lists are no longer.
const FEW: usize = 8;

/// The items whose lines stand first, `count` at most, up to one of eight digits or more, and how many bytes those lines
/// have. So many digits are looked for in the first line, and as many as it has in the next; how many to go on with is
/// given too.
#[inline(always)]
pub fn front_items(bytes: &[u8], count: u8, digits: usize) -> (ArrayVec<u32, 8>, usize, usize)
    requires count { count ≤ 8 }
    requires digits { AreFew digits }
    ensures few { length result.0.items ≤ count }
    ensures numbers { All IsNumber result.0.items }
    ensures within { result.1 ≤ length bytes.now }
    ensures spelt { take result.1 bytes.now ≡ joined_lines (item_lines result.0.items) }
    ensures digits { AreFew result.2 }
{
    let mut items = ArrayVec::new();
    let mut at = 0;
    let mut usual = digits;
    for index in 0..count {
        let Some((item, digits)) = front_alike(&bytes[at..], b'S', usual) else {
            return (items, at, usual);
        };
        items.push(item);
        let len = digits + 2;
        at += len + 1;
        usual = digits;
    }
    (items, at, usual)
}

/// The darts whose lines stand first, `count` at most, up to one of eight digits or more, and how many bytes those lines
/// have; with digits as of items.
#[inline(always)]
pub fn front_darts(
    alloc: Global,
    bytes: &[u8],
    count: u32,
    digits: usize,
) -> Result<(Vec<u32>, usize, usize), AllocError>
    requires { AreFew digits }
    ensures few { IfOk result (λ front. length front.0.items ≤ count) }
    ensures numbers { IfOk result (λ front. All IsNumber front.0.items) }
    ensures within { IfOk result (λ front. front.1 ≤ length bytes.now) }
    ensures spelt { IfOk result (λ front. take front.1 bytes.now ≡ joined_lines (dart_lines front.0.items)) }
    ensures digits { IfOk result (λ front. AreFew front.2) }
{
    let mut darts = Vec::with_capacity(alloc, (count as usize).min(FEW))?;
    let mut at = 0;
    let mut usual = digits;
    for index in 0..count {
        let Some((dart, digits)) = front_alike(&bytes[at..], b'D', usual) else {
            return Ok((darts, at, usual));
        };
        match darts.push(dart) {
            Ok(()) => {}
            Err(_) => return Err(AllocError),
        }
        let len = digits + 2;
        at += len + 1;
        usual = digits;
    }
    Ok((darts, at, usual))
}
