//! The search for a number in a block, sixteen of its numbers at a time.

use std::simd::prelude::*;

/// The first place of a number among these, if it is one of them.
pub fn find_first(numbers: &[u32], sought: u32) -> Option<usize> {
    let wanted = u32x16::splat(sought);
    let (sixteens, rest) = numbers.as_chunks::<16>();
    let mut place = 0usize;
    for sixteen in sixteens {
        let marked = u32x16::from_array(*sixteen).simd_eq(wanted).to_bitmask();
        if marked != 0 {
            return Some(place.wrapping_add(marked.trailing_zeros() as usize));
        }
        place = place.wrapping_add(16);
    }
    for number in rest {
        if *number == sought {
            return Some(place);
        }
        place = place.wrapping_add(1);
    }
    None
}
