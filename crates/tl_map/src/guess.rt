//! Polygons' numbers by their keys, where a guess is mostly right.

ghost use Rattle.std.specs.Prelude.{◌≡◌, ◌<◌, ◌^◌, IfSome, length};
ghost use Rattle.std.specs.Bool.{OnTrue};
ghost use Rattle.indexmap.specs.IndexMap.{index_of};
ghost use Rattle.tl_map_rules.specs.MapOf.{same_key};

use indexmap::IndexMap;
use std::alloc::{AllocError, Global};
use std::hash::RandomState;
use tl_geom::Point;
use tl_map_county::release;
use tl_record::PolyKey;

/// What stands at a place where there is no guess. It is no polygon's number, since there are fewer.
const NO_GUESS: u32 = u32::MAX;

/// Numbers of polygons at the places of their keys. Nothing rests on them: each is a guess, which is compared with the polygon's own
/// key. Where it is right, as for nearly all sides of a county, the key isn't hashed.
///
/// A key has two places. The near ones of keys that follow each other, as those of polygons side by side mostly do, stand side by
/// side. Where its near place is taken by another, a polygon's number stands at the far one, which hangs on all bits of the key.
#[derive(Drop)]
pub struct Guesses {
    numbers: Vec<u32>,
}

impl Guesses {
    /// A guess for each polygon, but for those both of whose places others take.
    pub fn new(
        alloc: Global,
        index: &IndexMap<PolyKey, Point, RandomState>,
    ) -> Result<Guesses, AllocError>
        requires { length index.now.entries < 2 ^ 32 }
    {
        let count = index.len() as u32;
        let mut numbers = vec![in alloc; NO_GUESS; places_for(count)]?;
        for number in 0..count {
            if let Some((key, _)) = index.get_index(number as usize) {
                note(&mut numbers, *key, number);
            }
        }
        Ok(Guesses { numbers })
    }

    /// Frees the guesses.
    pub fn release(self) {
        let Guesses { numbers } = self;
        release(numbers);
    }

    /// The number of the polygon with this key. What a right guess takes stands where the call is.
    #[inline(always)]
    pub fn number_of(
        &mut self,
        index: &IndexMap<PolyKey, Point, RandomState>,
        key: PolyKey,
    ) -> Option<usize>
        requires { length index.now.entries < 2 ^ 32 }
        ensures index { result ≡ index_of same_key index.now key }
        ensures within { IfSome result (λ number. number < length index.now.entries) }
    {
        let guess = guess_at(&self.numbers, near_place(key, self.numbers.len()));
        if is_number(index, guess, key) {
            return Some(guess);
        }
        self.look_up(index, key)
    }

    /// The number of the polygon with this key, by its far place or its hash.
    #[inline(never)]
    fn look_up(
        &mut self,
        index: &IndexMap<PolyKey, Point, RandomState>,
        key: PolyKey,
    ) -> Option<usize>
        requires { length index.now.entries < 2 ^ 32 }
        ensures index { result ≡ index_of same_key index.now key }
        ensures within { IfSome result (λ number. number < length index.now.entries) }
    {
        let guess = guess_at(&self.numbers, far_place(key, self.numbers.len()));
        if is_number(index, guess, key) {
            return Some(guess);
        }
        let found = index.get_index_of(&key);
        if let Some(number) = found {
            note(&mut self.numbers, key, number as u32);
        }
        found
    }
}

/// Is this the number of the polygon with the key?
#[inline(always)]
fn is_number(index: &IndexMap<PolyKey, Point, RandomState>, number: usize, key: PolyKey) -> bool
    ensures index { OnTrue result (index_of same_key index.now key ≡ Some number) }
    ensures within { OnTrue result (number < length index.now.entries) }
{
    if number >= index.len() {
        return false;
    }
    match index.get_index(number) {
        Some((known, _)) => *known == key,
        None => false,
    }
}

/// The guess at a place.
#[inline(always)]
fn guess_at(numbers: &[u32], place: usize) -> usize {
    match numbers.get(place) {
        Some(number) => *number as usize,
        None => 0,
    }
}

/// Makes the number the guess at the key's near place, or at its far one where the near one is taken.
fn note(numbers: &mut [u32], key: PolyKey, number: u32) {
    let near = near_place(key, numbers.len());
    let place = if is_free(numbers, near) {
        near
    } else {
        far_place(key, numbers.len())
    };
    if let Some(guess) = numbers.get_mut(place) {
        *guess = number;
    }
}

/// Is there no guess at this place?
fn is_free(numbers: &[u32], place: usize) -> bool {
    match numbers.get(place) {
        Some(number) => *number == NO_GUESS,
        None => false,
    }
}

/// How many places there are for so many polygons: a power of two, and between one and a half times and three times as many.
fn places_for(count: u32) -> usize {
    let most = u64::from(count) * 3;
    1 << 63u32.saturating_sub(most.leading_zeros()).min(63)
}

/// The near place of a key among so many, a power of two: places rise with the second part of the key, from one on that hangs on
/// the first part.
#[inline(always)]
fn near_place(key: PolyKey, places: usize) -> usize {
    (mixed_cenid(key) >> 32).wrapping_add(key.polyid) as usize & places.wrapping_sub(1)
}

/// The far place of a key among so many, a power of two.
fn far_place(key: PolyKey, places: usize) -> usize {
    let mixed = (mixed_cenid(key) ^ key.polyid).wrapping_mul(0x9e37_79b9_7f4a_7c15);
    (mixed >> 32) as usize & places.wrapping_sub(1)
}

/// The first part of a key, mixed by a product, whose upper bits hang on all of its bits.
#[inline(always)]
fn mixed_cenid(key: PolyKey) -> u64 {
    let [first, second, third, fourth, fifth] = key.cenid;
    u64::from_le_bytes([first, second, third, fourth, fifth, 0, 0, 0]).wrapping_mul(
        0xff51_afd7_ed55_8ccd,
    )
}
