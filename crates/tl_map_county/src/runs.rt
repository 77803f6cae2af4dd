//! Items of one key that stand together in a list.
//!
//! A list that is sorted by its items' keys is gone through beside another one: [`first_not_below`] passes over what the other hasn't,
//! and [`run_end`] tells where what it has ends. Both look at each item once.

ghost use Rattle.std.specs.Prelude.{◌≡◌, ◌≢◌, ℕ, ◌<◌, ◌≤◌, length, slice_index_or};

/// What has a number that others may have too.
pub trait Keyed {
    // The number.
    ghost key_of: { Self → ℕ };

    /// The number.
    fn key(&self) -> u64
        ensures { result ≡ key_of self.now };
}

impl Keyed for u64 {
    ghost key_of = { λ number. number };

    /// The number itself.
    fn key(&self) -> u64 {
        *self
    }
}

/// The place of the first item from `start` on whose key isn't below this one.
pub fn first_not_below<T: Keyed>(items: &[T], start: usize, key: u64) -> usize
    requires { start ≤ length items.now }
    ensures within { result ≤ length items.now }
    ensures from { start ≤ result }
    ensures below { (k : ℕ) (d : T) → start ≤ k → k < result → T.key_of (slice_index_or items.now k d) < key }
    ensures stops { (d : T) → result < length items.now → key ≤ T.key_of (slice_index_or items.now result d) }
{
    let mut place = start;
    while place < items.len() && items[place].key() < key {
        place += 1;
    }
    place
}

/// Where the items of a key end that stand together from `start` on.
pub fn run_end<T: Keyed>(items: &[T], start: usize, key: u64) -> usize
    requires { start ≤ length items.now }
    ensures within { result ≤ length items.now }
    ensures from { start ≤ result }
    ensures same { (k : ℕ) (d : T) → start ≤ k → k < result → T.key_of (slice_index_or items.now k d) ≡ key }
    ensures stops { (d : T) → result < length items.now → T.key_of (slice_index_or items.now result d) ≢ key }
{
    let mut end = start;
    while end < items.len() && items[end].key() == key {
        end += 1;
    }
    end
}
