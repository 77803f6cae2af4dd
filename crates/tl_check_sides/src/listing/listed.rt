//! Numbers by rising order, each once.

ghost use Rattle.std.specs.Prelude.{ℕ, ◌↔◌, Contains};
ghost use Rattle.std.specs.List.Sorted.{IsStrictlyIncreasing};

/// Sorts numbers and leaves each once.
pub fn sort_once(numbers: &mut Vec<u32>)
    ensures rising { IsStrictlyIncreasing numbers.new.items }
    ensures same { (x : ℕ) → Contains numbers.new.items x ↔ Contains numbers.old.items x }
{
    numbers.sort_unstable();
    numbers.dedup();
}
