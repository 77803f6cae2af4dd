//! Rational points in lowest terms.
ghost use Prim.Native.Nat.{◌∣◌};
ghost use Rattle.std.specs.Prelude.{◌≡◌, ℕ, ◌*ℤ◌, ◌<ℤ◌, pos, unsigned_abs};
ghost use Rattle.std.specs.Int.{IsGcd};
ghost use Rattle.tl_geom.specs.Lowest.{IsLowest, IsLowestOf};

use crate::Rational;

impl Rational {
    /// The same place in lowest terms: no number above 1 divides both numerators and the denominator. A point that is in lowest terms
    /// stays as it is.
    pub fn lowest(self) -> Rational
        ensures lowest { IsLowestOf self result }
        ensures kept { IsLowest self → result ≡ self }
    {
        let divisor = self.divisor();
        if divisor == 1 {
            return self;
        }
        Rational {
            x: part(self.x, divisor),
            y: part(self.y, divisor),
            d: part(self.d, divisor),
        }
    }

    /// The greatest number that divides both numerators and the denominator.
    fn divisor(self) -> i128
        ensures above { pos 0 <ℤ result }
        ensures x { unsigned_abs result ∣ unsigned_abs self.x }
        ensures y { unsigned_abs result ∣ unsigned_abs self.y }
        ensures d { unsigned_abs result ∣ unsigned_abs self.d }
        ensures greatest { (n : ℕ) → n ∣ unsigned_abs self.x → n ∣ unsigned_abs self.y → n ∣ unsigned_abs self.d → n ∣ unsigned_abs result }
    {
        let of_both = common_divisor(self.x.unsigned_abs(), self.y.unsigned_abs());
        common_divisor(of_both, self.d.unsigned_abs()) as i128
    }
}

/// The greatest number that divides both.
fn common_divisor(a: u128, b: u128) -> u128
    ensures { IsGcd a b result }
{
    let mut x = a;
    let mut y = b;
    while y != 0 {
        let rest = x % y;
        x = y;
        y = rest;
    }
    x
}

/// A number by one that divides it.
fn part(a: i128, divisor: i128) -> i128
    requires above { pos 0 <ℤ divisor }
    requires divides { unsigned_abs divisor ∣ unsigned_abs a }
    ensures { result *ℤ divisor ≡ a }
{
    a / divisor
}
