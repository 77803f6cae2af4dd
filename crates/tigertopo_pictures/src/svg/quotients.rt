//! Whole quotients by one divisor of many numbers.

ghost use Rattle.std.specs.Prelude.{◌≡◌, ◌↔◌, ◌<◌, ◌≤◌, ◌^◌, ◌/◌, IfSome, IsTrue, pos};
ghost use Rattle.std.specs.Int.{int_div_euclid};

/// How often a divisor goes into a number, rounded down. It is guessed by the inverse, about how often the divisor goes into 2^64, since a
/// processor takes many times as long to divide as to multiply. A guess that is wrong costs a division, and so does a number below 0.
#[inline(always)]
pub fn quotient(n: i64, divisor: u64, inverse: u64) -> i64
    requires some { 0 < divisor }
    requires small { divisor ≤ 2 ^ 48 }
    ensures { result ≡ int_div_euclid n (pos divisor) }
{
    match guessed(n, divisor, inverse) {
        Some(quotient) => quotient,
        None => n.div_euclid(divisor as i64),
    }
}

// The quotient, where it is guessed right.
#[inline(always)]
fn guessed(n: i64, divisor: u64, inverse: u64) -> Option<i64>
    requires { 0 < divisor }
    ensures { IfSome result (λ q. q ≡ int_div_euclid n (pos divisor)) }
{
    let Ok(n) = u64::try_from(n) else {
        return None;
    };
    let guess = (u128::from(n).wrapping_mul(u128::from(inverse)) >> 64) as u64;
    if !is_quotient(n, divisor, guess) {
        return None;
    }
    match i64::try_from(guess) {
        Ok(quotient) => Some(quotient),
        Err(_) => None,
    }
}

// Whether a divisor goes so often into a number.
#[inline(always)]
fn is_quotient(n: u64, divisor: u64, quotient: u64) -> bool
    requires { 0 < divisor }
    ensures { IsTrue result ↔ (quotient ≡ n / divisor) }
{
    match quotient.checked_mul(divisor) {
        Some(near) if near <= n => n - near < divisor,
        _ => false,
    }
}
