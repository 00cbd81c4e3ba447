// The quotient of two doubles by their bit patterns, in whole numbers: a long division of the digits, with the remainder kept as the last
// place. Nothing here knows a float.

#![tactic(auto)]

ghost use Rattle.std.specs.Prelude.{◌≡◌, ◌*◌, ◌<◌, ◌≤◌};
ghost use Rattle.doubles_patterns.specs.Doubles.{quotient_pattern};
ghost use Rattle.doubles_patterns.specs.Patterns.{leading, infinity, magnitude, units_of, quotient_of_units};
ghost use Rattle.doubles_rounding.specs.Standing.{StandsFor};

use doubles_patterns::{parts_of, sign_of};
use doubles_rounding::placed;

// The quotient of m * 2 ^ 55 by n, five digits of eleven places. Each is guessed from the leading places, which one division of 32 bits can
// do, never too high and by one too low at most. Where something is left, the last place is made odd.
fn long_division(m: u64, n: u64) -> u64
    requires { (m < 2 * leading) × (leading ≤ n) × (n < 2 * leading) }
    ensures { StandsFor result (m * 36028797018963968) n }
{
    let guide = (n / 0x2000000000 + 1) as u32;
    let mut quotient = 0;
    let mut rest = m;
    for _digit in 0..5u32 {
        let guess = ((rest / 0x4000000) as u32 / guide) as u64;
        let left = rest * 2048 - guess * n;
        if left < n {
            quotient = quotient * 2048 + guess;
            rest = left;
        } else {
            quotient = quotient * 2048 + (guess + 1);
            rest = left - n;
        }
    }
    if rest == 0 {
        quotient
    } else {
        quotient / 2 * 2 + 1
    }
}

// The pattern of the quotient of two finite magnitudes, neither of them zero.
fn magnitudes_divided(p: u64, o: u64) -> u64
    requires { (0 < p) × (0 < o) × (p < infinity) × (o < infinity) }
    ensures { (result ≡ quotient_of_units (units_of p) (units_of o)) × (result ≤ infinity) }
{
    let first = parts_of(p);
    let second = parts_of(o);
    placed(
        long_division(first.digits, second.digits) * 256,
        first.exponent + 1021,
        second.exponent,
    )
}

// The quotient of two finite doubles: NaN for two zeros, an infinity for any other number by zero.
fn finite_quotient(a: u64, b: u64) -> u64
    requires { (magnitude a < infinity) × (magnitude b < infinity) }
    ensures { result ≡ quotient_pattern a b }
{
    let p = a % 0x8000000000000000;
    let o = b % 0x8000000000000000;
    if o == 0 {
        if p == 0 {
            0x7FF8000000000000
        } else {
            sign_of(a, b) + 0x7FF0000000000000
        }
    } else if p == 0 {
        sign_of(a, b)
    } else {
        sign_of(a, b) + magnitudes_divided(p, o)
    }
}

// The quotient of two doubles of which one at least is not finite: NaN with a NaN, and for two infinities.
fn infinite_quotient(a: u64, b: u64) -> u64
    requires { magnitude a < infinity → infinity ≤ magnitude b }
    ensures { result ≡ quotient_pattern a b }
{
    let p = a % 0x8000000000000000;
    let o = b % 0x8000000000000000;
    if 0x7FF0000000000000 < p || 0x7FF0000000000000 < o {
        0x7FF8000000000000
    } else if p < 0x7FF0000000000000 {
        sign_of(a, b)
    } else if o < 0x7FF0000000000000 {
        sign_of(a, b) + 0x7FF0000000000000
    } else {
        0x7FF8000000000000
    }
}

// The pattern of the quotient of two doubles by their patterns, whatever they are.
pub fn quotient(a: u64, b: u64) -> u64
    ensures { result ≡ quotient_pattern a b }
{
    if a % 0x8000000000000000 < 0x7FF0000000000000 && b % 0x8000000000000000 < 0x7FF0000000000000 {
        finite_quotient(a, b)
    } else {
        infinite_quotient(a, b)
    }
}
