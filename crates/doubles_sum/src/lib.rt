// The sum and the difference of two doubles by their bit patterns, in whole numbers: the larger magnitude first, the smaller one's digits
// moved down to its scale. Nothing here knows a float.

#![tactic(auto)]

ghost use Rattle.std.specs.Prelude.{◌≡◌, ◌+◌, ◌-◌, ◌<◌, ◌≤◌};
ghost use Rattle.std.specs.Float.{binary64};
ghost use Rattle.doubles_patterns.specs.Doubles.{sum_pattern, difference_pattern};
ghost use Rattle.doubles_patterns.specs.Patterns.{infinity, magnitude, pattern, units_of};
ghost use Rattle.doubles_sum.specs.BothOrders.{BothOrders};

use doubles_patterns::{exponent, opposite};
use doubles_rounding::{moved_down, rounded, top_rounded};

// The pattern of the sum of two magnitudes, the larger one first.
fn magnitudes_added(p: u64, o: u64) -> u64
    requires { (o ≤ p) × (p < infinity) }
    ensures { (result ≡ pattern binary64 (units_of p + units_of o) 1) × (result ≤ infinity) }
{
    let e = exponent(p);
    let f = exponent(o);
    let aligned = moved_down((o - f * 0x10000000000000) * 1024, e - f);
    top_rounded((p - e * 0x10000000000000) * 1024 + aligned, e)
}

// The pattern of the difference of two magnitudes, the larger one first.
fn magnitudes_subtracted(p: u64, o: u64) -> u64
    requires { (o < p) × (p < infinity) }
    ensures { (result ≡ pattern binary64 (units_of p - units_of o) 1) × (result ≤ infinity) }
{
    let e = exponent(p);
    let f = exponent(o);
    let aligned = moved_down((o - f * 0x10000000000000) * 1024, e - f);
    rounded((p - e * 0x10000000000000) * 1024 - aligned, e)
}

// The sum of two finite doubles, the one of larger magnitude first.
fn finite_sum(a: u64, b: u64) -> u64
    requires { (magnitude b ≤ magnitude a) × (magnitude a < infinity) }
    ensures { BothOrders a b result }
{
    let p = a % 0x8000000000000000;
    let o = b % 0x8000000000000000;
    if a / 0x8000000000000000 == b / 0x8000000000000000 {
        (a - p) + magnitudes_added(p, o)
    } else if o == p {
        0
    } else {
        (a - p) + magnitudes_subtracted(p, o)
    }
}

// The sum of an infinity and what is no NaN: NaN for two infinities of unlike signs.
fn infinite_sum(a: u64, b: u64) -> u64
    requires { (magnitude b ≤ magnitude a) × (magnitude a ≡ infinity) }
    ensures { BothOrders a b result }
{
    if b % 0x8000000000000000 == 0x7FF0000000000000 {
        if a == b { a } else { 0x7FF8000000000000 }
    } else {
        a
    }
}

// The sum of two doubles, the one of larger magnitude first.
fn larger_first(a: u64, b: u64) -> u64
    requires { magnitude b ≤ magnitude a }
    ensures { BothOrders a b result }
{
    let p = a % 0x8000000000000000;
    if p < 0x7FF0000000000000 {
        finite_sum(a, b)
    } else if p == 0x7FF0000000000000 {
        infinite_sum(a, b)
    } else {
        0x7FF8000000000000
    }
}

// The pattern of the sum of two doubles by their patterns, whatever they are.
pub fn sum(a: u64, b: u64) -> u64
    ensures { result ≡ sum_pattern a b }
{
    if a % 0x8000000000000000 < b % 0x8000000000000000 {
        larger_first(b, a)
    } else {
        larger_first(a, b)
    }
}

// The pattern of the difference of two doubles by their patterns, whatever they are.
pub fn difference(a: u64, b: u64) -> u64
    ensures { result ≡ difference_pattern a b }
{
    sum(a, opposite(b))
}
