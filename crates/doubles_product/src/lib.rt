// The product of two doubles by their bit patterns, in whole numbers: the upper word of the digits' product, with the lower one kept as its
// last place. Nothing here knows a float.

#![tactic(auto)]

ghost use Rattle.std.specs.Prelude.{◌≡◌, true, ◌*◌, ◌<◌, ◌≤◌};
ghost use Rattle.doubles_patterns.specs.Doubles.{product_pattern};
ghost use Rattle.doubles_patterns.specs.Patterns.{word, leading, infinity, magnitude, units_of, product_of_units};
ghost use Rattle.doubles_rounding.specs.Standing.{StandsFor};

use doubles_patterns::{parts_of, sign_of};
use doubles_rounding::{placed, top_rounded};

// The upper word of u * v, by halves of 32 places. Where the lower word is not zero, the last place is made odd.
fn upper_product(u: u64, v: u64) -> u64
    ensures { StandsFor result (u * v) word }
{
    let u0 = u % 0x100000000;
    let u1 = u / 0x100000000;
    let v0 = v % 0x100000000;
    let v1 = v / 0x100000000;
    let lowest = u0 * v0;
    let middle = u1 * v0 + lowest / 0x100000000;
    let other = u0 * v1 + middle % 0x100000000;
    let high = u1 * v1 + middle / 0x100000000 + other / 0x100000000;
    if lowest % 0x100000000 + other % 0x100000000 == 0 {
        high
    } else {
        high / 2 * 2 + 1
    }
}

// The pattern of the product of two finite magnitudes, neither of them zero.
fn magnitudes_multiplied(p: u64, o: u64) -> u64
    requires { (0 < p) × (0 < o) × (p < infinity) × (o < infinity) }
    ensures { (result ≡ product_of_units (units_of p) (units_of o)) × (result ≤ infinity) }
{
    let first = parts_of(p);
    let second = parts_of(o);
    placed(
        upper_product(first.digits * 2048, second.digits * 2048),
        first.exponent + second.exponent,
        1126,
    )
}

// The same of two normal magnitudes, whose digits stand where they are wanted. The product of most is normal too, and is rounded at once.
fn normals_multiplied(p: u64, o: u64) -> u64
    requires { (leading ≤ p) × (p < infinity) × (leading ≤ o) × (o < infinity) }
    ensures { (result ≡ product_of_units (units_of p) (units_of o)) × (result ≤ infinity) }
{
    let upper = upper_product(
        (p % 0x10000000000000 + 0x10000000000000) * 2048,
        (o % 0x10000000000000 + 0x10000000000000) * 2048,
    );
    let exponent = (p / 0x10000000000000 + 51) + (o / 0x10000000000000 + 51);
    if 1126 <= exponent {
        top_rounded(upper, exponent - 1126)
    } else {
        placed(upper, exponent, 1126)
    }
}

// Whether both of two magnitudes are those of normal numbers.
fn both_normal(p: u64, o: u64) -> bool
    ensures { result ≡ true → (leading ≤ p) × (p < infinity) × (leading ≤ o) × (o < infinity) }
{
    0x10000000000000 <= p
        && 0x10000000000000 <= o
        && p < 0x7FF0000000000000
        && o < 0x7FF0000000000000
}

// The product of two finite doubles.
fn finite_product(a: u64, b: u64) -> u64
    requires { (magnitude a < infinity) × (magnitude b < infinity) }
    ensures { result ≡ product_pattern a b }
{
    let p = a % 0x8000000000000000;
    let o = b % 0x8000000000000000;
    if p == 0 || o == 0 {
        sign_of(a, b)
    } else {
        sign_of(a, b) + magnitudes_multiplied(p, o)
    }
}

// The product of two doubles of which one at least is not finite: NaN with a NaN, and for an infinity and zero.
fn infinite_product(a: u64, b: u64) -> u64
    requires { magnitude a < infinity → infinity ≤ magnitude b }
    ensures { result ≡ product_pattern a b }
{
    let p = a % 0x8000000000000000;
    let o = b % 0x8000000000000000;
    if 0x7FF0000000000000 < p || 0x7FF0000000000000 < o || p == 0 || o == 0 {
        0x7FF8000000000000
    } else {
        sign_of(a, b) + 0x7FF0000000000000
    }
}

// The product of two doubles by their patterns; `product` comes here where one of them is not a normal number.
fn other_product(a: u64, b: u64) -> u64
    ensures { result ≡ product_pattern a b }
{
    if a % 0x8000000000000000 < 0x7FF0000000000000 && b % 0x8000000000000000 < 0x7FF0000000000000 {
        finite_product(a, b)
    } else {
        infinite_product(a, b)
    }
}

// The pattern of the product of two doubles by their patterns, whatever they are. Normal numbers, which most are, go first.
pub fn product(a: u64, b: u64) -> u64
    ensures { result ≡ product_pattern a b }
{
    let p = a % 0x8000000000000000;
    let o = b % 0x8000000000000000;
    if both_normal(p, o) {
        sign_of(a, b) + normals_multiplied(p, o)
    } else {
        other_product(a, b)
    }
}
