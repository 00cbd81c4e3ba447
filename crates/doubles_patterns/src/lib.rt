// A double's bit pattern taken apart, in whole numbers: its sign, its exponent and its digits. Nothing here knows a float.

#![tactic(auto)]

ghost use Rattle.std.specs.Prelude.{◌≡◌, ◌-◌, ◌*◌, ◌<◌, ◌≤◌};
ghost use Rattle.std.specs.Float.Ieee.{unlike, neg, of_bits};
ghost use Rattle.std.specs.Float.{binary64};
ghost use Rattle.doubles_patterns.specs.Patterns.{leading, top_place, infinity, negative, sign_weight, exponent_of};
ghost use Rattle.doubles_patterns.specs.Finite.{Fields, Raised};

// The digits of a magnitude with the leading one in its place, and the exponent that goes with them.
#[derive(Clone, Copy)]
pub struct Parts {
    pub digits: u64,
    pub exponent: u64,
}

// The exponent of a finite magnitude: its last digit weighs 2 ^ exponent of the smallest double.
pub fn exponent(p: u64) -> u64
    requires { p < infinity }
    ensures { (result ≡ exponent_of p) × Fields p result (p - result * leading) }
{
    let field = p / 0x10000000000000;
    if field == 0 { 0 } else { field - 1 }
}

// The parts of a finite magnitude that is not zero. Those of a subnormal number are moved up to where a normal number has them.
pub fn parts_of(p: u64) -> Parts
    requires { (0 < p) × (p < infinity) }
    ensures { Raised p result.digits result.exponent }
{
    let field = p / 0x10000000000000;
    if field == 0 {
        let up = u64::leading_zeros(p) as u64 - 11;
        Parts {
            digits: p << up,
            exponent: 52 - up,
        }
    } else {
        Parts {
            digits: p % 0x10000000000000 + 0x10000000000000,
            exponent: field + 51,
        }
    }
}

// The weight of the sign that a product or a quotient has.
pub fn sign_of(a: u64, b: u64) -> u64
    ensures { (result ≡ sign_weight (unlike (negative a) (negative b))) × (result ≤ top_place) }
{
    if a / 0x8000000000000000 == b / 0x8000000000000000 {
        0
    } else {
        0x8000000000000000
    }
}

// The pattern of the opposite number.
pub fn opposite(b: u64) -> u64
    ensures { of_bits binary64 result ≡ neg (of_bits binary64 b) }
{
    if b < 0x8000000000000000 {
        b + 0x8000000000000000
    } else {
        b - 0x8000000000000000
    }
}
