// Two doubles compared by their bit patterns, in whole numbers: magnitudes are in the order of their patterns. Nothing here knows a float.

#![tactic(auto)]

ghost use Rattle.std.specs.Prelude.{◌≡◌};
ghost use Rattle.doubles_patterns.specs.Doubles.{is_less, is_at_most, is_equal, is_unordered};

// Whether the first of two doubles is less than the second; never where one is a NaN, nor of two zeros.
pub fn less(a: u64, b: u64) -> bool
    ensures { result ≡ is_less a b }
{
    let p = a % 0x8000000000000000;
    let o = b % 0x8000000000000000;
    if 0x7FF0000000000000 < p || 0x7FF0000000000000 < o {
        false
    } else if a < 0x8000000000000000 {
        b < 0x8000000000000000 && p < o
    } else if b < 0x8000000000000000 {
        0 < p + o
    } else {
        o < p
    }
}

// Whether two doubles are equal; zeros are, whatever their signs, and a NaN is equal to nothing.
// It returns at a NaN: in one chain of ifs the compiler has `at_most` look for a NaN twice.
pub fn equal(a: u64, b: u64) -> bool
    ensures { result ≡ is_equal a b }
{
    let p = a % 0x8000000000000000;
    let o = b % 0x8000000000000000;
    if 0x7FF0000000000000 < p || 0x7FF0000000000000 < o {
        return false;
    }
    if p == 0 { o == 0 } else { a == b }
}

// Whether the first of two doubles is less than the second, or equal to it.
pub fn at_most(a: u64, b: u64) -> bool
    ensures { result ≡ is_at_most a b }
{
    less(a, b) || equal(a, b)
}

// Whether one of two doubles is a NaN.
pub fn unordered(a: u64, b: u64) -> bool
    ensures { result ≡ is_unordered a b }
{
    0x7FF0000000000000 < a % 0x8000000000000000 || 0x7FF0000000000000 < b % 0x8000000000000000
}
