// The small functions that every crate uses: whether numbers are finite, clearing and copying, floats and their patterns.

#![tactic(auto)]

ghost use Rattle.std.specs.Prelude.{◌≡◌, true, false, ◌*◌, ◌≤◌, length};
ghost use Rattle.std.specs.Float.{binary64};
ghost use Rattle.std.specs.Float.Ieee.{of_bits, to_bits};
ghost use Rattle.std.specs.Float.Ieee.Scale.{finite};
ghost use Rattle.rules.specs.Numbers.{at, zeros, any};
ghost use Rattle.rules.specs.Refusals.{number_refused, some_number_refused};
ghost use Rattle.base_numbers.specs.Quarters.{difference_of_four};

// Whether a number is neither an infinity nor NaN.
pub fn is_finite(x: f64) -> bool
    ensures { result ≡ finite x }
{
    let infinity = f64::from_bits(0x7FF0000000000000);
    if x < infinity { -infinity < x } else { false }
}

// Whether a difference of four numbers, one of each quarter, is an infinity or NaN; where none is, neither is a number. The flag is kept to
// the last of them, so the compiler looks at several at a time. Not a public call: that the quarters lie in the slice is required.
fn any_difference_not_finite(s: &[f64], quarter: usize) -> bool
    requires { 4 * quarter ≤ length s.now }
    ensures { result ≡ any (λ k. number_refused (difference_of_four s.now quarter k)) quarter }
{
    let mut found = false;
    for i in 0..quarter {
        let lower = s[i] - s[quarter + i];
        let upper = s[2 * quarter + i] - s[3 * quarter + i];
        found = found | !is_finite(lower - upper);
    }
    found
}

// How many numbers in front are known to be finite by their differences: all but the last three at most, or none.
fn finite_in_front(s: &[f64]) -> usize
    ensures { (result ≤ length s.now) × (any (λ k. number_refused (at s.now k)) result ≡ false) }
{
    let quarter = s.len() / 4;
    if any_difference_not_finite(s, quarter) {
        return 0;
    }
    4 * quarter
}

// Whether an infinity or NaN is among the numbers. Not a public call: that none is among the first of them is required.
fn any_not_finite_from(s: &[f64], first: usize) -> bool
    requires { (first ≤ length s.now) × (any (λ k. number_refused (at s.now k)) first ≡ false) }
    ensures { result ≡ some_number_refused s.now }
{
    for i in first..s.len() {
        if !is_finite(s[i]) {
            return true;
        }
    }
    false
}

// Whether an infinity or NaN is among the numbers. The flag is kept to the last of them, so that the compiler looks at several at a time.
pub fn any_not_finite(s: &[f64]) -> bool
    ensures { result ≡ some_number_refused s.now }
{
    let mut found = false;
    for x in s {
        found = found | !is_finite(*x);
    }
    found
}

// The same by a difference for each four of the numbers, which takes less time where the processor has doubles. Where it has none each
// difference is a call, so only calls that compute far more than they look at take it.
pub fn any_of_many_not_finite(s: &[f64]) -> bool
    ensures { result ≡ some_number_refused s.now }
{
    any_not_finite_from(s, finite_in_front(s))
}

// Every number becomes +0.0.
pub fn clear(s: &mut [f64])
    ensures { s.new ≡ zeros (length s.old) }
{
    s.fill(0.0);
}

// The numbers of one slice go to another of the same length. By a loop, which compiles to memcpy: copy_from_slice would need memmove, which
// no host has to bring. Not a public call: the lengths are required.
pub fn copy(to: &mut [f64], from: &[f64])
    requires { length from.now ≡ length to.old }
    ensures { to.new ≡ from.now }
{
    for i in 0..from.len() {
        to[i] = from[i];
    }
}

// The float of any pattern: each pattern of a NaN gives the one NaN.
pub fn float_of(pattern: u64) -> f64
    ensures { result ≡ of_bits binary64 pattern }
{
    if 0x7FF0000000000000 < pattern % 0x8000000000000000 {
        0.0 / 0.0
    } else {
        f64::from_bits(pattern)
    }
}

// The pattern of a finite number. Not a public call: that it is finite is required.
pub fn pattern_of(x: f64) -> u64
    requires { finite x ≡ true }
    ensures { result ≡ to_bits binary64 x }
{
    f64::to_bits(x)
}
