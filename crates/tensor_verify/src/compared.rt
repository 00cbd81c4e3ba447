// Numbers held against others, bit by bit. None of these is a public call: finite numbers, and as many of the others, are required.
ghost use Rattle.std.specs.Prelude.{◌≡◌, true, cond, length};
ghost use Rattle.std.specs.Float.Ieee.Scale.{finite};
ghost use Rattle.rules.specs.Refusals.{some_number_refused};
ghost use Rattle.rules.specs.Even.{first_that};
ghost use Rattle.tensor_verify.specs.Verify.{other_bits, count_that};
ghost use Rattle.tensor_verify.specs.Compared.{Comparable, differs_at};

// Whether two numbers have other bits.
fn differs(one: f64, other: f64) -> bool
    requires { (finite one ≡ true) × (finite other ≡ true) }
    ensures { result ≡ other_bits one other }
{
    base_numbers::pattern_of(one) != base_numbers::pattern_of(other)
}

// 1 where they have, else 0.
fn one_if_differs(one: f64, other: f64) -> usize
    requires { (finite one ≡ true) × (finite other ≡ true) }
    ensures { result ≡ cond (other_bits one other) 1 0 }
{
    if differs(one, other) { 1 } else { 0 }
}

// How many differ.
pub fn count_differing(ours: &[f64], others: &[f64]) -> usize
    requires { Comparable ours.now others.now }
    ensures { result ≡ count_that (differs_at ours.now others.now) (length ours.now) }
{
    let mut count = 0;
    for i in 0..ours.len() {
        count += one_if_differs(ours[i], others[i]);
    }
    count
}

// The first that differs, and 0 where none does.
pub fn first_differing(ours: &[f64], others: &[f64]) -> usize
    requires { Comparable ours.now others.now }
    ensures { result ≡ first_that (differs_at ours.now others.now) (length ours.now) 0 }
{
    for i in 0..ours.len() {
        if differs(ours[i], others[i]) {
            return i;
        }
    }
    0
}
