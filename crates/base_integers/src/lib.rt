// Whole numbers: their laws (a number as a difference of two naturals, signs, what fits), and how far one lies from zero.

#![tactic(auto)]

ghost use Rattle.std.specs.Prelude.{◌≡◌, nat_abs};

// How far a number lies from zero. It refuses nothing.
pub fn magnitude(number: i32) -> u64
    ensures { result ≡ nat_abs number }
{
    number.unsigned_abs() as u64
}
