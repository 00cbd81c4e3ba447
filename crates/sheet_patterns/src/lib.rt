// Coordinates, a value and a refusal as 64-bit patterns: what firmware hands over and receives. None of these is a public call.

#![tactic(auto)]

ghost use Rattle.std.specs.Prelude.{◌≡◌, true, ◌≤◌};
ghost use Rattle.std.specs.Float.Ieee.Scale.{finite};
ghost use Rattle.std.specs.Result.{IfOk};
ghost use Rattle.rules.specs.Answers.{number_of};
ghost use Rattle.sheet_patterns.specs.Patterns.{coordinates, unused_refused, refusal_pattern, pattern_told};

use base_numbers::{float_of, pattern_of};
use rules::Refusal;

// The coordinates of all four patterns.
pub fn coordinates_of(patterns: [u64; 4]) -> [f64; 4]
    ensures { result ≡ coordinates 4 patterns }
{
    [
        float_of(patterns[0]),
        float_of(patterns[1]),
        float_of(patterns[2]),
        float_of(patterns[3]),
    ]
}

// Whether a pattern past the axes in use is not 0.
pub fn is_unused_refused(axes: usize, patterns: [u64; 4]) -> bool
    requires { axes ≤ 4 }
    ensures { result ≡ unused_refused axes patterns }
{
    patterns[axes..].iter().any(|pattern| *pattern != 0)
}

// The pattern of a refusal.
fn refusal_pattern(refusal: Refusal) -> u64
    ensures { result ≡ refusal_pattern (number_of refusal) }
{
    0x7FF8000000000000 + refusal.number() as u64
}

// The pattern of what a call gives: of its refusal, or of its value, which is finite.
pub fn answer_pattern(given: Result<f64, Refusal>) -> u64
    requires { IfOk given (λ value. finite value ≡ true) }
    ensures { result ≡ pattern_told given }
{
    match given {
        Ok(value) => pattern_of(value),
        Err(refusal) => refusal_pattern(refusal),
    }
}
