// The ends' part of refusal 7, and refusal 9.
ghost use Rattle.std.specs.Prelude.{◌≡◌, ◌≤◌};
ghost use Rattle.rules.specs.Ends.{dropped, fewest_points};
ghost use Rattle.rules.specs.Refusals.{end_refused, ends_refused, some_ends_refused, fewness_refused, some_fewness_refused};
ghost use Rattle.grid.specs.GridOfCall.{sizes_of};

use rules::{Axis, Condition, End};

// Whether an end has a number that is infinite or NaN.
pub fn end_refused(end: End) -> bool
    ensures { result ≡ end_refused end }
{
    match end {
        End::NotAKnot => false,
        End::FirstDerivative(value) => !base_numbers::is_finite(value),
        End::SecondDerivative(value) => !base_numbers::is_finite(value),
    }
}

// Whether an end of a condition has a number that is infinite or NaN.
pub fn ends_refused(condition: Condition) -> bool
    ensures { result ≡ ends_refused condition }
{
    match condition {
        Condition::Endpoints(lower, upper) => {
            if end_refused(lower) {
                true
            } else {
                end_refused(upper)
            }
        }
        Condition::Periodic => false,
    }
}

// Whether an end of an axis in use has. Not a public call: at most four axes are required.
pub fn some_ends_refused(axes: usize, all: [Axis; 4]) -> bool
    requires { axes ≤ 4 }
    ensures { result ≡ some_ends_refused (sizes_of axes all) }
{
    for i in 0..axes {
        if ends_refused(all[i].condition) {
            return true;
        }
    }
    false
}

// How many unknowns an end drops.
fn dropped(end: End) -> usize
    ensures { (result ≡ dropped end) × (result ≤ 1) }
{
    match end {
        End::NotAKnot => 1,
        End::FirstDerivative(_) => 0,
        End::SecondDerivative(_) => 0,
    }
}

// The fewest points that an axis needs: 2, and one more for each end that is NotAKnot.
pub fn fewest_points(condition: Condition) -> usize
    ensures { result ≡ fewest_points condition }
{
    match condition {
        Condition::Endpoints(lower, upper) => 2 + dropped(lower) + dropped(upper),
        Condition::Periodic => 2,
    }
}

// Whether an axis of so many points has too few for its condition.
pub fn fewness_refused(condition: Condition, points: usize) -> bool
    ensures { result ≡ fewness_refused condition points }
{
    points < fewest_points(condition)
}

// Whether an axis in use has too few points for its condition. Not a public call: at most four axes are required.
pub fn some_fewness_refused(axes: usize, all: [Axis; 4]) -> bool
    requires { axes ≤ 4 }
    ensures { result ≡ some_fewness_refused (sizes_of axes all) }
{
    for i in 0..axes {
        if fewness_refused(all[i].condition, all[i].points) {
            return true;
        }
    }
    false
}
