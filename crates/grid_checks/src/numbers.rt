// Refusal 7: whether all that a call was given is finite. What looks at knots is told whether refusal 8 applies to them, and requires that
// they are finite where it does not: the steps between them are finite then, and so are they. None of these is a public call.
ghost use Rattle.std.specs.Prelude.{◌≡◌, ◌||◌, ◌≤◌};
ghost use Rattle.rules.specs.Refusals.{number_refused, some_number_refused, ends_refused, some_ends_refused};
ghost use Rattle.grid_checks.specs.Checked.{FiniteUnless};
ghost use Rattle.grid.specs.GridOfCall.{sizes_of};

use crate::ends;
use rules::{Axis, Condition};

// Whether a number is an infinity or NaN.
pub fn number_refused(number: f64) -> bool
    ensures { result ≡ number_refused number }
{
    !base_numbers::is_finite(number)
}

// Whether an infinity or NaN is among the knots.
pub fn some_knot_refused(knots_refused: bool, knots: &[f64]) -> bool
    requires { FiniteUnless knots_refused knots.now }
    ensures { result ≡ some_number_refused knots.now }
{
    if knots_refused {
        base_numbers::any_not_finite(knots)
    } else {
        false
    }
}

// Whether an infinity or NaN is among the knots or the others, which are samples or coordinates.
pub fn slices_refused(knots_refused: bool, knots: &[f64], others: &[f64]) -> bool
    requires { FiniteUnless knots_refused knots.now }
    ensures { result ≡ (some_number_refused knots.now || some_number_refused others.now) }
{
    if some_knot_refused(knots_refused, knots) {
        return true;
    }
    base_numbers::any_not_finite(others)
}

// Whether an infinity or NaN is among knots and samples, or is the point of a curve.
pub fn curve_refused(knots_refused: bool, knots: &[f64], samples: &[f64], point: f64) -> bool
    requires { FiniteUnless knots_refused knots.now }
    ensures { result ≡ (some_number_refused knots.now || some_number_refused samples.now || number_refused point) }
{
    if slices_refused(knots_refused, knots, samples) {
        return true;
    }
    number_refused(point)
}

// Whether an infinity or NaN is among the knots, the ends and the samples of an axis.
pub fn moments_refused(
    knots_refused: bool,
    knots: &[f64],
    condition: Condition,
    samples: &[f64],
) -> bool
    requires { FiniteUnless knots_refused knots.now }
    ensures { result ≡ (some_number_refused knots.now || ends_refused condition || some_number_refused samples.now) }
{
    if some_knot_refused(knots_refused, knots) {
        return true;
    }
    if ends::ends_refused(condition) {
        return true;
    }
    base_numbers::any_not_finite(samples)
}

// Whether an infinity or NaN is among the knots and the ends of a grid. It requires at most four axes besides.
fn grid_refused(axes: usize, all: [Axis; 4], knots_refused: bool, knots: &[f64]) -> bool
    requires { (axes ≤ 4) × FiniteUnless knots_refused knots.now }
    ensures { result ≡ (some_number_refused knots.now || some_ends_refused (sizes_of axes all)) }
{
    if some_knot_refused(knots_refused, knots) {
        return true;
    }
    ends::some_ends_refused(axes, all)
}

// Whether an infinity or NaN is among the knots, the ends and the samples of a grid. It requires at most four axes besides.
pub fn build_refused(
    axes: usize,
    all: [Axis; 4],
    knots_refused: bool,
    knots: &[f64],
    samples: &[f64],
) -> bool
    requires { (axes ≤ 4) × FiniteUnless knots_refused knots.now }
    ensures { result ≡
        (some_number_refused knots.now || some_ends_refused (sizes_of axes all) || some_number_refused samples.now) }
{
    if grid_refused(axes, all, knots_refused, knots) {
        return true;
    }
    base_numbers::any_of_many_not_finite(samples)
}

// Whether an infinity or NaN is among the knots and the ends of a grid, is the new sample, or is in the tensor. It requires at most four
// axes besides.
pub fn change_refused(
    axes: usize,
    all: [Axis; 4],
    knots_refused: bool,
    knots: &[f64],
    sample: f64,
    tensor: &[f64],
) -> bool
    requires { (axes ≤ 4) × FiniteUnless knots_refused knots.now }
    ensures { result ≡
        (some_number_refused knots.now || some_ends_refused (sizes_of axes all) || number_refused sample
        || some_number_refused tensor.now) }
{
    if grid_refused(axes, all, knots_refused, knots) {
        return true;
    }
    if number_refused(sample) {
        return true;
    }
    base_numbers::any_of_many_not_finite(tensor)
}
