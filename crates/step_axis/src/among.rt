// A point among knots that were accepted. None of these is a public call: all but `location_refused` require what the refusals leave, or a
// part of it.
ghost use Rattle.std.specs.Prelude.{◌≡◌, ◌+◌, ◌<◌, length};
ghost use Rattle.rules.specs.Refusals.{location_refused};
ghost use Rattle.rules.specs.Step.{exact_index};
ghost use Rattle.rules.specs.declared.StepDirection as StepDirection;
ghost use Rattle.step_checks.specs.StepsChecked.{PointGiven};
ghost use Rattle.step_axis.specs.AmongKnots.{AxisLocated, Stepped};

use rules::{AxisLocation, StepDirection};

// Which of the knots at a lower index and after it equals the point, if one does.
pub fn exact_index(knots: &[f64], lower: usize, point: f64) -> Option<usize>
    requires { lower + 1 < length knots.now }
    ensures { result ≡ exact_index knots.now lower point }
{
    if knots[lower] == point {
        return Some(lower);
    }
    if knots[lower + 1] == point {
        return Some(lower + 1);
    }
    None
}

// Where a point lies: on a knot, or in its cell at a fraction of the width.
pub fn locate_axis(knots: &[f64], point: f64) -> AxisLocation
    requires { PointGiven (length knots.now) knots.now point }
    ensures { AxisLocated knots.now point result }
{
    let lower = axis_locate::locate_lower_index(knots, point);
    match exact_index(knots, lower, point) {
        Some(index) => AxisLocation::Exact(index),
        None => AxisLocation::Between {
            lower,
            frac: (point - knots[lower]) / (knots[lower + 1] - knots[lower]),
        },
    }
}

// Whether a location has a fraction that is infinite or NaN.
pub fn location_refused(location: AxisLocation) -> bool
    ensures { result ≡ location_refused location }
{
    match location {
        AxisLocation::Exact(_) => false,
        AxisLocation::Between { lower: _, frac } => !base_numbers::is_finite(frac),
    }
}

// The step downward.
fn lower_step(knots: &[f64], point: f64) -> usize
    requires { PointGiven (length knots.now) knots.now point }
    ensures { Stepped StepDirection.Lower knots.now point result }
{
    let lower = axis_locate::locate_lower_index(knots, point);
    if point == knots[knots.len() - 1] {
        return knots.len() - 1;
    }
    if point == knots[lower + 1] {
        return lower + 1;
    }
    lower
}

// The step upward.
fn upper_step(knots: &[f64], point: f64) -> usize
    requires { PointGiven (length knots.now) knots.now point }
    ensures { Stepped StepDirection.Upper knots.now point result }
{
    if point == knots[0] {
        return 0;
    }
    axis_locate::locate_lower_index(knots, point) + 1
}

// The index of the knot that a point steps to. It is not inlined: in the loop over the axes of a point, the compiler would make the search
// take a branch at each knot that it looks at.
#[inline(never)]
pub fn step_index(direction: StepDirection, knots: &[f64], point: f64) -> usize
    requires { PointGiven (length knots.now) knots.now point }
    ensures { Stepped direction knots.now point result }
{
    match direction {
        StepDirection::Lower => lower_step(knots, point),
        StepDirection::Upper => upper_step(knots, point),
    }
}
