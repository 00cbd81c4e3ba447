// The calls of steps on one axis: whether a point is a knot, where it lies among them, and the knot that it steps to.

#![tactic(auto)]

ghost use Rattle.rules.specs.Answers.{exact_told, axis_told, step_told};
ghost use Rattle.rules.specs.StepCalls.{ExactPromise, AxisPromise, StepPromise};

use rules::{AxisLocation, Refusal, StepDirection};

pub mod among; // among.rt: the same among knots that were accepted

// PUBLIC. Which of the knots at a lower index and after it equals the point, if one does, as the Rust's `exact_index`. Refuses 2 4 6 7 8.
pub fn exact_index(
    points: usize,
    knots: &[f64],
    lower: usize,
    point: f64,
) -> Result<Option<usize>, Refusal>
    ensures { ExactPromise points knots.now lower point (exact_told result) }
{
    step_checks::check_exact(points, knots, lower, point)?;
    Ok(among::exact_index(knots, lower, point))
}

// PUBLIC. Where a point lies: on a knot, or in a cell at a fraction of its width, as the Rust's `locate_axis`. Refuses 2 4 7 8, and 10 for
// a fraction that is infinite or NaN.
pub fn locate_axis(points: usize, knots: &[f64], point: f64) -> Result<AxisLocation, Refusal>
    ensures { AxisPromise points knots.now point (axis_told result) }
{
    step_checks::check_point(points, knots, point)?;
    let location = among::locate_axis(knots, point);
    if among::location_refused(location) {
        return Err(Refusal::Outcome);
    }
    Ok(location)
}

// PUBLIC. The index of the knot that a point steps to, downward or upward, as the Rust's `locate_step_index`. Refuses 2 4 7 8.
pub fn locate_step_index(
    direction: StepDirection,
    points: usize,
    knots: &[f64],
    point: f64,
) -> Result<usize, Refusal>
    ensures { StepPromise direction points knots.now point (step_told result) }
{
    step_checks::check_point(points, knots, point)?;
    Ok(among::step_index(direction, knots, point))
}
