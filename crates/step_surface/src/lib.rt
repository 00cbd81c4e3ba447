// The stepped surface: a point steps to a knot on each axis, and the sample there is the answer.

#![tactic(auto)]

ghost use Rattle.std.specs.Prelude.{◌≡◌, length};
ghost use Rattle.rules.specs.Sizes.{place_of};
ghost use Rattle.rules.specs.Answers.{refusal_of, stepped_told};
ghost use Rattle.rules.specs.StepCalls.{SteppedPromise};
ghost use Rattle.grid.specs.GridOfCall.{grid};
ghost use Rattle.grid_checks.specs.Check.{knots_and_coordinates_check};
ghost use Rattle.step_checks.specs.StepsChecked.{AxesGiven};
ghost use Rattle.step_surface.specs.OnPoints.{SurfaceFits, OfAnyPoints};
ghost use Rattle.step_surface.specs.Indices.{OnAxes};

use rules::{Axis, Refusal, StepDirection, SteppedSample};

// The place that a point steps to: its number, and its index on each axis in use, 0 past them.
#[derive(Clone, Copy)]
struct Steps {
    number: usize,
    indices: [usize; 4],
}

// All axes in one loop. Not a public call: what the refusals leave is required, and four points.
fn steps_on_axes(
    axes: usize,
    points: &[usize],
    directions: [StepDirection; 4],
    knots: &[f64],
    coordinates: &[f64],
) -> Steps
    requires { (length points.now ≡ 4) × AxesGiven axes (place_of points.now) knots.now coordinates.now }
    ensures { OnAxes (place_of points.now) knots.now directions coordinates.now axes result.number
        result.indices }
{
    let mut indices = [0; 4];
    let mut number = 0;
    let mut begin = 0;
    for i in 0..axes {
        let end = begin + points[i];
        let index = step_axis::among::step_index(directions[i], &knots[begin..end], coordinates[i]);
        indices[i] = index;
        number = number * points[i] + index;
        begin = end;
    }
    Steps { number, indices }
}

// The answer at a point where 1 to 4 do not apply and knots and samples have met 7, 8 or none. Coordinates that are refused are 7, which
// stands before 8. Not a public call: all of this is required, and four points.
pub fn answer(
    met: Result<(), Refusal>,
    axes: usize,
    points: &[usize],
    directions: [StepDirection; 4],
    knots: &[f64],
    samples: &[f64],
    coordinates: &[f64],
) -> Result<SteppedSample, Refusal>
    requires { SurfaceFits axes points.now knots.now samples.now coordinates.now
        × (refusal_of met ≡ knots_and_coordinates_check axes (place_of points.now) knots.now samples.now) }
    ensures { OfAnyPoints axes points.now knots.now
        (λ g. SteppedPromise g directions samples.now coordinates.now (stepped_told result)) }
{
    if base_numbers::any_not_finite(coordinates) {
        return Err(Refusal::Number);
    }
    met?;
    let found = steps_on_axes(axes, points, directions, knots, coordinates);
    let value = samples[found.number];
    let indices = found.indices;
    Ok(SteppedSample { value, indices })
}

// The stepped surface on axes of these points, where 1 to 4 do not apply. The samples are looked at with the knots, as a query's
// coordinates are. Not a public call: that they do not is required, and four points.
pub fn stepped_of_points(
    axes: usize,
    points: &[usize],
    directions: [StepDirection; 4],
    knots: &[f64],
    samples: &[f64],
    coordinates: &[f64],
) -> Result<SteppedSample, Refusal>
    requires { SurfaceFits axes points.now knots.now samples.now coordinates.now }
    ensures { OfAnyPoints axes points.now knots.now
        (λ g. SteppedPromise g directions samples.now coordinates.now (stepped_told result)) }
{
    let met = grid_checks::check_knots_and_coordinates(axes, points, knots, samples);
    answer(met, axes, points, directions, knots, samples, coordinates)
}

// PUBLIC. The sample at the place that the coordinates step to, each axis in its own direction, and the indices of that place, 0 past the
// axes in use. Refuses 1 2 3 4 7 8.
pub fn stepped(
    axes: usize,
    all: [Axis; 4],
    directions: [StepDirection; 4],
    knots: &[f64],
    samples: &[f64],
    coordinates: &[f64],
) -> Result<SteppedSample, Refusal>
    ensures { SteppedPromise (grid axes all knots.now) directions samples.now coordinates.now (stepped_told result) }
{
    let points = grid::points_of(all);
    step_checks::check_stepped_sizes(axes, &points, knots.len(), samples.len(), coordinates.len())?;
    stepped_of_points(axes, &points, directions, knots, samples, coordinates)
}
