// The stepped surface at many points by one call: sizes and lengths, knots and samples are looked at once, and each point has the answer of
// the call for that one. A point that is refused stops nothing.

#![tactic(auto)]

ghost use Rattle.std.specs.Prelude.{◌≡◌, cond, length};
ghost use Rattle.rules.specs.Sizes.{place_of};
ghost use Rattle.rules.specs.Answers.{refusal_of};
ghost use Rattle.rules.specs.Calls.{or_else};
ghost use Rattle.grid.specs.GridOfCall.{grid};
ghost use Rattle.many_points.specs.ManyPoints.{points_lengths_refused};
ghost use Rattle.step_checks.specs.StepChecks.{stepped_sizes_check};
ghost use Rattle.step_many.specs.ManySteps.{SteppedManyPromise};

use many_points::lengths;
use rules::{Axis, Refusal, StepDirection};

pub mod each; // each.rt: one point after the other

// What is met of sizes and lengths: 1, 2, 3, 4, or none. Not a public call: it requires four points.
fn check_many(
    axes: usize,
    points: &[usize],
    knots: usize,
    samples: usize,
    coordinates: usize,
    values: usize,
    indices: usize,
    count: usize,
) -> Result<(), Refusal>
    requires { length points.now ≡ 4 }
    ensures { refusal_of result ≡ or_else (stepped_sizes_check axes (place_of points.now) knots samples axes)
        (cond (points_lengths_refused axes coordinates values indices count) 4 0) }
{
    step_checks::check_stepped_sizes(axes, points, knots, samples, axes)?;
    if lengths::points_lengths_refused(axes, coordinates, values, indices, count) {
        return Err(Refusal::Length);
    }
    Ok(())
}

// PUBLIC. The stepped surface at each of as many points as refusals are lent: the coordinates of a point stand after those of the point
// before it, and so do its four indices. Each value, each four indices and each refusal are those that the stepped surface gives for that
// point alone; a point that is refused stops nothing. Refuses 1 2 3 4, in this order, and then nothing is written.
pub fn stepped_many(
    axes: usize,
    all: [Axis; 4],
    directions: [StepDirection; 4],
    knots: &[f64],
    samples: &[f64],
    coordinates: &[f64],
    values: &mut [f64],
    indices: &mut [usize],
    refusals: &mut [usize],
) -> Result<(), Refusal>
    ensures { SteppedManyPromise (grid axes all knots.now) directions samples.now coordinates.now
        values.old indices.old refusals.old (refusal_of result) values.new indices.new
        refusals.new }
{
    let points = grid::points_of(all);
    check_many(
        axes,
        &points,
        knots.len(),
        samples.len(),
        coordinates.len(),
        values.len(),
        indices.len(),
        refusals.len(),
    )?;
    each::answer_each(
        axes,
        &points,
        directions,
        knots,
        samples,
        coordinates,
        values,
        indices,
        refusals,
    );
    Ok(())
}
