// The host's own refusal of many points to step at.
ghost use Rattle.std.specs.Prelude.{◌≡◌};
ghost use Rattle.rules.specs.Answers.{refusal_of};
ghost use Rattle.c_step_many.specs.ManyStepExports.{many_own_refusal};

use c_refusals::own::check_axes;
use c_step::directions::some_direction_refused;
use grid_checks::lengths::length_refused;
use many_points::lengths::points_lengths_refused;
use rules::Refusal;
use step_checks::stepped_lengths_refused;

// What the axes meet, and then 4 for the directions, for knots and samples and for what is lent of the points, and 22.
pub fn check_many(
    axes: usize,
    points: &[usize],
    numbers: &[u8],
    knots: &[f64],
    samples: &[f64],
    coordinates: &[f64],
    values: &[f64],
    indices: &[usize],
    refusals: &[usize],
) -> Result<(), Refusal>
    ensures { refusal_of result ≡ many_own_refusal axes points.now numbers.now knots.now samples.now
        coordinates.now values.now indices.now refusals.now }
{
    let found = check_axes(axes, points)?;
    if length_refused(numbers.len(), 4) {
        return Err(Refusal::Length);
    }
    if stepped_lengths_refused(axes, found, knots.len(), samples.len(), axes) {
        return Err(Refusal::Length);
    }
    if points_lengths_refused(
        axes,
        coordinates.len(),
        values.len(),
        indices.len(),
        refusals.len(),
    ) {
        return Err(Refusal::Length);
    }
    if some_direction_refused(axes, numbers) {
        return Err(Refusal::Mode);
    }
    Ok(())
}
