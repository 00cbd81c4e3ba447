// The host's own refusal of many points.
ghost use Rattle.std.specs.Prelude.{◌≡◌};
ghost use Rattle.rules.specs.Answers.{refusal_of};
ghost use Rattle.c_many.specs.ManyExports.{queries_own_refusal};

use c_axes::some_modes_refused;
use c_refusals::own::check_axes;
use grid_checks::lengths::length_refused;
use many_points::lengths::points_lengths_refused;
use rules::Refusal;

// What the axes meet, and then 4 for the modes, the knots, the tensor and what is lent of the points, and 22.
pub fn check_queries(
    axes: usize,
    points: &[usize],
    modes: &[u8],
    knots: &[f64],
    tensor: &[f64],
    coordinates: &[f64],
    values: &[f64],
    labels: &[usize],
    refusals: &[usize],
) -> Result<(), Refusal>
    ensures { refusal_of result ≡ queries_own_refusal axes points.now modes.now knots.now tensor.now
        coordinates.now values.now labels.now refusals.now }
{
    let found = check_axes(axes, points)?;
    if length_refused(modes.len(), 4) {
        return Err(Refusal::Length);
    }
    if length_refused(knots.len(), found.knots) {
        return Err(Refusal::Length);
    }
    if length_refused(tensor.len(), found.numbers) {
        return Err(Refusal::Length);
    }
    if points_lengths_refused(
        axes,
        coordinates.len(),
        values.len(),
        labels.len(),
        refusals.len(),
    ) {
        return Err(Refusal::Length);
    }
    if some_modes_refused(axes, modes) {
        return Err(Refusal::Mode);
    }
    Ok(())
}
