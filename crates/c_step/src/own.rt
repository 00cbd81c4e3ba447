// The host's own refusals of steps: with axes 1, 4 for the points, 2, 3, 4 for every other slice and slot, and 22 for the directions; on
// one axis 2, 4 and 22. Where none applies, the call's own follow.
ghost use Rattle.std.specs.Prelude.{◌≡◌};
ghost use Rattle.rules.specs.Answers.{refusal_of};
ghost use Rattle.c_step.specs.StepExports.{
  exact_own_refusal,
  axis_own_refusal,
  step_own_refusal,
  stepped_slots_refused,
  stepped_own_refusal,
};

use crate::{directions, slots};
use c_refusals::own::{check_axes, query_slots_refused};
use grid_checks::{lengths, sizes};
use rules::Refusal;

// Of the exact index: its slot.
pub fn check_exact(points: usize, found: &[usize]) -> Result<(), Refusal>
    ensures { refusal_of result ≡ exact_own_refusal points found.now }
{
    if sizes::points_refused(points) {
        return Err(Refusal::Points);
    }
    if lengths::length_refused(found.len(), 2) {
        return Err(Refusal::Length);
    }
    Ok(())
}

// Of the location: its slots.
pub fn check_axis(points: usize, location: &[usize], fraction: &[f64]) -> Result<(), Refusal>
    ensures { refusal_of result ≡ axis_own_refusal points location.now fraction.now }
{
    if sizes::points_refused(points) {
        return Err(Refusal::Points);
    }
    if slots::location_slots_refused(location, fraction) {
        return Err(Refusal::Length);
    }
    Ok(())
}

// Of the index of a step: its slot and the call's own slice, which 22 comes after.
pub fn check_step(
    points: usize,
    knots: &[f64],
    direction: u8,
    index: &[usize],
) -> Result<(), Refusal>
    ensures { refusal_of result ≡ step_own_refusal points knots.now direction index.now }
{
    if sizes::points_refused(points) {
        return Err(Refusal::Points);
    }
    if lengths::length_refused(index.len(), 1) {
        return Err(Refusal::Length);
    }
    if lengths::length_refused(knots.len(), points) {
        return Err(Refusal::Length);
    }
    if 1 < direction {
        return Err(Refusal::Mode);
    }
    Ok(())
}

// Whether the directions or a slot of the answer are of another length.
fn stepped_slots_refused(directions: &[u8], value: &[f64], indices: &[usize]) -> bool
    ensures { result ≡ stepped_slots_refused directions.now value.now indices.now }
{
    lengths::length_refused(directions.len(), 4) || query_slots_refused(value, indices)
}

// Of the stepped surface: the directions, the slots of its answer, and the call's own slices, which 22 comes after.
pub fn check_stepped(
    axes: usize,
    points: &[usize],
    numbers: &[u8],
    knots: &[f64],
    samples: &[f64],
    coordinates: &[f64],
    value: &[f64],
    indices: &[usize],
) -> Result<(), Refusal>
    ensures { refusal_of result ≡ stepped_own_refusal axes points.now numbers.now knots.now samples.now
        coordinates.now value.now indices.now }
{
    let found = check_axes(axes, points)?;
    if stepped_slots_refused(numbers, value, indices) {
        return Err(Refusal::Length);
    }
    if step_checks::stepped_lengths_refused(
        axes,
        found,
        knots.len(),
        samples.len(),
        coordinates.len(),
    ) {
        return Err(Refusal::Length);
    }
    if directions::some_direction_refused(axes, numbers) {
        return Err(Refusal::Mode);
    }
    Ok(())
}
