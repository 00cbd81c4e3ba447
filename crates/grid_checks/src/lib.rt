// Refusals 1 to 9 as code: for each public call the lowest number that it meets before it works, if there is one. Of a slice that
// the call will write, only the length is looked at. The pass over the knots for refusal 8 is made before the numbers are looked at for
// refusal 7: where it finds nothing, every knot is finite.

#![tactic(auto)]

ghost use Rattle.std.specs.Prelude.{◌≡◌, length};
ghost use Rattle.rules.specs.Sizes.{place_of, sum_below};
ghost use Rattle.rules.specs.Answers.{refusal_of};
ghost use Rattle.grid.specs.GridOfCall.{grid, InRange};
ghost use Rattle.grid_checks.specs.Check.{
  moments_check,
  curve_check,
  slopes_check,
  build_check,
  change_check,
  query_sizes_check,
  knots_and_coordinates_check,
};

use rules::{Axis, Condition, Refusal};

pub mod ends;
pub mod lengths;
pub mod numbers;
pub mod rising;
pub mod sizes;

// What the curve's moments meet: 2, 4, 5, 7, 8, 9, or none.
pub fn check_moments(
    points: usize,
    knots: &[f64],
    samples: &[f64],
    condition: Condition,
    moments_length: usize,
    scratch_length: usize,
) -> Result<(), Refusal>
    ensures { refusal_of result ≡ moments_check points knots.now samples.now condition moments_length scratch_length }
{
    if sizes::points_refused(points) {
        return Err(Refusal::Points);
    }
    if lengths::axis_refused(points, knots.len(), samples.len(), moments_length) {
        return Err(Refusal::Length);
    }
    if scratch_length < grid_scratch::ROWS {
        return Err(Refusal::Scratch);
    }
    let knots_refused = rising::knots_refused(knots);
    if numbers::moments_refused(knots_refused, knots, condition, samples) {
        return Err(Refusal::Number);
    }
    if knots_refused {
        return Err(Refusal::Knots);
    }
    if ends::fewness_refused(condition, points) {
        return Err(Refusal::Fewness);
    }
    Ok(())
}

// What the curve's value meets: 2, 4, 7, 8, or none.
pub fn check_curve(
    points: usize,
    knots: &[f64],
    samples: &[f64],
    moments_length: usize,
    point: f64,
) -> Result<(), Refusal>
    ensures { refusal_of result ≡ curve_check points knots.now samples.now moments_length point }
{
    if sizes::points_refused(points) {
        return Err(Refusal::Points);
    }
    if lengths::axis_refused(points, knots.len(), samples.len(), moments_length) {
        return Err(Refusal::Length);
    }
    let knots_refused = rising::knots_refused(knots);
    if numbers::curve_refused(knots_refused, knots, samples, point) {
        return Err(Refusal::Number);
    }
    if knots_refused {
        return Err(Refusal::Knots);
    }
    Ok(())
}

// What the knot slopes meet: 2, 4, 7, 8, or none.
pub fn check_slopes(
    points: usize,
    knots: &[f64],
    samples: &[f64],
    moments_length: usize,
    slopes_length: usize,
) -> Result<(), Refusal>
    ensures { refusal_of result ≡ slopes_check points knots.now samples.now moments_length slopes_length }
{
    if sizes::points_refused(points) {
        return Err(Refusal::Points);
    }
    if lengths::slopes_refused(
        points,
        knots.len(),
        samples.len(),
        moments_length,
        slopes_length,
    ) {
        return Err(Refusal::Length);
    }
    let knots_refused = rising::knots_refused(knots);
    if numbers::slices_refused(knots_refused, knots, samples) {
        return Err(Refusal::Number);
    }
    if knots_refused {
        return Err(Refusal::Knots);
    }
    Ok(())
}

// What a build meets: 1, 2, 3, 4, 5, 7, 8, 9, or none.
pub fn check_build(
    axes: usize,
    all: [Axis; 4],
    knots: &[f64],
    samples: &[f64],
    tensor_length: usize,
    scratch_length: usize,
) -> Result<(), Refusal>
    ensures { refusal_of result ≡ build_check (grid axes all knots.now) samples.now tensor_length scratch_length }
{
    sizes::check_sizes(axes, all)?;
    if lengths::build_refused(axes, all, knots.len(), samples.len(), tensor_length) {
        return Err(Refusal::Length);
    }
    if lengths::scratch_refused(axes, all, scratch_length) {
        return Err(Refusal::Scratch);
    }
    let knots_refused = rising::some_knots_refused(axes, all, knots);
    if numbers::build_refused(axes, all, knots_refused, knots, samples) {
        return Err(Refusal::Number);
    }
    if knots_refused {
        return Err(Refusal::Knots);
    }
    if ends::some_fewness_refused(axes, all) {
        return Err(Refusal::Fewness);
    }
    Ok(())
}

// What a change meets: 1, 2, 3, 4, 5, 6, 7, 8, 9, or none.
pub fn check_change(
    axes: usize,
    all: [Axis; 4],
    knots: &[f64],
    tensor: &[f64],
    scratch_length: usize,
    place: [usize; 4],
    sample: f64,
) -> Result<(), Refusal>
    ensures { refusal_of result ≡ change_check (grid axes all knots.now) tensor.now scratch_length (place_of place) sample }
{
    sizes::check_sizes(axes, all)?;
    if lengths::change_refused(axes, all, knots.len(), tensor.len()) {
        return Err(Refusal::Length);
    }
    if lengths::scratch_refused(axes, all, scratch_length) {
        return Err(Refusal::Scratch);
    }
    if sizes::place_refused(axes, all, place) {
        return Err(Refusal::Place);
    }
    let knots_refused = rising::some_knots_refused(axes, all, knots);
    if numbers::change_refused(axes, all, knots_refused, knots, sample, tensor) {
        return Err(Refusal::Number);
    }
    if knots_refused {
        return Err(Refusal::Knots);
    }
    if ends::some_fewness_refused(axes, all) {
        return Err(Refusal::Fewness);
    }
    Ok(())
}

// What a query meets of its sizes and lengths, on axes of so many points: 1, 2, 3, 4, or none. Not a public call: it requires four points.
pub fn check_query_sizes(
    axes: usize,
    points: &[usize],
    knots: usize,
    tensor: usize,
    coordinates: usize,
) -> Result<(), Refusal>
    requires { length points.now ≡ 4 }
    ensures { refusal_of result ≡ query_sizes_check axes (place_of points.now) knots tensor coordinates }
{
    if sizes::axes_refused(axes) {
        return Err(Refusal::Axes);
    }
    let found = sizes::sizes_of_points(axes, points)?;
    if lengths::query_lengths_refused(axes, found, knots, tensor, coordinates) {
        return Err(Refusal::Length);
    }
    Ok(())
}

// What a query meets of knots and coordinates: 7, 8, or none. Not a public call: it requires four points, and what refusals 1, 2 and 4 leave.
pub fn check_knots_and_coordinates(
    axes: usize,
    points: &[usize],
    knots: &[f64],
    coordinates: &[f64],
) -> Result<(), Refusal>
    requires { InRange axes (place_of points.now) × (length points.now ≡ 4)
        × (length knots.now ≡ sum_below (place_of points.now) axes) }
    ensures { refusal_of result ≡ knots_and_coordinates_check axes (place_of points.now) knots.now coordinates.now }
{
    let knots_refused = rising::knots_of_points_refused(axes, points, knots);
    if numbers::slices_refused(knots_refused, knots, coordinates) {
        return Err(Refusal::Number);
    }
    if knots_refused {
        return Err(Refusal::Knots);
    }
    Ok(())
}
