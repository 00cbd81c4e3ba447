// The refusals of steps as code: for each public call the first number that it meets before it works, if there is one; of the
// stepped surface those of its sizes and lengths. The pass over the knots for refusal 8 is made before they are looked at for refusal 7, as
// in `grid_checks`.

#![tactic(auto)]

ghost use Rattle.std.specs.Prelude.{◌≡◌, false, ◌||◌, ◌/◌, ◌^◌, ◌≤◌, length};
ghost use Rattle.rules.specs.Sizes.{place_of};
ghost use Rattle.rules.specs.Answers.{refusal_of};
ghost use Rattle.rules.specs.Refusals.{points_refused, length_refused};
ghost use Rattle.step_checks.specs.StepChecks.{axis_check, numbers_check, point_check, exact_check, stepped_sizes_check};

use grid_checks::sizes::Sizes;
use grid_checks::{lengths, numbers, rising, sizes};
use rules::Refusal;

// What the points and the number of knots of an axis meet: 2, 4, or none.
fn check_axis(points: usize, knots: usize) -> Result<(), Refusal>
    ensures { refusal_of result ≡ axis_check points knots }
{
    if sizes::points_refused(points) {
        return Err(Refusal::Points);
    }
    if lengths::length_refused(knots, points) {
        return Err(Refusal::Length);
    }
    Ok(())
}

// What the knots and a point meet: 7, 8, or none. Not a public call: what refusals 2 and 4 leave is required.
fn check_numbers(knots: &[f64], point: f64) -> Result<(), Refusal>
    requires { points_refused (length knots.now) ≡ false }
    ensures { refusal_of result ≡ numbers_check (length knots.now) knots.now point }
{
    let knots_refused = rising::knots_refused(knots);
    if numbers::some_knot_refused(knots_refused, knots) {
        return Err(Refusal::Number);
    }
    if numbers::number_refused(point) {
        return Err(Refusal::Number);
    }
    if knots_refused {
        return Err(Refusal::Knots);
    }
    Ok(())
}

// What the location of a point and its step meet: 2, 4, 7, 8, or none.
pub fn check_point(points: usize, knots: &[f64], point: f64) -> Result<(), Refusal>
    ensures { refusal_of result ≡ point_check points knots.now point }
{
    check_axis(points, knots.len())?;
    check_numbers(knots, point)
}

// What the exact index meets: 2, 4, 6, 7, 8, or none.
pub fn check_exact(points: usize, knots: &[f64], lower: usize, point: f64) -> Result<(), Refusal>
    ensures { refusal_of result ≡ exact_check points knots.now lower point }
{
    check_axis(points, knots.len())?;
    if points - 2 < lower {
        return Err(Refusal::Place);
    }
    check_numbers(knots, point)
}

// Whether knots, samples or coordinates are not as long as a stepped surface on axes of these sizes asks for: of a tensor's numbers one for
// each mask is a sample. Not a public call: at most four axes are required.
pub fn stepped_lengths_refused(
    axes: usize,
    sizes: Sizes,
    knots: usize,
    samples: usize,
    coordinates: usize,
) -> bool
    requires { axes ≤ 4 }
    ensures { result ≡
        (length_refused knots sizes.knots || length_refused samples (sizes.numbers / 2 ^ axes) || length_refused coordinates axes) }
{
    if lengths::length_refused(knots, sizes.knots) {
        return true;
    }
    if lengths::length_refused(samples, sizes.numbers >> axes) {
        return true;
    }
    lengths::length_refused(coordinates, axes)
}

// What the stepped surface meets of its sizes and lengths: 1, 2, 3, 4, or none. Not a public call: four points are required.
pub fn check_stepped_sizes(
    axes: usize,
    points: &[usize],
    knots: usize,
    samples: usize,
    coordinates: usize,
) -> Result<(), Refusal>
    requires { length points.now ≡ 4 }
    ensures { refusal_of result ≡ stepped_sizes_check axes (place_of points.now) knots samples coordinates }
{
    if sizes::axes_refused(axes) {
        return Err(Refusal::Axes);
    }
    let found = sizes::sizes_of_points(axes, points)?;
    if stepped_lengths_refused(axes, found, knots, samples, coordinates) {
        return Err(Refusal::Length);
    }
    Ok(())
}
