// Refusals 1 to 3 and 6.
ghost use Rattle.std.specs.Prelude.{◌≡◌, ◌||◌, ◌≤◌, ltb, length};
ghost use Rattle.rules.specs.Sizes.{most_axes, place_of};
ghost use Rattle.rules.specs.Answers.{refusal_of};
ghost use Rattle.rules.specs.Refusals.{points_refused, place_refused};
ghost use Rattle.grid.specs.GridOfCall.{sizes_of};
ghost use Rattle.grid_checks.specs.Check.{sizes_check};
ghost use Rattle.grid_checks.specs.SizesFound.{SizesFound};

use rules::{Axis, Refusal};

// Whether there is no axis, or more than four.
pub fn axes_refused(axes: usize) -> bool
    ensures { result ≡ (ltb axes 1 || ltb most_axes axes) }
{
    if axes < 1 { true } else { 4 < axes }
}

// Whether the points of an axis lie outside 2 to 256.
pub fn points_refused(points: usize) -> bool
    ensures { result ≡ points_refused points }
{
    if points < 2 { true } else { 256 < points }
}

// What the sizes of a grid come to: how many knots its axes have together and how many numbers its tensor.
#[derive(Clone, Copy)]
pub struct Sizes {
    pub knots: usize,
    pub numbers: usize,
}

// They are found in one pass over the axes, or refused by 2 or 3. Not a public call: one to four axes and four points are required.
pub fn sizes_of_points(axes: usize, points: &[usize]) -> Result<Sizes, Refusal>
    requires { (1 ≤ axes) × (axes ≤ 4) × (length points.now ≡ 4) }
    ensures { SizesFound axes (place_of points.now) result }
{
    let mut knots = 0;
    let mut numbers = grid::masks(axes);
    for i in 0..axes {
        let count = points[i];
        if points_refused(count) {
            return Err(Refusal::Points);
        }
        knots += count;
        numbers = numbers * count;
    }
    if 4096 < numbers {
        return Err(Refusal::Tensor);
    }
    Ok(Sizes { knots, numbers })
}

// What every call on a grid meets first: 1, 2, 3, or none.
pub fn check_sizes(axes: usize, all: [Axis; 4]) -> Result<(), Refusal>
    ensures { refusal_of result ≡ sizes_check axes all }
{
    if axes_refused(axes) {
        return Err(Refusal::Axes);
    }
    let points = grid::points_of(all);
    sizes_of_points(axes, &points)?;
    Ok(())
}

// Whether a place is off the grid on an axis in use. Not a public call: at most four axes are required.
pub fn place_refused(axes: usize, all: [Axis; 4], place: [usize; 4]) -> bool
    requires { axes ≤ 4 }
    ensures { result ≡ place_refused (sizes_of axes all) (place_of place) }
{
    for i in 0..axes {
        if all[i].points <= place[i] {
            return true;
        }
    }
    false
}
