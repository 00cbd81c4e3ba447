// Refusals 4 and 5: each slice is given by its length alone.
ghost use Rattle.std.specs.Prelude.{◌≡◌, ◌||◌};
ghost use Rattle.rules.specs.Sizes.{knots_length, samples_length, tensor_length, scratch_length};
ghost use Rattle.rules.specs.Refusals.{length_refused, scratch_refused};
ghost use Rattle.grid.specs.GridOfCall.{sizes_of, points_of, InRange};

use crate::sizes::Sizes;
use rules::Axis;

// Whether a slice is not of the exact length.
pub fn length_refused(given: usize, exact: usize) -> bool
    ensures { result ≡ length_refused given exact }
{
    given != exact
}

// Whether knots, samples or moments do not have one number for each point of an axis.
pub fn axis_refused(points: usize, knots: usize, samples: usize, moments: usize) -> bool
    ensures { result ≡ (length_refused knots points || length_refused samples points || length_refused moments points) }
{
    if length_refused(knots, points) {
        return true;
    }
    if length_refused(samples, points) {
        return true;
    }
    length_refused(moments, points)
}

// Whether knots, samples, moments or slopes do not have one number for each point of an axis.
pub fn slopes_refused(
    points: usize,
    knots: usize,
    samples: usize,
    moments: usize,
    slopes: usize,
) -> bool
    ensures { result ≡
        (length_refused knots points || length_refused samples points || length_refused moments points || length_refused slopes points) }
{
    if axis_refused(points, knots, samples, moments) {
        return true;
    }
    length_refused(slopes, points)
}

// Whether knots, samples or tensor are not as long as a build asks for. Not a public call: what refusals 1 and 2 leave is required.
pub fn build_refused(
    axes: usize,
    all: [Axis; 4],
    knots: usize,
    samples: usize,
    tensor: usize,
) -> bool
    requires { InRange axes (points_of all) }
    ensures { result ≡
        (length_refused knots (knots_length (sizes_of axes all)) || length_refused samples (samples_length (sizes_of axes all))
        || length_refused tensor (tensor_length (sizes_of axes all))) }
{
    if length_refused(knots, grid::knots_length(axes, all)) {
        return true;
    }
    if length_refused(samples, grid::samples_length(axes, all)) {
        return true;
    }
    length_refused(tensor, grid::tensor_length(axes, all))
}

// Whether knots or tensor are not as long as a change asks for. Not a public call: what refusals 1 and 2 leave is required.
pub fn change_refused(axes: usize, all: [Axis; 4], knots: usize, tensor: usize) -> bool
    requires { InRange axes (points_of all) }
    ensures { result ≡ (length_refused knots (knots_length (sizes_of axes all)) || length_refused tensor (tensor_length (sizes_of axes all))) }
{
    if length_refused(knots, grid::knots_length(axes, all)) {
        return true;
    }
    length_refused(tensor, grid::tensor_length(axes, all))
}

// Whether knots, tensor or coordinates are not as long as a query on axes of these sizes asks for.
pub fn query_lengths_refused(
    axes: usize,
    sizes: Sizes,
    knots: usize,
    tensor: usize,
    coordinates: usize,
) -> bool
    ensures { result ≡ (length_refused knots sizes.knots || length_refused tensor sizes.numbers || length_refused coordinates axes) }
{
    if length_refused(knots, sizes.knots) {
        return true;
    }
    if length_refused(tensor, sizes.numbers) {
        return true;
    }
    length_refused(coordinates, axes)
}

// Whether scratch is too short for the tensor and the rows. Not a public call: what refusals 1 and 2 leave is required.
pub fn scratch_refused(axes: usize, all: [Axis; 4], scratch: usize) -> bool
    requires { InRange axes (points_of all) }
    ensures { result ≡ scratch_refused scratch (scratch_length (sizes_of axes all)) }
{
    scratch < grid::tensor_length(axes, all) + grid_scratch::ROWS
}
