// The grid as numbers: how long its slices are, where the knots of an axis begin, where a place stands, how far apart neighbours are, and
// masks. None of these is a public call: each but `points_of` requires what refusals 1 to 3 leave, or a part of it, and that the axis or
// the place it is given exists.

#![tactic(auto)]

ghost use Rattle.std.specs.Prelude.{◌≡◌, ℕ, ◌^◌, ◌<◌, ◌≤◌, length};
ghost use Rattle.rules.specs.Sizes.{knots_length, samples_length, tensor_length, place_of, sum_below, product_below, flat, in_mask};
ghost use Rattle.grid.specs.GridOfCall.{sizes_of, points_of, InRange, SizesGiven};
ghost use Rattle.grid.specs.Strides.{stride};

use rules::Axis;

// ---- masks

// How many masks so many axes have: 2 to the power of their number, which is also the mask of the next axis alone.
pub fn masks(axes: usize) -> usize
    requires { axes ≤ 4 }
    ensures { (result ≡ 2 ^ axes) × (result ≤ 16) }
{
    1 << axes
}

// Whether an axis lies in a mask.
pub fn in_mask(mask: usize, axis: usize) -> bool
    requires { axis < 4 }
    ensures { result ≡ in_mask mask axis }
{
    (mask >> axis) % 2 == 1
}

// ---- points

// The points of the four axes: four numbers are handed on at less cost than four axes.
pub fn points_of(all: [Axis; 4]) -> [usize; 4]
    ensures { place_of result ≡ points_of all }
{
    [all[0].points, all[1].points, all[2].points, all[3].points]
}

// How many places the grid of axes of so many points has.
pub fn product_of_points(axes: usize, points: &[usize]) -> usize
    requires { InRange axes (place_of points.now) × (length points.now ≡ 4) }
    ensures { (result ≡ product_below (place_of points.now) axes) × (result ≤ 4294967296) }
{
    let mut product = 1;
    for i in 0..axes {
        product *= points[i];
    }
    product
}

// ---- lengths

// How many knots stand before those of an axis.
pub fn knots_before(all: [Axis; 4], axis: usize) -> usize
    requires { (axis ≤ 4) × ((j : ℕ) → j < axis → points_of all j ≤ 256) }
    ensures { (result ≡ sum_below (points_of all) axis) × (result ≤ 1024) }
{
    let mut sum = 0;
    for j in 0..axis {
        sum += all[j].points;
    }
    sum
}

// How many knots the axes in use have together.
pub fn knots_length(axes: usize, all: [Axis; 4]) -> usize
    requires { InRange axes (points_of all) }
    ensures { (result ≡ knots_length (sizes_of axes all)) × (result ≤ 1024) }
{
    knots_before(all, axes)
}

// How many places the grid has, which is how many samples.
pub fn samples_length(axes: usize, all: [Axis; 4]) -> usize
    requires { InRange axes (points_of all) }
    ensures { (result ≡ samples_length (sizes_of axes all)) × (result ≤ 4294967296) }
{
    let points = points_of(all);
    product_of_points(axes, &points)
}

// How many numbers the tensor has: one for each place and mask.
pub fn tensor_length(axes: usize, all: [Axis; 4]) -> usize
    requires { InRange axes (points_of all) }
    ensures { (result ≡ tensor_length (sizes_of axes all)) × (result ≤ 68719476736) }
{
    samples_length(axes, all) * masks(axes)
}

// ---- places

// The flat number of a place.
pub fn place_number(axes: usize, all: [Axis; 4], place: [usize; 4]) -> usize
    requires { SizesGiven axes (points_of all) × ((j : ℕ) → j < axes → place_of place j < points_of all j) }
    ensures { result ≡ flat (points_of all) axes (place_of place) }
{
    let mut number = 0;
    for j in 0..axes {
        number = number * all[j].points + place[j];
    }
    number
}

// How far apart two neighbours along an axis stand, in places.
pub fn stride(axes: usize, all: [Axis; 4], axis: usize) -> usize
    requires { SizesGiven axes (points_of all) × (axis < axes) }
    ensures { result ≡ stride (points_of all) axes axis }
{
    let mut step = 1;
    for j in axis + 1..axes {
        step *= all[j].points;
    }
    step
}
