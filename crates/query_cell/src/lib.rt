// The surface's value in a cell of the tensor. The blend calls itself with one axis fewer until none is left. Its first call removes the
// first axis where the numbers stand in the tensor, so no more than a quarter of them is put anywhere; each later one removes an axis in
// the cell. `points` and `lower` are the points of each axis and the cell's lower index on it, `weights` the weights of the axes one after
// the other, four to an axis.

#![tactic(auto)]

ghost use Rattle.std.specs.Prelude.{◌≡◌, ◌≢◌, ℕ, ◌+◌, ◌-◌, ◌*◌, ◌^◌, ◌≤◌, length, set, Float};
ghost use Rattle.rules.specs.Numbers.{at};
ghost use Rattle.rules.specs.Sizes.{place_of, product_below};
ghost use Rattle.query_blend.specs.Blend.{weighted_at, WeightsOn};
ghost use Rattle.query_cell.specs.Points.{CellAt, CellGiven, RunsGiven, RunsRemoved, FirstRemoved, Removed, BlendedOn, blended};

use query_blend::Weights;

// Where the lowest of a cell's numbers stands in the tensor, and how far apart there two neighbours are along the first axis, along the
// second, and along the last but one.
#[derive(Clone, Copy)]
struct Spots {
    first: usize,
    above: usize,
    next: usize,
    last: usize,
}

// The first axis of two or more removed by its weights. Two corners that differ on the last axis alone stand side by side in the tensor, so
// the blends of both are one run; the runs differ on the axes between the first and the last, of which there are at most two.
fn remove_runs(cell: &mut [f64], axes: usize, spots: Spots, weights: Weights, tensor: &[f64])
    requires { RunsGiven axes spots tensor.now × (length cell.old ≡ 4 ^ (axes - 1)) }
    ensures { RunsRemoved axes spots tensor.now weights cell.new }
{
    let masks = grid::masks(axes);
    for run in 0..masks / 4 {
        let start = spots.first + run / 2 * spots.next + run % 2 * spots.last;
        let to = run * masks;
        query_blend::blend_run(
            &mut cell[to..to + masks],
            tensor,
            start,
            start + spots.above,
            weights,
        );
    }
}

// The only axis: its four numbers stand side by side, and one is left.
fn first_of_one(cell: &mut [f64], first: usize, weights: Weights, tensor: &[f64])
    requires { (length cell.old ≡ 64) × (first + 4 ≤ length tensor.now) × (length tensor.now ≤ 4096) }
    ensures { cell.new ≡ set cell.old 0 (weighted_at weights (at tensor.now) first (first + 2)) }
{
    cell[0] = query_blend::one_blended(tensor, first, first + 2, weights);
}

// The first of two: what is left is one run of four.
fn first_of_two(
    cell: &mut [f64],
    points: &[usize],
    lower: &[usize],
    weights: Weights,
    tensor: &[f64],
)
    requires { CellGiven 2 points.now lower.now tensor.now × (length cell.old ≡ 64) }
    ensures { FirstRemoved 2 points.now lower.now tensor.now weights cell.new }
{
    let above = 4 * points[1];
    let first = lower[0] * above + 4 * lower[1];
    query_blend::blend_run(&mut cell[0..4], tensor, first, first + above, weights);
}

// The first of three: the second is the last but one, and the two runs differ on it.
fn first_of_three(
    cell: &mut [f64],
    points: &[usize],
    lower: &[usize],
    weights: Weights,
    tensor: &[f64],
)
    requires { CellGiven 3 points.now lower.now tensor.now × (length cell.old ≡ 64) }
    ensures { FirstRemoved 3 points.now lower.now tensor.now weights cell.new }
{
    let next = 8 * points[2];
    let above = next * points[1];
    let first = lower[0] * above + lower[1] * next + 8 * lower[2];
    remove_runs(
        &mut cell[0..16],
        3,
        Spots {
            first,
            above,
            next,
            last: next,
        },
        weights,
        tensor,
    );
}

// The first of four: the runs differ on the second and on the third, and fill the cell.
fn first_of_four(
    cell: &mut [f64],
    points: &[usize],
    lower: &[usize],
    weights: Weights,
    tensor: &[f64],
)
    requires { CellGiven 4 points.now lower.now tensor.now × (length cell.old ≡ 64) }
    ensures { FirstRemoved 4 points.now lower.now tensor.now weights cell.new }
{
    let last = 16 * points[3];
    let next = last * points[2];
    let above = next * points[1];
    let first = lower[0] * above + lower[1] * next + lower[2] * last + 16 * lower[3];
    remove_runs(
        &mut cell[0..64],
        4,
        Spots {
            first,
            above,
            next,
            last,
        },
        weights,
        tensor,
    );
}

// The first of all axes removed, where the numbers stand in the tensor. Two axes have a blend of their own.
fn remove_first(
    cell: &mut [f64],
    axes: usize,
    points: &[usize],
    lower: &[usize],
    weights: Weights,
    tensor: &[f64],
)
    requires { CellGiven axes points.now lower.now tensor.now × (length cell.old ≡ 64) × (axes ≢ 2) }
    ensures { FirstRemoved axes points.now lower.now tensor.now weights cell.new }
{
    match axes {
        1 => first_of_one(cell, 2 * lower[0], weights, tensor),
        3 => first_of_three(cell, points, lower, weights, tensor),
        _ => first_of_four(cell, points, lower, weights, tensor),
    }
}

// The lowest of the axes that are left removed: where all are left, from the tensor, and else in the cell. Whether there is one axis is
// asked first: where the compiler knows that, it has nothing else to compile.
fn remove_lowest(
    cell: &mut [f64],
    axes: usize,
    left: usize,
    points: &[usize],
    lower: &[usize],
    weights: Weights,
    tensor: &[f64],
)
    requires { CellGiven axes points.now lower.now tensor.now × (length cell.old ≡ 64) × ((1 ≤ left) × (left ≤ axes))
        × (axes ≢ 2) }
    ensures { Removed axes left points.now lower.now tensor.now weights
        cell.old cell.new }
{
    if axes == 1 {
        remove_first(cell, 1, points, lower, weights, tensor);
        return;
    }
    if left == axes {
        remove_first(cell, axes, points, lower, weights, tensor);
        return;
    }
    let half = grid::masks(left - 1);
    query_blend::remove_lowest(cell, half * half, weights);
}

// The blend of a cell in which `left` of the axes are left: each call removes the lowest of them, and with none left the cell is one
// number. The first call, with all axes left, reads the tensor, and any other the cell. What is lent goes on as a reference to the slice,
// so that the compiler makes a loop of the calls.
fn blend(
    cell: &mut [f64; 64],
    axes: usize,
    left: usize,
    points: &&[usize],
    lower: &&[usize],
    weights: &&[f64],
    tensor: &&[f64],
) -> f64
    requires { CellGiven axes points.now.now lower.now.now tensor.now.now
        × (length weights.now.now ≡ 16) × (left ≤ axes) × (axes ≢ 2) }
    ensures { BlendedOn axes left points.now.now lower.now.now
        weights.now.now tensor.now.now cell.old result }
{
    if left == 0 {
        return cell[0];
    }
    let weights_there = query_blend::weights_of(*weights, axes - left);
    remove_lowest(cell, axes, left, *points, *lower, weights_there, *tensor);
    blend(cell, axes, left - 1, points, lower, weights, tensor)
}

// The surface's value in a cell, with room for what is left of the largest without its first axis. What stands there at first is never
// read: ones the compiler stores itself, and for zeros it calls the host's memset. On one axis it follows the two calls of the blend while
// it compiles, and keeps of all that room one number in a register. Not a public call: that there is such a cell is required, on other
// axes than two, and the lengths of all slices.
pub fn value(axes: usize, points: &[usize], lower: &[usize], weights: &[f64], tensor: &[f64]) -> f64
    requires { CellAt axes (place_of points.now) (place_of lower.now) × (axes ≢ 2)
        × ((length points.now ≡ 4) × (length lower.now ≡ 4) × (length weights.now ≡ 16))
        × (length tensor.now ≡ product_below (place_of points.now) axes * 2 ^ axes) }
    ensures { (widths ts : ℕ → Float) → WeightsOn axes 0 widths ts weights.now
        → result ≡ blended axes (place_of points.now) (place_of lower.now) widths ts tensor.now }
{
    if axes == 1 {
        let mut cell = [1.0; 64];
        return blend(&mut cell, 1, 1, &points, &lower, &weights, &tensor);
    }
    let mut cell = [1.0; 64];
    blend(&mut cell, axes, axes, &points, &lower, &weights, &tensor)
}

// The lowest of the axes that are left of two removed: the first from the tensor, the other in the cell.
fn remove_of_two(
    cell: &mut [f64],
    left: usize,
    points: &[usize],
    lower: &[usize],
    weights: Weights,
    tensor: &[f64],
)
    requires { CellGiven 2 points.now lower.now tensor.now × (length cell.old ≡ 64) × ((1 ≤ left) × (left ≤ 2)) }
    ensures { Removed 2 left points.now lower.now tensor.now weights
        cell.old cell.new }
{
    if left == 2 {
        first_of_two(cell, points, lower, weights, tensor);
        return;
    }
    cell[0] = query_blend::one_blended(cell, 0, 2, weights);
}

// The blend of a cell on two axes, in the same calls: what each of them does is called from here alone, so that the compiler follows them
// too and keeps the cell's four numbers in registers.
fn blend_on_two(
    cell: &mut [f64; 64],
    left: usize,
    points: &&[usize],
    lower: &&[usize],
    weights: &&[f64],
    tensor: &&[f64],
) -> f64
    requires { CellGiven 2 points.now.now lower.now.now tensor.now.now × (length weights.now.now ≡ 16) × (left ≤ 2) }
    ensures { BlendedOn 2 left points.now.now lower.now.now
        weights.now.now tensor.now.now cell.old result }
{
    if left > 0 {
        let weights_there = query_blend::weights_of(*weights, 2 - left);
        remove_of_two(cell, left, *points, *lower, weights_there, *tensor);
        return blend_on_two(cell, left - 1, points, lower, weights, tensor);
    }
    cell[0]
}

// The surface's value in a cell on two axes. Not a public call: what `value` requires is required here too.
pub fn value_on_two(points: &[usize], lower: &[usize], weights: &[f64], tensor: &[f64]) -> f64
    requires { CellAt 2 (place_of points.now) (place_of lower.now)
        × ((length points.now ≡ 4) × (length lower.now ≡ 4) × (length weights.now ≡ 16))
        × (length tensor.now ≡ product_below (place_of points.now) 2 * 2 ^ 2) }
    ensures { (widths ts : ℕ → Float) → WeightsOn 2 0 widths ts weights.now
        → result ≡ blended 2 (place_of points.now) (place_of lower.now) widths ts tensor.now }
{
    let mut cell = [1.0; 64];
    blend_on_two(&mut cell, 2, &points, &lower, &weights, &tensor)
}
