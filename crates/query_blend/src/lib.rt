// The Hermite blend of two neighbours, as in the Rust's cubic/utils.rs, and one axis of a cell removed by it.

#![tactic(auto)]

ghost use Rattle.std.specs.Prelude.{◌≡◌, ◌+◌, ◌*◌, ◌%◌, ◌<◌, ◌≤◌, length};
ghost use Rattle.rules.specs.Numbers.{at};
ghost use Rattle.query_blend.specs.Blend.{
  weighted,
  weighted_at,
  four_weighted,
  with_four,
  WeightsOf,
  weights_in,
  RunGiven,
  RunBlended,
  ByFours,
  Blended,
};

// The Hermite weights of one axis: h00 and h01 for the values at the lower and the upper knot, h10 and h11, times the width, for the
// slopes.
#[derive(Clone, Copy)]
pub struct Weights {
    pub h00: f64,
    pub h10: f64,
    pub h01: f64,
    pub h11: f64,
}

// The weights of an axis, computed once for all numbers of a cell. Whatever width and fraction are, it refuses nothing.
pub fn hermite_weights(width: f64, t: f64) -> Weights
    ensures { WeightsOf width t result }
{
    let t2 = t * t;
    let t3 = t2 * t;
    let h00 = 2.0 * t3 - 3.0 * t2 + 1.0;
    let h10 = t3 - 2.0 * t2 + t;
    let h01 = -2.0 * t3 + 3.0 * t2;
    let h11 = t3 - t2;
    Weights {
        h00,
        h10: h10 * width,
        h01,
        h11: h11 * width,
    }
}

// The weights of an axis, where those of all axes stand side by side, four to an axis. Not a public call: that they are there is required.
pub fn weights_of(weights: &[f64], axis: usize) -> Weights
    requires { (axis < 4) × (length weights.now ≡ 16) }
    ensures { result ≡ weights_in weights.now axis }
{
    Weights {
        h00: weights[4 * axis],
        h10: weights[4 * axis + 1],
        h01: weights[4 * axis + 2],
        h11: weights[4 * axis + 3],
    }
}

// The values p0 and p1 and the slopes m0 and m1 of two neighbours, blended.
fn evaluate_hermite_1d(weights: Weights, p0: f64, m0: f64, p1: f64, m1: f64) -> f64
    ensures { result ≡ weighted weights p0 m0 p1 m1 }
{
    weights.h00 * p0 + weights.h10 * m0 + weights.h01 * p1 + weights.h11 * m1
}

// The blend of two numbers side by side from `lower` on and two from `upper` on, each a value and its slope. Not a public call: that they
// are there is required.
pub fn one_blended(numbers: &[f64], lower: usize, upper: usize, weights: Weights) -> f64
    requires { (lower + 1 < length numbers.now) × (upper + 1 < length numbers.now) }
    ensures { result ≡ weighted_at weights (at numbers.now) lower upper }
{
    let p0 = numbers[lower];
    let m0 = numbers[lower + 1];
    let p1 = numbers[upper];
    let m1 = numbers[upper + 1];
    evaluate_hermite_1d(weights, p0, m0, p1, m1)
}

// Four such blends of neighbours, all read before any is stored: the compiler works out several at a time.
fn four_blended(numbers: &[f64], lower: usize, upper: usize, weights: Weights) -> [f64; 4]
    requires { (lower + 7 < length numbers.now) × (upper + 7 < length numbers.now) × (length numbers.now ≤ 4096) }
    ensures { result ≡ four_weighted weights (at numbers.now) lower upper }
{
    [
        one_blended(numbers, lower, upper, weights),
        one_blended(numbers, lower + 2, upper + 2, weights),
        one_blended(numbers, lower + 4, upper + 4, weights),
        one_blended(numbers, lower + 6, upper + 6, weights),
    ]
}

// Four numbers go to their places, from e on.
fn store_four(cell: &mut [f64], e: usize, four: [f64; 4])
    requires { (e + 3 < length cell.old) × (length cell.old ≤ 4096) }
    ensures { cell.new ≡ with_four cell.old e four }
{
    cell[e] = four[0];
    cell[e + 1] = four[1];
    cell[e + 2] = four[2];
    cell[e + 3] = four[3];
}

// A run of neighbouring blends, four at a time, of pairs that stand from `lower` and from `upper` on. Not a public call: that all of them
// are there, among 4,096 numbers at most, is required, and that the run comes in fours.
pub fn blend_run(run: &mut [f64], numbers: &[f64], lower: usize, upper: usize, weights: Weights)
    requires { RunGiven (length run.old) numbers.now lower upper }
    ensures { RunBlended (length run.old) numbers.now lower upper weights run.new }
{
    for k in 0..run.len() / 4 {
        let e = 4 * k;
        let four = four_blended(numbers, lower + 2 * e, upper + 2 * e, weights);
        store_four(run, e, four);
    }
}

// One axis removed, the lowest: 4 * size numbers become size, four at a time, in the front of the cell. Each is read before another takes
// its place.
fn remove_by_fours(cell: &mut [f64], size: usize, weights: Weights)
    requires { (4 * size ≤ length cell.old) × (length cell.old ≤ 256) × (size % 4 ≡ 0) }
    ensures { Blended cell.old cell.new size weights }
{
    for k in 0..size / 4 {
        let e = 4 * k;
        let four = four_blended(cell, 2 * e, 2 * size + 2 * e, weights);
        store_four(cell, e, four);
    }
}

// The same where size is 1 too: then one number is left. Not a public call: a cell with as many numbers, and at most 256, is required, and
// that size is 1 or comes in fours.
pub fn remove_lowest(cell: &mut [f64], size: usize, weights: Weights)
    requires { (4 * size ≤ length cell.old) × (length cell.old ≤ 256) × ByFours size }
    ensures { Blended cell.old cell.new size weights }
{
    if size == 1 {
        cell[0] = one_blended(cell, 0, 2, weights);
        return;
    }
    remove_by_fours(cell, size, weights);
}
