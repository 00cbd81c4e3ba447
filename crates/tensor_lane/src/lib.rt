// One lane of the working tensor: its numbers gathered, its moments computed, its knot slopes stored. None of these is a public call.

#![tactic(auto)]

ghost use Rattle.std.specs.Prelude.{◌≡◌, ◌<◌, ◌≤◌, length};
ghost use Rattle.rules.specs.Sizes.{scratch_of_rows};
ghost use Rattle.grid_scratch.specs.Layout.{row_length};
ghost use Rattle.tensor_lane.specs.LaneInScratch.{Lies, Gathered, slope_of_rows, Stored, LaneGiven, LaneSolved};

use axis_moments::curve::knot_slope;
use grid_scratch::MOMENTS;
use rules::Condition;

// The lane's n numbers go to the row of samples.
fn gather(w: &mut [f64], n: usize, from: usize, step: usize)
    requires { Lies w.old n from step × (n ≤ row_length) }
    ensures { Gathered w.old w.new n from step }
{
    for k in 0..n {
        w[k] = w[from + k * step];
    }
}

// The knot slope at k, from the samples and the moments in their rows.
fn slope(w: &[f64], x: &[f64], k: usize) -> f64
    requires { (scratch_of_rows ≤ length w.now) × (2 ≤ length x.now) × (length x.now ≤ row_length) × (k < length x.now) }
    ensures { result ≡ slope_of_rows w.now x.now k }
{
    let n = x.len();
    knot_slope(x, &w[0..n], &w[MOMENTS..MOMENTS + n], k)
}

// The knot slopes go to `to`, to + step, ..
fn store_slopes(w: &mut [f64], x: &[f64], to: usize, step: usize)
    requires { Lies w.old (length x.now) to step × (1 ≤ step) × (2 ≤ length x.now) × (length x.now ≤ row_length) }
    ensures { Stored w.old w.new (slope_of_rows w.old x.now) (length x.now) to step }
{
    for k in 0..x.len() {
        w[to + k * step] = slope(w, x, k);
    }
}

// The lane of numbers at `from`, from + step, .. is solved, and its knot slopes go to `to`, to + step and so on. It requires 2 to 256
// knots, the fewest points of the condition, and both lanes behind the rows of the scratch.
pub fn solve_lane(
    w: &mut [f64],
    x: &[f64],
    condition: Condition,
    from: usize,
    to: usize,
    step: usize,
)
    requires { LaneGiven w.old x.now condition from to step }
    ensures { LaneSolved w.old w.new x.now condition from to step }
{
    gather(w, x.len(), from, step);
    axis_moments::compute_m(w, x, condition);
    store_slopes(w, x, to, step);
}
