// The moments of a lane whose samples stand in front of the scratch: its rows solved, and the dropped moments. They go to the row of
// moments. The steps of `compute_m` require a scratch of 2,048 numbers, 2 to 256 knots, and the fewest points of the ends.

#![tactic(auto)]

ghost use Rattle.std.specs.Prelude.{◌+◌, ◌-◌, ◌≤◌, length};
ghost use Rattle.rules.specs.Ends.{dropped, fewest_points};
ghost use Rattle.rules.specs.Sizes.{scratch_of_rows};
ghost use Rattle.grid_scratch.specs.Layout.{row_length, moments_row};
ghost use Rattle.axis_rows.specs.Rows.{RowsFit};
ghost use Rattle.axis_moments.specs.SolvedMoments.{lower_moment, upper_moment, OneStored, InnerSolved, MomentsSolved};

use grid_scratch::MOMENTS;
use rules::{Condition, End};

pub mod curve; // curve.rt: the knot slope and the value in a cell, from the moments

// The first moment, where the lower end dropped it, from the two after it.
fn drop_lower(w: &mut [f64], x: &[f64], lower: End)
    requires { (scratch_of_rows ≤ length w.old) × (2 + dropped lower ≤ length x.now) }
    ensures { OneStored w.old w.new moments_row (lower_moment w.old x.now lower) }
{
    match lower {
        End::NotAKnot => {
            let h0 = x[1] - x[0];
            let h1 = x[2] - x[1];
            w[MOMENTS] = ((h0 + h1) * w[MOMENTS + 1] - h0 * w[MOMENTS + 2]) / h1;
        }
        End::FirstDerivative(_) => {}
        End::SecondDerivative(_) => {}
    }
}

// The last moment, where the upper end dropped it, from the two before it.
fn drop_upper(w: &mut [f64], x: &[f64], upper: End)
    requires { (scratch_of_rows ≤ length w.old) × (2 + dropped upper ≤ length x.now) × (length x.now ≤ row_length) }
    ensures { OneStored w.old w.new (moments_row + (length x.now - 1))
        (upper_moment w.old x.now (length x.now - 1) upper) }
{
    match upper {
        End::NotAKnot => {
            let n = x.len() - 1;
            let last = n - 1;
            let before = n - 2;
            let h_last = x[last + 1] - x[last];
            let h_before = x[before + 1] - x[before];
            let m = (h_before + h_last) * w[MOMENTS + last] - h_last * w[MOMENTS + before];
            w[MOMENTS + n] = m / h_before;
        }
        End::FirstDerivative(_) => {}
        End::SecondDerivative(_) => {}
    }
}

// The moments that the rows of both ends give, from the first knot that is not dropped on.
fn inner_moments(w: &mut [f64], x: &[f64], lower: End, upper: End)
    requires { RowsFit w.old x.now × (2 + dropped lower + dropped upper ≤ length x.now) }
    ensures { InnerSolved w.old w.new x.now lower upper }
{
    let points = x.len();
    let first = axis_rows::lower_row(x, &w[0..points], lower);
    let last = axis_rows::upper_row(x, &w[0..points], upper);
    let start = first.dropped;
    let l = points - 1 - start - last.dropped;
    axis_rows::interior_rows(w, x, start, l);
    axis_rows::first_row(w, first.row);
    axis_rows::last_row(w, l, last.row);
    axis_solve::thomas(w, l, MOMENTS + start);
}

// The moments of a lane under two ends.
fn endpoint_moments(w: &mut [f64], x: &[f64], lower: End, upper: End)
    requires { RowsFit w.old x.now × (2 + dropped lower + dropped upper ≤ length x.now) }
    ensures { MomentsSolved w.old w.new x.now (Condition.Endpoints lower upper) }
{
    inner_moments(w, x, lower, upper);
    drop_lower(w, x, lower);
    drop_upper(w, x, upper);
}

// The moments of a periodic lane of more than one interval.
fn cyclic_moments(w: &mut [f64], x: &[f64])
    requires { RowsFit w.old x.now × (3 ≤ length x.now) }
    ensures { MomentsSolved w.old w.new x.now Condition.Periodic }
{
    let points = x.len();
    let n = points - 1;
    let last = n - 1;
    let row = axis_rows::periodic_row(x, &w[0..points]);
    axis_rows::interior_rows(w, x, 0, n);
    axis_rows::first_row(w, row);
    axis_solve::cyclic_thomas(w, last, x[last + 1] - x[last]);
    w[MOMENTS + n] = w[MOMENTS];
}

// The moments of a periodic lane: two zeros for one interval.
fn periodic_moments(w: &mut [f64], x: &[f64])
    requires { RowsFit w.old x.now }
    ensures { MomentsSolved w.old w.new x.now Condition.Periodic }
{
    if x.len() < 3 {
        w[MOMENTS] = 0.0;
        w[MOMENTS + 1] = 0.0;
    } else {
        cyclic_moments(w, x);
    }
}

// The moments of the lane whose samples stand in front of the scratch, under a condition. They go to the row of moments. Not a public call:
// it requires a scratch of 2,048 numbers, 2 to 256 knots, and the fewest points of the condition.
pub fn compute_m(w: &mut [f64], x: &[f64], condition: Condition)
    requires { RowsFit w.old x.now × (fewest_points condition ≤ length x.now) }
    ensures { MomentsSolved w.old w.new x.now condition }
{
    match condition {
        Condition::Endpoints(lower, upper) => endpoint_moments(w, x, lower, upper),
        Condition::Periodic => periodic_moments(w, x),
    }
}
