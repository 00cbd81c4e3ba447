// The plan under two ends. None of these is a public call.
ghost use Rattle.std.specs.Prelude.{◌<◌, ◌≤◌, length};
ghost use Rattle.rules.specs.Numbers.{◌⊘◌};
ghost use Rattle.rules.specs.Sizes.{scratch_of_rows};
ghost use Rattle.grid_scratch.specs.Layout.{plan_row_length};
ghost use Rattle.tensor_plan.specs.PlanOfEnds.{Room, Stepped, Divided, EndsGiven, EndsPlanMade};

use crate::EndsPlan;
use grid_scratch::{DIVISORS, HELPERS};
use rules::{End, Row};

// The steps between the knots.
pub fn steps(w: &mut [f64], x: &[f64])
    requires { (scratch_of_rows ≤ length w.old) × (length x.now ≤ plan_row_length) × (0 < length x.now) }
    ensures { Stepped w.old w.new x.now }
{
    for k in 0..x.len() - 1 {
        w[k] = x[k + 1] - x[k];
    }
}

// Divisors and first helper row of the knots from low to last - 1, of which `low` has the first row and all others have a step on each
// side.
pub fn divisors(w: &mut [f64], low: usize, last: usize, first: Row)
    requires { Room w.old last × (low < last) }
    ensures { Divided w.old w.new low last first.diagonal (first.neighbour ⊘ first.diagonal) }
{
    let mut d = first.diagonal;
    let mut c = first.neighbour / d;
    let before = last - 1;
    for k in low..before {
        w[DIVISORS + k] = d;
        w[HELPERS + k] = c;
        let h = w[k];
        let next = w[k + 1];
        d = 2.0 * (h + next) - h * c;
        c = next / d;
    }
    w[DIVISORS + before] = d;
    w[HELPERS + before] = c;
}

// The whole plan. An end's diagonal and neighbour are made of knots alone, so its row is asked for with the knots in place of samples.
pub fn plan_ends(w: &mut [f64], x: &[f64], lower: End, upper: End) -> EndsPlan
    requires { EndsGiven w.old x.now lower upper }
    ensures { EndsPlanMade w.old w.new x.now lower upper result }
{
    steps(w, x);
    let first = axis_rows::lower_row(x, x, lower);
    let end = axis_rows::upper_row(x, x, upper);
    let low = first.dropped;
    let last = x.len() - 1 - end.dropped;
    divisors(w, low, last, first.row);
    let sub = end.row.neighbour;
    w[DIVISORS + last] = end.row.diagonal - sub * w[HELPERS + (last - 1)];
    EndsPlan { low, last, sub }
}
