// Four lanes under two ends. None of these is a public call.
ghost use Rattle.std.specs.Prelude.{◌+◌, ◌≤◌, length};
ghost use Rattle.rules.specs.Ends.{dropped};
ghost use Rattle.rules.specs.Sizes.{scratch_of_rows};
ghost use Rattle.rules.specs.declared.Condition.TheVariants.{Endpoints};
ghost use Rattle.tensor_fours.specs.Fours.{Lanewise};
ghost use Rattle.tensor_plan.specs.PlanOfEnds.{Room};
ghost use Rattle.tensor_four_lanes.specs.Sweeps.{Laid};
ghost use Rattle.tensor_four_lanes.specs.Groups.{
  lower_right,
  upper_right,
  lower_moment,
  upper_moment,
  EndsGroup,
  InnerSolved,
  MomentsSolved,
  EndsFour,
  four_slope,
};

use crate::sweeps::{back, forward, slopes, store_slopes};
use grid_scratch::{DIVISORS, FOUR_MOMENTS, FOUR_SLOPES};
use rules::End;
use tensor_fours::{alike, get_row, minus, over, set_row, times};
use tensor_plan::EndsPlan;

// The right side of the first row, which is the lower end's.
fn lower_right(w: &[f64], lower: End) -> [f64; 4]
    requires { scratch_of_rows ≤ length w.now }
    ensures { Lanewise result (lower_right w.now lower) }
{
    match lower {
        End::NotAKnot => times(
            w[1],
            times(
                6.0,
                minus(get_row(w, FOUR_SLOPES, 1), get_row(w, FOUR_SLOPES, 0)),
            ),
        ),
        End::FirstDerivative(v) => times(6.0, minus(get_row(w, FOUR_SLOPES, 0), alike(v))),
        End::SecondDerivative(v) => alike(v),
    }
}

// The right side of the last row, which is the upper end's.
fn upper_right(w: &[f64], n: usize, upper: End) -> [f64; 4]
    requires { Room w.now n × (1 + dropped upper ≤ n) }
    ensures { Lanewise result (upper_right w.now n upper) }
{
    match upper {
        End::NotAKnot => times(
            w[n - 2],
            times(
                6.0,
                minus(
                    get_row(w, FOUR_SLOPES, n - 1),
                    get_row(w, FOUR_SLOPES, n - 2),
                ),
            ),
        ),
        End::FirstDerivative(v) => times(6.0, minus(alike(v), get_row(w, FOUR_SLOPES, n - 1))),
        End::SecondDerivative(v) => alike(v),
    }
}

// The moment at knot 0: from the two behind it where the lower end dropped it, else as it stands.
fn lower_moment(w: &[f64], lower: End) -> [f64; 4]
    requires { scratch_of_rows ≤ length w.now }
    ensures { Lanewise result (lower_moment w.now lower) }
{
    match lower {
        End::NotAKnot => over(
            minus(
                times(w[0] + w[1], get_row(w, FOUR_MOMENTS, 1)),
                times(w[0], get_row(w, FOUR_MOMENTS, 2)),
            ),
            w[1],
        ),
        End::FirstDerivative(_) => get_row(w, FOUR_MOMENTS, 0),
        End::SecondDerivative(_) => get_row(w, FOUR_MOMENTS, 0),
    }
}

// The moment at knot n: its mirror.
fn upper_moment(w: &[f64], n: usize, upper: End) -> [f64; 4]
    requires { Room w.now n × (1 + dropped upper ≤ n) }
    ensures { Lanewise result (upper_moment w.now n upper) }
{
    match upper {
        End::NotAKnot => over(
            minus(
                times(w[n - 2] + w[n - 1], get_row(w, FOUR_MOMENTS, n - 1)),
                times(w[n - 1], get_row(w, FOUR_MOMENTS, n - 2)),
            ),
            w[n - 2],
        ),
        End::FirstDerivative(_) => get_row(w, FOUR_MOMENTS, n),
        End::SecondDerivative(_) => get_row(w, FOUR_MOMENTS, n),
    }
}

// The moments that the rows give, and the slopes of all steps on the way.
fn inner_moments(
    w: &mut [f64],
    x: &[f64],
    lower: End,
    upper: End,
    plan: EndsPlan,
    places: [usize; 4],
    step: usize,
)
    requires { EndsGroup w.old x.now lower upper plan places step }
    ensures { InnerSolved w.old w.new x.now lower upper places step }
{
    let n = x.len() - 1;
    let low = plan.low;
    let last = plan.last;
    slopes(w, 0, low + 1, places, step);
    let right = lower_right(w, lower);
    let first = over(right, w[DIVISORS + low]);
    set_row(w, FOUR_MOMENTS, low, first);
    forward(w, low, last, places, step);
    slopes(w, last, n, places, step);
    let end = upper_right(w, n, upper);
    let before = get_row(w, FOUR_MOMENTS, last - 1);
    let top = over(minus(end, times(plan.sub, before)), w[DIVISORS + last]);
    set_row(w, FOUR_MOMENTS, last, top);
    back(w, low, last);
}

// All moments: those two that an end may have dropped come last.
fn endpoint_moments(
    w: &mut [f64],
    x: &[f64],
    lower: End,
    upper: End,
    plan: EndsPlan,
    places: [usize; 4],
    step: usize,
)
    requires { EndsGroup w.old x.now lower upper plan places step }
    ensures { MomentsSolved w.old w.new x.now (Endpoints lower upper) places step }
{
    let n = x.len() - 1;
    inner_moments(w, x, lower, upper, plan, places, step);
    let first = lower_moment(w, lower);
    set_row(w, FOUR_MOMENTS, 0, first);
    let last = upper_moment(w, n, upper);
    set_row(w, FOUR_MOMENTS, n, last);
}

// Four lanes solved, their knot slopes `to` behind their numbers.
pub fn solve_under_ends(
    w: &mut [f64],
    x: &[f64],
    lower: End,
    upper: End,
    plan: EndsPlan,
    places: [usize; 4],
    to: usize,
    step: usize,
)
    requires { EndsFour w.old x.now lower upper plan places to step }
    ensures { Laid w.old w.new places to step (length x.now)
        (four_slope w.old x.now (Endpoints lower upper) places step) }
{
    let n = x.len() - 1;
    endpoint_moments(w, x, lower, upper, plan, places, step);
    store_slopes(w, n, places, to, step);
}
