// Four lanes of a periodic axis of two intervals or more. None of these is a public call.
ghost use Rattle.std.specs.Prelude.{◌-◌, length};
ghost use Rattle.rules.specs.declared.Condition.TheVariants.{Periodic};
ghost use Rattle.tensor_plan.specs.PlanOfEnds.{Room};
ghost use Rattle.tensor_four_lanes.specs.Sweeps.{Lanes, Laid};
ghost use Rattle.tensor_four_lanes.specs.Groups.{MomentsSolved, four_slope, CycleGroup, Subtracted};

use crate::sweeps::{back, forward, slopes, store_slopes};
use grid_scratch::{DIVISORS, FOUR_MOMENTS, FOUR_SLOPES, SECOND};
use tensor_fours::{get_row, minus, over, plus, scaled, set_row, times};

// From each of the first n rows a lane's factor times z is taken.
fn subtract(w: &mut [f64], n: usize, factor: [f64; 4])
    requires { Room w.old n }
    ensures { Subtracted w.old w.new n factor }
{
    for k in 0..n {
        let y = get_row(w, FOUR_MOMENTS, k);
        let m = minus(y, scaled(factor, w[SECOND + k]));
        set_row(w, FOUR_MOMENTS, k, m);
    }
}

// All moments, and the slopes of all steps on the way: the solve without corners, and from it so much of z as each lane's factor says.
fn cyclic_moments(w: &mut [f64], x: &[f64], ratio: f64, rest: f64, places: [usize; 4], step: usize)
    requires { CycleGroup w.old x.now ratio rest places step }
    ensures { MomentsSolved w.old w.new x.now Periodic places step }
{
    let n = x.len() - 1;
    let l = n - 1;
    slopes(w, 0, 1, places, step);
    slopes(w, l, n, places, step);
    let s = get_row(w, FOUR_SLOPES, 0);
    let s_last = get_row(w, FOUR_SLOPES, l);
    let first = over(times(6.0, minus(s, s_last)), w[DIVISORS]);
    set_row(w, FOUR_MOMENTS, 0, first);
    forward(w, 0, n, places, step);
    back(w, 0, l);
    let y = get_row(w, FOUR_MOMENTS, 0);
    let y_last = get_row(w, FOUR_MOMENTS, l);
    let factor = over(plus(y, times(ratio, y_last)), rest);
    subtract(w, n, factor);
    let m = get_row(w, FOUR_MOMENTS, 0);
    set_row(w, FOUR_MOMENTS, n, m);
}

// Four lanes solved, their knot slopes `to` behind their numbers.
pub fn solve_periodic(
    w: &mut [f64],
    x: &[f64],
    ratio: f64,
    rest: f64,
    places: [usize; 4],
    to: usize,
    step: usize,
)
    requires { CycleGroup w.old x.now ratio rest places step × Lanes w.old (length x.now - 1) places to step }
    ensures { Laid w.old w.new places to step (length x.now)
        (four_slope w.old x.now Periodic places step) }
{
    let n = x.len() - 1;
    cyclic_moments(w, x, ratio, rest, places, step);
    store_slopes(w, n, places, to, step);
}
