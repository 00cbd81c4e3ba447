// The plan of a periodic axis of two intervals or more: the matrix without its corners, and z, the second solve of `cyclic_thomas`, whose
// right side has no sample in it. None of these is a public call.
ghost use Rattle.std.specs.Prelude.{◌<◌};
ghost use Rattle.tensor_plan.specs.PlanOfEnds.{Room};
ghost use Rattle.tensor_plan.specs.Cycle.{SecondForth, SecondBack, CycleGiven, CyclePlanMade};

use crate::CyclePlan;
use crate::ends::{divisors, steps};
use grid_scratch::{DIVISORS, HELPERS, SECOND};
use rules::Row;

// Second helper row of z before its last row, l: the first number is given, and the right side between the corners is zero.
fn second_forth(w: &mut [f64], l: usize, first: f64)
    requires { Room w.old l × (0 < l) }
    ensures { SecondForth w.old w.new l first }
{
    let mut z = first;
    let before = l - 1;
    for k in 0..before {
        w[SECOND + k] = z;
        z = (0.0 - w[k] * z) / w[DIVISORS + (k + 1)];
    }
    w[SECOND + before] = z;
}

// z itself over that helper row, from row l down.
fn second_back(w: &mut [f64], l: usize)
    requires { Room w.old l }
    ensures { SecondBack w.old w.new 0 l }
{
    let mut z = w[SECOND + l];
    for k in (0..l).rev() {
        z = w[SECOND + k] - w[HELPERS + k] * z;
        w[SECOND + k] = z;
    }
}

// The whole plan: the first row and the last, l, have the corners taken out of their diagonals.
pub fn plan_cycle(w: &mut [f64], x: &[f64]) -> CyclePlan
    requires { CycleGiven w.old x.now }
    ensures { CyclePlanMade w.old w.new x.now result }
{
    steps(w, x);
    let l = x.len() - 1 - 1;
    let h = w[0];
    let corner = w[l];
    let g = w[l - 1];
    let d = 2.0 * (corner + h);
    let gamma = -d;
    let diagonal = d - gamma;
    divisors(
        w,
        0,
        l,
        Row {
            diagonal,
            neighbour: h,
            right: 0.0,
        },
    );
    w[DIVISORS + l] = 2.0 * (g + corner) - corner * corner / gamma - g * w[HELPERS + (l - 1)];
    second_forth(w, l, gamma / diagonal);
    w[SECOND + l] = (corner - g * w[SECOND + (l - 1)]) / w[DIVISORS + l];
    second_back(w, l);
    let ratio = corner / gamma;
    CyclePlan {
        ratio,
        rest: 1.0 + (w[SECOND] + ratio * w[SECOND + l]),
    }
}
