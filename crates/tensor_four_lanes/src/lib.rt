// Four lanes of a planned axis solved side by side: slopes and second helper row forward, moments back, knot slopes stored. Not a public
// call: it requires that the plan of the axis stands in its rows, and that all lanes lie behind the rows of the scratch.

#![tactic(auto)]

ghost use Rattle.std.specs.Prelude.{length};
ghost use Rattle.tensor_four_lanes.specs.Sweeps.{Laid};
ghost use Rattle.tensor_four_lanes.specs.Groups.{four_slope, FourGiven};

use crate::cycle::solve_periodic;
use crate::ends::solve_under_ends;
use rules::Condition;
use tensor_plan::AxisPlan;

mod cycle; // cycle.rt: of a periodic axis
mod ends; // ends.rt: under two ends
mod sweeps; // sweeps.rt: the ways forward and back, and the knot slopes

// The lanes that start at four places are solved; their knot slopes go `to` behind their numbers.
pub fn solve_four(
    w: &mut [f64],
    x: &[f64],
    condition: Condition,
    plan: AxisPlan,
    places: [usize; 4],
    to: usize,
    step: usize,
)
    requires { FourGiven w.old x.now condition plan places to step }
    ensures { Laid w.old w.new places to step (length x.now)
        (four_slope w.old x.now condition places step) }
{
    match (condition, plan) {
        (Condition::Endpoints(lower, upper), AxisPlan::Ends(ends)) => {
            solve_under_ends(w, x, lower, upper, ends, places, to, step);
        }
        (Condition::Periodic, AxisPlan::Cycle(cycle)) => {
            solve_periodic(w, x, cycle.ratio, cycle.rest, places, to, step);
        }
        // It is required that the plan is the condition's.
        _ => unreachable!(),
    }
}
