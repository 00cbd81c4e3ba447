// The plan of an axis: what its lanes share, since it comes of knots and kinds of ends alone. It is made once and serves every mask, whose
// conditions differ in their numbers only. Not a public call: it requires a scratch of 2,048 numbers, at most 128 points, and at least 3 if
// periodic, else 2 and one more for each end that is NotAKnot.

#![tactic(auto)]

ghost use Rattle.tensor_plan.specs.Plans.{PlanGiven, AxisPlanned};

use crate::cycle::plan_cycle;
use crate::ends::plan_ends;
use rules::Condition;

mod cycle; // cycle.rt: of a periodic axis
mod ends; // ends.rt: under two ends

// Beside the rows of a plan under two ends: the first knot and the last that have a row of their own, and the number before the diagonal in
// the last of these rows.
#[derive(Clone, Copy)]
pub struct EndsPlan {
    pub low: usize,
    pub last: usize,
    pub sub: f64,
}

// Beside the rows of a periodic plan: corner over gamma, and the number that each lane's factor is divided by.
#[derive(Clone, Copy)]
pub struct CyclePlan {
    pub ratio: f64,
    pub rest: f64,
}

// A plan under either condition.
#[derive(Clone, Copy)]
pub enum AxisPlan {
    Ends(EndsPlan),
    Cycle(CyclePlan),
}

// The steps, divisors and helpers of an axis go to the rows of the plan, and of a periodic one z, the second solve.
pub fn plan_axis(w: &mut [f64], x: &[f64], condition: Condition) -> AxisPlan
    requires { PlanGiven w.old x.now condition }
    ensures { AxisPlanned w.old w.new x.now condition result }
{
    match condition {
        Condition::Endpoints(lower, upper) => AxisPlan::Ends(plan_ends(w, x, lower, upper)),
        Condition::Periodic => AxisPlan::Cycle(plan_cycle(w, x)),
    }
}
