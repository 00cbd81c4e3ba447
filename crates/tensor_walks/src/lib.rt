// All lanes of a walk over the working tensor solved: four at a time where their axis has a plan, else one after the other. Not a public
// call: it requires that the lanes lie in the working tensor, that no slope goes where another goes or where a number of theirs stands, and
// that a plan, if there is one, stands in its rows.

#![tactic(auto)]

ghost use Rattle.std.specs.Prelude.{IfSome, OnSome};
ghost use Rattle.tensor_walks.specs.Walked.{WalkGiven, WalkSolved};
ghost use Rattle.tensor_walks.specs.ByFour.{AxisStands, PlanKept};

use crate::by_four::solve_by_four;
use grid_scratch::TENSOR;
use rules::Condition;
use tensor_lane::solve_lane;
use tensor_plan::AxisPlan;
use tensor_starts::Walk;
use tensor_starts::walking::{first, next};

mod by_four; // by_four.rt: four lanes at a time

// All lanes of a walk, one after the other: the numbers of each stand where it starts, its slopes go `to` further on. It answers how many
// it solved: behind each the walk goes on by one.
fn solve_singly(
    w: &mut [f64],
    x: &[f64],
    condition: Condition,
    walk: Walk,
    to: usize,
    step: usize,
) -> usize
    requires { WalkGiven w.old x.now condition walk to step }
    ensures { WalkSolved w.old w.new x.now condition walk to step result }
{
    let mut cursor = first(walk);
    // A while: the walk's own cursor counts the lanes.
    while cursor.lane < walk.lanes {
        let from = TENSOR + cursor.at;
        solve_lane(w, x, condition, from, from + to, step);
        cursor = next(cursor, walk);
    }
    cursor.lane
}

// All lanes of a walk, and how many were solved. By four the plan is still there for the next walk along the axis; one after the other
// they would overwrite it.
pub fn solve_walk(
    w: &mut [f64],
    x: &[f64],
    condition: Condition,
    plan: Option<AxisPlan>,
    walk: Walk,
    to: usize,
    step: usize,
) -> usize
    requires { WalkGiven w.old x.now condition walk to step × IfSome plan (AxisStands w.old x.now condition) }
    ensures { WalkSolved w.old w.new x.now condition walk to step result
        × OnSome plan (PlanKept w.old w.new) }
{
    match plan {
        Some(made) => solve_by_four(w, x, condition, made, walk, to, step),
        None => solve_singly(w, x, condition, walk, to, step),
    }
}
