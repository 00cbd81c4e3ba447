// The lanes of a walk four at a time, by the plan of their axis. None of these is a public call.
ghost use Rattle.std.specs.Prelude.{◌<◌, ◌≤◌};
ghost use Rattle.tensor_starts.specs.Walks.{Small, Stands};
ghost use Rattle.tensor_walks.specs.Walked.{WalkGiven, WalkSolved};
ghost use Rattle.tensor_walks.specs.ByFour.{AxisStands, PlanKept, Walking, Onward, FourSolved};

use grid_scratch::TENSOR;
use rules::Condition;
use tensor_four_lanes::solve_four;
use tensor_plan::AxisPlan;
use tensor_starts::walking::{first, next};
use tensor_starts::{Cursor, Walk};

// The walk with one lane more counted: at the next lane or, from the last, behind it, where its place stays that of the last. From there
// it goes no further, so a lane that stands in for a missing one is not counted.
fn onward(mut cursor: Cursor, walk: Walk) -> Cursor
    requires { Walking cursor walk × Small walk × (walk.lanes ≤ 4096) × (cursor.at ≤ 4096) }
    ensures { Onward cursor result walk }
{
    let lane = cursor.lane + 1;
    if lane < walk.lanes {
        return next(cursor, walk);
    }
    if walk.lanes < lane {
        return cursor;
    }
    cursor.lane = lane;
    cursor
}

// The next four lanes; where fewer are left, the last stands in for those that are missing. It answers the walk behind them.
fn solve_next_four(
    w: &mut [f64],
    x: &[f64],
    condition: Condition,
    plan: AxisPlan,
    walk: Walk,
    to: usize,
    step: usize,
    cursor: Cursor,
) -> Cursor
    requires { WalkGiven w.old x.now condition walk to step × AxisStands w.old x.now condition plan × Stands cursor walk
        × (cursor.lane < walk.lanes) }
    ensures { FourSolved w.old w.new x.now condition walk to step cursor result }
{
    let second = onward(cursor, walk);
    let third = onward(second, walk);
    let fourth = onward(third, walk);
    let places = [
        TENSOR + cursor.at,
        TENSOR + second.at,
        TENSOR + third.at,
        TENSOR + fourth.at,
    ];
    solve_four(w, x, condition, plan, places, to, step);
    onward(fourth, walk)
}

// All lanes of a walk. It answers how many it solved.
pub fn solve_by_four(
    w: &mut [f64],
    x: &[f64],
    condition: Condition,
    plan: AxisPlan,
    walk: Walk,
    to: usize,
    step: usize,
) -> usize
    requires { WalkGiven w.old x.now condition walk to step × AxisStands w.old x.now condition plan }
    ensures { WalkSolved w.old w.new x.now condition walk to step result
        × PlanKept w.old w.new }
{
    let mut cursor = first(walk);
    // A while: a turn goes on by four lanes or, at the end, by as many as are left.
    while cursor.lane < walk.lanes {
        cursor = solve_next_four(w, x, condition, plan, walk, to, step, cursor);
    }
    cursor.lane
}
