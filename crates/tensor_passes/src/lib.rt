// A pass solves the lanes along an axis of the numbers at one mask, and stores their slopes at the target, the mask with the axis put in:
// the whole of them for a build, for a change those that agree with its place on every axis outside the target. None of these is a public
// call.

#![tactic(auto)]

ghost use Rattle.std.specs.Prelude.{◌≡◌, true, ◌^◌, ◌≤◌, length, OnSome};
ghost use Rattle.rules.specs.Ends.{condition_at, fewest_points};
ghost use Rattle.rules.specs.Sizes.{scratch_of_rows, place_of};
ghost use Rattle.grid_scratch.specs.Layout.{plan_row_length};
ghost use Rattle.grid.specs.GridOfCall.{grid, points_of, On};
ghost use Rattle.tensor_plan.specs.Plans.{fewest_planned};
ghost use Rattle.tensor_walks.specs.ByFour.{PlanKept};
ghost use Rattle.tensor_passes.specs.Planned.{Planned, PlannedFor};
ghost use Rattle.tensor_passes.specs.Passes.{
  lanes_solved,
  lanes_on_axis,
  lanes_solved_below,
  PassGiven,
  WorkGiven,
  Passed,
  AxisPassed,
  Refreshed,
};

use grid::{knots_before, masks, stride};
use rules::{Axis, Condition};
use tensor_plan::{AxisPlan, plan_axis};
use tensor_starts::walk_over;
use tensor_walks::solve_walk;

// The condition of an axis for the numbers at a mask: its own for samples, which stand at mask 0, and for derivatives the crossed one.
fn condition_at(mask: usize, condition: Condition) -> Condition
    ensures { result ≡ condition_at mask condition }
{
    if mask == 0 {
        condition
    } else {
        condition.crossed()
    }
}

// One pass, by the plan of its axis if it has one. It answers how many lanes it solved.
fn solve_lanes(
    w: &mut [f64],
    axes: usize,
    all: [Axis; 4],
    knots: &[f64],
    place: [usize; 4],
    whole: bool,
    axis: usize,
    mask: usize,
    plan: Option<AxisPlan>,
) -> usize
    requires { PassGiven (grid axes all knots.now) w.old (place_of place) axis mask
        × Planned (grid axes all knots.now) w.old axis plan }
    ensures { Passed (grid axes all knots.now) w.old w.new whole (place_of place) axis mask
        × (result ≡ lanes_solved (points_of all) axes whole axis mask) × OnSome plan (PlanKept w.old w.new) }
{
    let entry = all[axis];
    let n = entry.points;
    let begin = knots_before(all, axis);
    let x = &knots[begin..begin + n];
    let ends = entry.condition;
    let condition = condition_at(mask, ends);
    let bit = masks(axis);
    let step = stride(axes, all, axis) * masks(axes);
    let walk = walk_over(axes, all, place, whole, mask + bit, axis, mask);
    solve_walk(w, x, condition, plan, walk, bit, step)
}

// The passes along an axis, of each mask of the axes below it. It answers how many lanes they solved.
fn solve_masks(
    w: &mut [f64],
    axes: usize,
    all: [Axis; 4],
    knots: &[f64],
    place: [usize; 4],
    whole: bool,
    axis: usize,
    plan: Option<AxisPlan>,
) -> usize
    requires { PassGiven (grid axes all knots.now) w.old (place_of place) axis 0
        × Planned (grid axes all knots.now) w.old axis plan }
    ensures { AxisPassed (grid axes all knots.now) w.old w.new whole (place_of place) axis (2 ^ axis)
        × (result ≡ lanes_on_axis (points_of all) axes whole axis) }
{
    let limit = masks(axis);
    let mut lanes = 0;
    for mask in 0..limit {
        lanes += solve_lanes(w, axes, all, knots, place, whole, axis, mask, plan);
    }
    lanes
}

// Whether the lanes along an axis of n points are solved by four. A grid of one axis has a single lane, and no plan is longer than 128
// points; two points of a periodic axis leave nothing to solve.
fn goes_by_four(axes: usize, n: usize, ends: Condition) -> bool
    ensures { result ≡ true → fewest_points ends ≤ n → (n ≤ plan_row_length) × (fewest_planned ends ≤ n) }
{
    if axes == 1 || 128 < n {
        return false;
    }
    match ends {
        Condition::Endpoints(_, _) => true,
        Condition::Periodic => 2 < n,
    }
}

// The plan of an axis whose lanes are solved by four; another has none.
fn plan_for(w: &mut [f64], x: &[f64], axes: usize, ends: Condition) -> Option<AxisPlan>
    requires { (scratch_of_rows ≤ length w.old) × (fewest_points ends ≤ length x.now) }
    ensures { PlannedFor w.old w.new x.now ends result }
{
    if goes_by_four(axes, x.len(), ends) {
        Some(plan_axis(w, x, ends))
    } else {
        None
    }
}

// The passes along an axis, which is planned once for all of them. It answers how many lanes they solved.
fn solve_along(
    w: &mut [f64],
    axes: usize,
    all: [Axis; 4],
    knots: &[f64],
    place: [usize; 4],
    whole: bool,
    axis: usize,
) -> usize
    requires { PassGiven (grid axes all knots.now) w.old (place_of place) axis 0 }
    ensures { AxisPassed (grid axes all knots.now) w.old w.new whole (place_of place) axis (2 ^ axis)
        × (result ≡ lanes_on_axis (points_of all) axes whole axis) }
{
    let entry = all[axis];
    let n = entry.points;
    let from = knots_before(all, axis);
    let ends = entry.condition;
    let plan = plan_for(w, &knots[from..from + n], axes, ends);
    solve_masks(w, axes, all, knots, place, whole, axis, plan)
}

// The passes along each axis, in rising order. It answers how many lanes they solved. It requires a grid that was not refused, a scratch
// with room for its tensor, and a place on the grid.
pub fn solve_axes(
    w: &mut [f64],
    axes: usize,
    all: [Axis; 4],
    knots: &[f64],
    place: [usize; 4],
    whole: bool,
) -> usize
    requires { WorkGiven (grid axes all knots.now) w.old × On (grid axes all knots.now) (place_of place) }
    ensures { Refreshed (grid axes all knots.now) w.old w.new whole (place_of place) axes
        × (result ≡ lanes_solved_below (points_of all) axes whole axes) }
{
    let mut lanes = 0;
    for axis in 0..axes {
        lanes += solve_along(w, axes, all, knots, place, whole, axis);
    }
    lanes
}
