// Refusal 8.
ghost use Rattle.std.specs.Prelude.{◌≡◌, not, ◌||◌, ◌-◌, ◌≤◌, length};
ghost use Rattle.std.specs.Float.Ieee.{lt};
ghost use Rattle.std.specs.Float.Ieee.Scale.{finite};
ghost use Rattle.rules.specs.Numbers.{◌⊖◌, any};
ghost use Rattle.rules.specs.Sizes.{place_of, sum_below, knots_length};
ghost use Rattle.rules.specs.Refusals.{knots_refused, some_knots_refused};
ghost use Rattle.grid.specs.GridOfCall.{grid, sizes_of, points_of, InRange};
ghost use Rattle.grid_checks.specs.Rising.{not_rising};
ghost use Rattle.grid_checks.specs.Check.{knots_of_points_refused};

use rules::Axis;

// Whether a knot does not rise to the next, or the step between them overflows. Where it rises the step is never the lower infinity, so one
// comparison tells whether it is finite.
pub fn step_refused(knot: f64, next: f64) -> bool
    ensures { result ≡ (not (lt knot next) || not (finite (next ⊖ knot))) }
{
    let infinity = f64::from_bits(0x7FF0000000000000);
    if knot < next {
        !(next - knot < infinity)
    } else {
        true
    }
}

// Whether a knot does not rise to the next. The flag is kept to the last knot, so the compiler looks at several knots at a time. Not a
// public call: a knot is required.
fn some_knot_not_rising(knots: &[f64]) -> bool
    requires { 1 ≤ length knots.now }
    ensures { result ≡ any (not_rising knots.now) (length knots.now - 1) }
{
    let last = knots.len() - 1;
    let mut found = false;
    for i in 0..last {
        found |= !(knots[i] < knots[i + 1]);
    }
    found
}

// Whether a knot does not rise to the next or a step overflows, each step looked at.
fn some_step_refused(knots: &[f64]) -> bool
    ensures { result ≡ knots_refused knots.now (length knots.now) }
{
    let mut refused = false;
    for i in 0..knots.len().saturating_sub(1) {
        refused |= step_refused(knots[i], knots[i + 1]);
    }
    refused
}

// Whether an axis's knots are refused: one does not rise to the next, or a step overflows. Where they rise and the whole axis is of finite
// length, so is every step of it, and none is looked at.
pub fn knots_refused(knots: &[f64]) -> bool
    ensures { result ≡ knots_refused knots.now (length knots.now) }
{
    if knots.len() < 2 {
        return false;
    }
    if some_knot_not_rising(knots) {
        return true;
    }
    if base_numbers::is_finite(knots[knots.len() - 1] - knots[0]) {
        return false;
    }
    some_step_refused(knots)
}

// Whether the knots of an axis of so many points are. Not a public call: what refusals 1, 2 and 4 leave is required, and four points.
pub fn knots_of_points_refused(axes: usize, points: &[usize], knots: &[f64]) -> bool
    requires { InRange axes (place_of points.now) × (length points.now ≡ 4)
        × (length knots.now ≡ sum_below (place_of points.now) axes) }
    ensures { result ≡ knots_of_points_refused axes (place_of points.now) knots.now }
{
    let mut start = 0;
    for i in 0..axes {
        let end = start + points[i];
        if knots_refused(&knots[start..end]) {
            return true;
        }
        start = end;
    }
    false
}

// Whether the knots of an axis in use are. Not a public call: what refusals 1, 2 and 4 leave is required.
pub fn some_knots_refused(axes: usize, all: [Axis; 4], knots: &[f64]) -> bool
    requires { (InRange axes (points_of all)) × (length knots.now ≡ knots_length (sizes_of axes all)) }
    ensures { result ≡ some_knots_refused (grid axes all knots.now) }
{
    let points = grid::points_of(all);
    knots_of_points_refused(axes, &points, knots)
}
