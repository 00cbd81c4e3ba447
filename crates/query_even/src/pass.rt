// All knots looked at in one pass for 7, 8 and 21: a flag is kept to the last knot of each axis, so the compiler looks at several at a
// time.
ghost use Rattle.std.specs.Prelude.{◌≡◌, false, ◌≤◌, length};
ghost use Rattle.rules.specs.Sizes.{place_of, sum_below};
ghost use Rattle.rules.specs.Refusals.{knots_refused};
ghost use Rattle.rules.specs.Even.{first_failing};
ghost use Rattle.grid.specs.GridOfCall.{InRange};
ghost use Rattle.query_even.specs.Lacking.{PassAmong};

// Whether the knots of an axis may be refused by 8 or by 21; where they may not, they are not. Where they rise and the whole axis is of
// finite length, so is every step of it. Not a public call: two points or more are required.
fn axis_may_be_refused(knots: &[f64]) -> bool
    requires { 2 ≤ length knots.now }
    ensures { result ≡ false
        → (knots_refused knots.now (length knots.now) ≡ false)
        × (first_failing knots.now (length knots.now) ≡ 0) }
{
    let last = knots.len() - 1;
    let step = knots[1] - knots[0];
    let tolerance = axis_even::tolerance(step);
    let mut found = !(knots[0] < knots[1]);
    for i in 1..last {
        found = found
            | !(knots[i] < knots[i + 1])
            | axis_even::may_fail(knots[i + 1] - knots[i], step, tolerance);
    }
    found || !base_numbers::is_finite(knots[last] - knots[0])
}

// Whether those of an axis in use may be. Not a public call: what refusals 1, 2 and 4 leave is required, and four points.
pub fn knots_may_be_refused(axes: usize, points: &[usize], knots: &[f64]) -> bool
    requires { InRange axes (place_of points.now) × (length points.now ≡ 4)
        × (length knots.now ≡ sum_below (place_of points.now) axes) }
    ensures { result ≡ false → PassAmong axes points.now knots.now }
{
    let mut begin = 0;
    for i in 0..axes {
        let end = begin + points[i];
        if axis_may_be_refused(&knots[begin..end]) {
            return true;
        }
        begin = end;
    }
    false
}
