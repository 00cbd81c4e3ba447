// The sweeps over four lanes, row after row. None of these is a public call.
ghost use Rattle.std.specs.Prelude.{◌+◌, ◌<◌, ◌≤◌};
ghost use Rattle.rules.specs.Numbers.{at, ◌⊕◌, ◌⊖◌, ◌⊗◌, ◌⊘◌, two, six};
ghost use Rattle.tensor_fours.specs.Fours.{Lanewise};
ghost use Rattle.tensor_plan.specs.PlanOfEnds.{Room};
ghost use Rattle.tensor_four_lanes.specs.Sweeps.{Lanes, Sloped, Forward, Back, inner_slope, slope_at, Laid};

use grid_scratch::{DIVISORS, FOUR_MOMENTS, FOUR_SLOPES, HELPERS};
use tensor_fours::{get_row, load, minus, over, plus, set_row, store, times};

// The slopes of the steps from knot `from` to knot stop - 1.
pub fn slopes(w: &mut [f64], from: usize, stop: usize, places: [usize; 4], step: usize)
    requires { Lanes w.old stop places 0 step × (from ≤ stop) }
    ensures { Sloped w.old w.new from stop places step }
{
    let mut y = load(w, places, from * step);
    for k in from..stop {
        let next = load(w, places, (k + 1) * step);
        let s = over(minus(next, y), w[k]);
        set_row(w, FOUR_SLOPES, k, s);
        y = next;
    }
}

// A number of the second helper row: from two neighbouring slopes, the step between their knots, and the number before it.
fn next_helper(next: [f64; 4], s: [f64; 4], h: f64, d: [f64; 4], divisor: f64) -> [f64; 4]
    ensures { Lanewise result (λ l. (six ⊗ (at next l ⊖ at s l) ⊖ h ⊗ at d l) ⊘ divisor) }
{
    over(minus(times(6.0, minus(next, s)), times(h, d)), divisor)
}

// Slopes and second helper row behind knot `first`, up to knot stop - 1.
pub fn forward(w: &mut [f64], first: usize, stop: usize, places: [usize; 4], step: usize)
    requires { Lanes w.old stop places 0 step × (first < stop) }
    ensures { Forward w.old w.new first stop places step }
{
    let mut y = load(w, places, (first + 1) * step);
    let mut s = get_row(w, FOUR_SLOPES, first);
    let mut d = get_row(w, FOUR_MOMENTS, first);
    for k in first..stop - 1 {
        let i = k + 1;
        let ahead = load(w, places, (i + 1) * step);
        let next_s = over(minus(ahead, y), w[i]);
        let next_d = next_helper(next_s, s, w[k], d, w[DIVISORS + i]);
        set_row(w, FOUR_SLOPES, i, next_s);
        set_row(w, FOUR_MOMENTS, i, next_d);
        y = ahead;
        s = next_s;
        d = next_d;
    }
}

// The moments over the second helper row, from knot from - 1 down to knot `low`.
pub fn back(w: &mut [f64], low: usize, from: usize)
    requires { Room w.old from × (low ≤ from) }
    ensures { Back w.old w.new low from }
{
    let mut m = get_row(w, FOUR_MOMENTS, from);
    for k in (low..from).rev() {
        m = minus(get_row(w, FOUR_MOMENTS, k), times(w[HELPERS + k], m));
        set_row(w, FOUR_MOMENTS, k, m);
    }
}

// The knot slope at the lower end of a step, by its slope and its two moments.
fn inner_slope(s: [f64; 4], h: f64, m: [f64; 4], next: [f64; 4]) -> [f64; 4]
    ensures { Lanewise result (λ l. at s l ⊖ h ⊗ (two ⊗ at m l ⊕ at next l) ⊘ six) }
{
    minus(s, over(times(h, plus(times(2.0, m), next)), 6.0))
}

// The knot slope at its upper end: that of the last knot.
fn last_slope(s: [f64; 4], h: f64, before: [f64; 4], m: [f64; 4]) -> [f64; 4]
    ensures { Lanewise result (λ l. at s l ⊕ h ⊗ (at before l ⊕ two ⊗ at m l) ⊘ six) }
{
    plus(s, over(times(h, plus(before, times(2.0, m))), 6.0))
}

// The knot slopes of the first n knots go to their places. Each four goes to its row of slopes too, which nothing reads any more: without
// that store the compiler computes the lanes one by one.
fn store_inner_slopes(w: &mut [f64], n: usize, places: [usize; 4], to: usize, step: usize)
    requires { Lanes w.old n places to step }
    ensures { Laid w.old w.new places to step n (inner_slope w.old) }
{
    let mut m = get_row(w, FOUR_MOMENTS, 0);
    for k in 0..n {
        let next = get_row(w, FOUR_MOMENTS, k + 1);
        let s = get_row(w, FOUR_SLOPES, k);
        let r = inner_slope(s, w[k], m, next);
        set_row(w, FOUR_SLOPES, k, r);
        store(w, places, to + k * step, r);
        m = next;
    }
}

// The knot slopes of all n + 1 knots go to their places.
pub fn store_slopes(w: &mut [f64], n: usize, places: [usize; 4], to: usize, step: usize)
    requires { Lanes w.old n places to step × (0 < n) }
    ensures { Laid w.old w.new places to step (n + 1) (slope_at w.old n) }
{
    let s = get_row(w, FOUR_SLOPES, n - 1);
    let before = get_row(w, FOUR_MOMENTS, n - 1);
    let m = get_row(w, FOUR_MOMENTS, n);
    let last = last_slope(s, w[n - 1], before, m);
    store_inner_slopes(w, n, places, to, step);
    store(w, places, to + n * step, last);
}
