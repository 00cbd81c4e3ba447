// What the knots of an axis must be for a query of even axes, and the lowest axis in use that lacks it.
ghost use Rattle.std.specs.Prelude.{◌≡◌, ◌≤◌, length};
ghost use Rattle.rules.specs.Sizes.{place_of, sum_below};
ghost use Rattle.grid.specs.GridOfCall.{InRange};
ghost use Rattle.query_even.specs.Qualities.{lacks, first_lack};
ghost use Rattle.query_even.specs.Lacking.{LackAmong};
ghost use Rattle.query_even.specs.declared.qualities.Quality.TheVariants.{Finite, Rising};

use grid_checks::rising;

// What is asked of them: that each is finite (7), that they rise by finite steps (8), that every interval is near the first (21).
#[derive(Clone, Copy)]
pub enum Quality {
    Finite,
    Rising,
    Even,
}

// An axis that lacks it, and its first knot or interval that does.
#[derive(Clone, Copy)]
pub struct Lack {
    pub axis: usize,
    pub place: usize,
}

// The first knot that is infinite or NaN, and 0 where none is.
fn first_not_finite(knots: &[f64]) -> usize
    ensures { result ≡ first_lack Finite knots.now (length knots.now) }
{
    for i in 0..knots.len() {
        if !base_numbers::is_finite(knots[i]) {
            return i;
        }
    }
    0
}

// The first knot from which the step to the next is refused, and 0 where none is.
fn first_step_refused(knots: &[f64]) -> usize
    ensures { result ≡ first_lack Rising knots.now (length knots.now) }
{
    for i in 0..knots.len().saturating_sub(1) {
        if rising::step_refused(knots[i], knots[i + 1]) {
            return i;
        }
    }
    0
}

// Whether the knots of an axis lack it. Not a public call: two points or more are required.
fn lacks(quality: Quality, knots: &[f64]) -> bool
    requires { 2 ≤ length knots.now }
    ensures { result ≡ lacks quality knots.now (length knots.now) }
{
    match quality {
        Quality::Finite => base_numbers::any_not_finite(knots),
        Quality::Rising => rising::knots_refused(knots),
        Quality::Even => 0 < axis_even::validate_uniform_grid_epsilon(knots),
    }
}

// By which of them it does first, and 0 where it does not. Not a public call: two points or more are required.
fn first_lack(quality: Quality, knots: &[f64]) -> usize
    requires { 2 ≤ length knots.now }
    ensures { result ≡ first_lack quality knots.now (length knots.now) }
{
    match quality {
        Quality::Finite => first_not_finite(knots),
        Quality::Rising => first_step_refused(knots),
        Quality::Even => axis_even::validate_uniform_grid_epsilon(knots),
    }
}

// The lowest axis that lacks it, if one does, on axes of so many points.
pub fn first_lacking(quality: Quality, axes: usize, points: &[usize], knots: &[f64]) -> Option<Lack>
    requires { InRange axes (place_of points.now) × (length points.now ≡ 4)
        × (length knots.now ≡ sum_below (place_of points.now) axes) }
    ensures { LackAmong quality axes points.now knots.now result }
{
    let mut begin = 0;
    for i in 0..axes {
        let end = begin + points[i];
        if lacks(quality, &knots[begin..end]) {
            return Some(Lack {
                axis: i,
                place: first_lack(quality, &knots[begin..end]),
            });
        }
        begin = end;
    }
    None
}
