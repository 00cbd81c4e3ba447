// The refusals of the calls on one axis, and beside them what is just accepted.

#![tactic(auto)]

ghost use Rattle.std.specs.Prelude.{◌≤◌, length};

use rules::{Condition, End};
use std::io::Stdout;
use trial_lines::BEFORE;
use trial_one_axis_lines::{print_curve, print_moments, print_moments_in, print_slopes};

// The three calls on the same slices, natural, the curve at 0.5.
fn each_call(
    out: Stdout,
    name: &[u8],
    points: usize,
    knots: &[f64],
    samples: &[f64],
    moments: &[f64],
    moments_out: &mut [f64],
    slopes_out: &mut [f64],
) {
    let natural = Condition::natural();
    print_moments(out, name, points, knots, samples, natural, moments_out);
    print_slopes(out, name, points, knots, samples, moments, slopes_out);
    print_curve(out, name, points, knots, samples, moments, 0.5);
}

// The three calls on as many points as knots, with moments of zero. It requires at most 257.
fn on_knots(out: Stdout, name: &[u8], knots: &[f64], samples: &[f64])
    requires { length knots.now ≤ 257 }
{
    let points = knots.len();
    let zeros = [0.0; 257];
    let mut moments = [BEFORE; 257];
    let mut slopes = [BEFORE; 257];
    each_call(
        out,
        name,
        points,
        knots,
        samples,
        &zeros[0..points],
        &mut moments[0..points],
        &mut slopes[0..points],
    );
}

// The three calls on two knots, with samples 0 and 1.
fn on_two_knots(out: Stdout, name: &[u8], first: f64, second: f64) {
    on_knots(out, name, &[first, second], &[0.0, 1.0]);
}

// 2: fewer than 2 points, more than 256.
fn points(out: Stdout) {
    on_knots(out, b"1 point", &[0.0], &[0.0]);
    on_knots(out, b"257 points", &[0.0; 257], &[0.0; 257]);
}

// The three calls for 2 points with slices of these lengths. It requires that none is longer than 3.
fn of_lengths(out: Stdout, name: &[u8], knots: usize, samples: usize, moments: usize, slopes: usize)
    requires { (knots ≤ 3) × (samples ≤ 3) × (moments ≤ 3) × (slopes ≤ 3) }
{
    let x = [0.0, 1.0, 2.0];
    let y = [0.0, 1.0, 2.0];
    let zeros = [0.0; 3];
    let mut moments_out = [BEFORE; 3];
    let mut slopes_out = [BEFORE; 3];
    each_call(
        out,
        name,
        2,
        &x[0..knots],
        &y[0..samples],
        &zeros[0..moments],
        &mut moments_out[0..moments],
        &mut slopes_out[0..slopes],
    );
}

// 4: each slice of another length than the points.
fn lengths(out: Stdout) {
    of_lengths(out, b"3 knots for 2 points", 3, 2, 2, 2);
    of_lengths(out, b"1 sample for 2 points", 2, 1, 2, 2);
    of_lengths(out, b"3 moments for 2 points", 2, 2, 3, 2);
    of_lengths(out, b"3 slopes for 2 points", 2, 2, 2, 3);
}

// The moments of 2 points in a scratch.
fn in_scratch(out: Stdout, name: &[u8], scratch: &mut [f64]) {
    let rising = [0.0, 1.0];
    let natural = Condition::natural();
    let mut moments = [BEFORE; 2];
    print_moments_in(
        out,
        name,
        2,
        &rising,
        &rising,
        natural,
        &mut moments,
        scratch,
    );
}

// 5: a scratch of one number less than 2,048, and one of just as many.
fn scratch(out: Stdout) {
    in_scratch(out, b"scratch of 2047", &mut [BEFORE; 2047]);
    in_scratch(out, b"scratch of 2048", &mut [BEFORE; 2048]);
}

// The moments of the first points of a zigzag. It requires at most 4.
fn first_points(out: Stdout, name: &[u8], points: usize, condition: Condition)
    requires { points ≤ 4 }
{
    let knots = [0.0, 1.0, 2.0, 3.0];
    let samples = [0.0, 1.0, 0.0, 1.0];
    let mut moments = [BEFORE; 4];
    print_moments(
        out,
        name,
        points,
        &knots[0..points],
        &samples[0..points],
        condition,
        &mut moments[0..points],
    );
}

// The curve through 0 and 1 at a point.
fn at_point(out: Stdout, name: &[u8], point: f64) {
    let rising = [0.0, 1.0];
    print_curve(out, name, 2, &rising, &rising, &[0.0; 2], point);
}

// 7: an infinity or NaN wherever a number is looked at.
fn not_finite(out: Stdout) {
    let nan = 0.0 / 0.0;
    let infinity = 1.0 / 0.0;
    at_point(out, b"NaN point", nan);
    at_point(out, b"infinite point", infinity);
    on_knots(out, b"NaN sample", &[0.0, 1.0], &[0.0, nan]);
    on_two_knots(out, b"infinite knot", 0.0, infinity);
    let ends = Condition::Endpoints(End::SecondDerivative(0.0), End::FirstDerivative(infinity));
    first_points(out, b"infinite end value", 2, ends);
}

// 8: knots that do not rise, and a step that overflows.
fn knots(out: Stdout) {
    on_two_knots(out, b"knots 0 and 0", 0.0, 0.0);
    on_two_knots(out, b"knots 0 and -0", 0.0, -0.0);
    on_two_knots(out, b"knots -1e308 and 1e308", -1e308, 1e308);
}

// 9: NotAKnot at both ends with too few points, and with just enough.
fn not_a_knot_at_both_ends(out: Stdout) {
    let both = Condition::not_a_knot();
    first_points(out, b"not a knot at both ends with 3 points", 3, both);
    first_points(out, b"not a knot at both ends with 4 points", 4, both);
}

// 9: the same at one end.
fn not_a_knot_at_one_end(out: Stdout) {
    let lower = Condition::Endpoints(End::NotAKnot, End::SecondDerivative(0.0));
    let upper = Condition::Endpoints(End::SecondDerivative(0.0), End::NotAKnot);
    first_points(out, b"not a knot at the lower end with 2 points", 2, lower);
    first_points(out, b"not a knot at the lower end with 3 points", 3, lower);
    first_points(out, b"not a knot at the upper end with 2 points", 2, upper);
    first_points(out, b"not a knot at the upper end with 3 points", 3, upper);
}

// 10: samples that overflow.
fn steep_samples(out: Stdout) {
    let knots = [0.0, 1.0, 2.0];
    let steep = [1e308, -1e308, 1e308];
    let natural = Condition::natural();
    let mut output = [BEFORE; 3];
    print_moments(
        out,
        b"steep samples",
        3,
        &knots,
        &steep,
        natural,
        &mut output,
    );
    print_slopes(
        out,
        b"steep samples",
        3,
        &knots,
        &steep,
        &[0.0; 3],
        &mut output,
    );
}

// 10: moments that overflow.
fn steep_moments(out: Stdout) {
    let knots = [0.0, 1.0, 2.0];
    let steep = [1e308, -1e308, 1e308];
    print_curve(
        out,
        b"steep moments at 9",
        3,
        &knots,
        &[0.0; 3],
        &steep,
        9.0,
    );
}

// 10, and not 7: moments are not searched for an infinity or NaN.
fn not_finite_moments(out: Stdout) {
    let rising = [0.0, 1.0];
    let moments = [0.0, 0.0 / 0.0];
    let mut slopes = [BEFORE; 2];
    print_slopes(
        out,
        b"NaN moment",
        2,
        &rising,
        &rising,
        &moments,
        &mut slopes,
    );
    print_curve(out, b"NaN moment", 2, &rising, &rising, &moments, 0.5);
}

fn main(rt: HostRuntime) {
    let out = rt.stdout();
    points(out);
    lengths(out);
    scratch(out);
    not_finite(out);
    knots(out);
    not_a_knot_at_both_ends(out);
    not_a_knot_at_one_end(out);
    steep_samples(out);
    steep_moments(out);
    not_finite_moments(out);
}
