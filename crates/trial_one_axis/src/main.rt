// The worked examples on one axis.

#![tactic(auto)]

ghost use Rattle.std.specs.Prelude.{◌≤◌, length};

use rules::Condition;
use std::io::Stdout;
use trial_lines::{BEFORE, print, print_count};
use trial_one_axis_lines::{print_curve, print_moments, print_slopes};

// The moments, and the slopes at the knots, of which it requires at most 3.
fn moments_and_slopes(
    out: Stdout,
    name: &[u8],
    knots: &[f64],
    samples: &[f64],
    condition: Condition,
    moments: &mut [f64],
)
    requires { length knots.now ≤ 3 }
{
    let points = knots.len();
    let mut slopes = [BEFORE; 3];
    print_moments(out, name, points, knots, samples, condition, moments);
    print_slopes(
        out,
        name,
        points,
        knots,
        samples,
        moments,
        &mut slopes[0..points],
    );
}

// The moments, and the curve at a point, which has a name of its own.
fn moments_and_curve(
    out: Stdout,
    name: &[u8],
    knots: &[f64],
    samples: &[f64],
    condition: Condition,
    moments: &mut [f64],
    name_at_point: &[u8],
    point: f64,
) {
    let points = knots.len();
    print_moments(out, name, points, knots, samples, condition, moments);
    print_curve(out, name_at_point, points, knots, samples, moments, point);
}

fn natural(out: Stdout) {
    let knots = [0.0, 1.0, 2.0];
    let samples = [0.0, 1.0, 0.0];
    let mut moments = [BEFORE; 3];
    moments_and_slopes(
        out,
        b"natural",
        &knots,
        &samples,
        Condition::natural(),
        &mut moments,
    );
    print_curve(out, b"natural at 0.5", 3, &knots, &samples, &moments, 0.5);
}

fn first_derivatives(out: Stdout) {
    moments_and_curve(
        out,
        b"first derivatives",
        &[0.0, 1.0],
        &[0.0, 1.0],
        Condition::first_derivative(0.0, 0.0),
        &mut [BEFORE; 2],
        b"first derivatives at 0.5",
        0.5,
    );
}

fn not_a_knot(out: Stdout) {
    let knots = [0.0, 1.0, 2.0, 3.0];
    let samples = [1.0, 3.0, 5.0, 7.0];
    let mut moments = [BEFORE; 4];
    moments_and_curve(
        out,
        b"not a knot",
        &knots,
        &samples,
        Condition::not_a_knot(),
        &mut moments,
        b"not a knot at 1.5",
        1.5,
    );
    print_curve(out, b"not a knot at 4", 4, &knots, &samples, &moments, 4.0);
}

fn periodic(out: Stdout) {
    moments_and_slopes(
        out,
        b"periodic",
        &[0.0, 1.0],
        &[0.0, 5.0],
        Condition::periodic(),
        &mut [BEFORE; 2],
    );
}

// A curve that does not give its first sample exactly: 2 comes out one bit higher.
fn periodic_rounds(out: Stdout) {
    moments_and_curve(
        out,
        b"periodic rounds",
        &[0.0, 1.0, 2.0],
        &[2.0, 5.0, 1.0],
        Condition::periodic(),
        &mut [BEFORE; 3],
        b"periodic rounds at 0",
        0.0,
    );
}

// The cell of a point on knots 0 1 2.
fn cell(out: Stdout, name: &[u8], point: f64) {
    let knots = [0.0, 1.0, 2.0];
    let cell = axis_locate::locate_lower_index(&knots, point);
    print(out, name);
    print(out, b": cell");
    print_count(out, cell);
    print(out, b"\n");
}

fn cells(out: Stdout) {
    cell(out, b"point 1 on knots 0 1 2", 1.0);
    cell(out, b"point 2 on knots 0 1 2", 2.0);
    cell(out, b"point -1 on knots 0 1 2", -1.0);
}

fn main(rt: HostRuntime) {
    let out = rt.stdout();
    natural(out);
    first_derivatives(out);
    not_a_knot(out);
    periodic(out);
    periodic_rounds(out);
    cells(out);
}
