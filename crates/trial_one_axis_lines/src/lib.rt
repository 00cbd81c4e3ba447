// Each call on one axis, shown as a line: the example's name, the call, the refusal's number, the later contents of what was lent.

#![tactic(auto)]

use rules::{Condition, number_told};
use std::io::Stdout;
use trial_lines::{BEFORE, print, print_number, print_output, print_refusal, print_scratch};

// The moments, with a scratch of any length.
pub fn print_moments_in(
    out: Stdout,
    name: &[u8],
    points: usize,
    knots: &[f64],
    samples: &[f64],
    condition: Condition,
    moments: &mut [f64],
    scratch: &mut [f64],
) {
    let given = axis_curve::moments(points, knots, samples, condition, moments, scratch);
    let refusal = number_told(given);
    print_refusal(out, name, b"moments", refusal);
    print_output(out, refusal, moments);
    print_scratch(out, scratch);
}

// The moments, with a scratch longer than the 2,048 numbers that are asked for.
pub fn print_moments(
    out: Stdout,
    name: &[u8],
    points: usize,
    knots: &[f64],
    samples: &[f64],
    condition: Condition,
    moments: &mut [f64],
) {
    let mut scratch = [BEFORE; 2100];
    print_moments_in(
        out,
        name,
        points,
        knots,
        samples,
        condition,
        moments,
        &mut scratch,
    );
}

// The slopes at the knots.
pub fn print_slopes(
    out: Stdout,
    name: &[u8],
    points: usize,
    knots: &[f64],
    samples: &[f64],
    moments: &[f64],
    slopes: &mut [f64],
) {
    let given = axis_curve::knot_slopes(points, knots, samples, moments, slopes);
    let refusal = number_told(given);
    print_refusal(out, name, b"slopes", refusal);
    print_output(out, refusal, slopes);
    print(out, b"\n");
}

// The curve at a point, +0.0 after a refusal.
pub fn print_curve(
    out: Stdout,
    name: &[u8],
    points: usize,
    knots: &[f64],
    samples: &[f64],
    moments: &[f64],
    point: f64,
) {
    let (refusal, value) = match axis_curve::curve(points, knots, samples, moments, point) {
        Ok(value) => (0, value),
        Err(refusal) => (refusal.number(), 0.0),
    };
    print_refusal(out, name, b"curve", refusal);
    print_number(out, value);
    print(out, b"\n");
}
