// The stepped surface at one point: each axis in its own direction, a point on a knot, between two and beyond all, and what is refused.
use crate::lines;
use rules::{Axis, Condition, Mode, StepDirection};
use std::io::Stdout;
use trial_tensor_lines::grids;

// One axis of three points with these knots, downward and upward.
fn both_directions(out: Stdout, name: &[u8], knots: &[f64], samples: &[f64], point: f64) {
    let all = grids::one(3, Condition::natural());
    let down = [StepDirection::Lower; 4];
    let up = [StepDirection::Upper; 4];
    lines::print_stepped(
        out,
        name,
        b"stepped down",
        1,
        all,
        down,
        knots,
        samples,
        &[point],
    );
    lines::print_stepped(
        out,
        name,
        b"stepped up",
        1,
        all,
        up,
        knots,
        samples,
        &[point],
    );
}

// Two axes of three points each, the first downward and the second upward.
fn on_two_axes(out: Stdout, name: &[u8], all: [Axis; 4], coordinates: &[f64]) {
    let directions = [
        StepDirection::Lower,
        StepDirection::Upper,
        StepDirection::Lower,
        StepDirection::Lower,
    ];
    let knots = [0.0, 1.0, 3.0, -2.0, 0.5, 1.0];
    let mut samples = [0.0; 9];
    grids::sawtooth(&mut samples);
    lines::print_stepped(
        out,
        name,
        b"stepped down and up",
        2,
        all,
        directions,
        &knots,
        &samples,
        coordinates,
    );
}

pub fn print_examples(out: Stdout) {
    let nan = 0.0 / 0.0;
    let samples = [5.0, 6.0, 8.0];
    both_directions(out, b"step at 0.5", &[0.0, 1.0, 2.0], &samples, 0.5);
    both_directions(out, b"step at 1", &[0.0, 1.0, 2.0], &samples, 1.0);
    both_directions(out, b"step at 9", &[0.0, 1.0, 2.0], &samples, 9.0);
    both_directions(out, b"step at -9", &[0.0, 1.0, 2.0], &samples, -9.0);
    both_directions(out, b"step at NaN", &[0.0, 1.0, 2.0], &samples, nan);
    both_directions(out, b"step on knots 0 2 1", &[0.0, 2.0, 1.0], &samples, 0.5);
    both_directions(
        out,
        b"step on two samples",
        &[0.0, 1.0, 2.0],
        &[5.0, 6.0],
        0.5,
    );
    let two = lines::two_of_three(Mode::Extend);
    on_two_axes(out, b"step on two axes", two, &[2.25, 0.75]);
    on_two_axes(out, b"step on two axes by one coordinate", two, &[2.25]);
}
