// Many points by one call: of three points the second is refused and stops nothing; and a call that is refused writes nothing.
use crate::lines;
use rules::{Axis, Condition, Mode, Refusal, StepDirection, number_told};
use std::io::Stdout;
use trial_lines::{BEFORE, print, print_numbers, print_refusal};
use trial_tensor_lines::{grids, print_counts};

// What stands in labels and refusals before a call.
const UNWRITTEN: usize = 9;

// A call on three points, by what it makes of the values, the labels and the refusals that it is lent, and what it leaves of these.
fn print_three<F: FnOnce(&mut [f64], &mut [usize], &mut [usize]) -> Result<(), Refusal>>(
    out: Stdout,
    name: &[u8],
    call: &[u8],
    asked: F,
)
    requires { F.IsAlwaysCallable asked }
{
    let mut values = [BEFORE; 3];
    let mut labels = [UNWRITTEN; 12];
    let mut refusals = [UNWRITTEN; 3];
    let given = asked(&mut values, &mut labels, &mut refusals);
    print_refusal(out, name, call, number_told(given));
    print_numbers(out, &values);
    print(out, b" labels");
    print_counts(out, &labels);
    print(out, b" refusals");
    print_counts(out, &refusals);
    print(out, b"\n");
}

// The quick query and the direct one, on one axis.
fn queries(out: Stdout, name: &[u8], mode: Mode, knots: &[f64], coordinates: &[f64]) {
    let all = grids::one_in_mode(4, Condition::natural(), mode);
    let tensor = [0.0, 1.0, 2.0, -1.0, 1.0, 0.5, -3.0, 2.0];
    print_three(out, name, b"quick queries", |values, labels, refusals| {
        query_many::quick_queries(
            1,
            all,
            knots,
            &tensor,
            coordinates,
            values,
            labels,
            refusals,
        )
    });
    print_three(out, name, b"direct queries", |values, labels, refusals| {
        query_many::direct_queries(
            1,
            all,
            knots,
            &tensor,
            coordinates,
            values,
            labels,
            refusals,
        )
    });
}

// The stepped surface.
fn steps(
    out: Stdout,
    name: &[u8],
    axes: usize,
    all: [Axis; 4],
    directions: [StepDirection; 4],
    knots: &[f64],
    samples: &[f64],
    coordinates: &[f64],
) {
    print_three(out, name, b"stepped many", |values, indices, refusals| {
        step_many::stepped_many(
            axes,
            all,
            directions,
            knots,
            samples,
            coordinates,
            values,
            indices,
            refusals,
        )
    });
}

fn stepped(out: Stdout) {
    let nan = 0.0 / 0.0;
    let down = [StepDirection::Lower; 4];
    let mixed = [
        StepDirection::Lower,
        StepDirection::Upper,
        StepDirection::Lower,
        StepDirection::Lower,
    ];
    let one = grids::one(3, Condition::natural());
    let samples = [5.0, 6.0, 8.0];
    steps(
        out,
        b"steps at 0.5 NaN 9",
        1,
        one,
        down,
        &[0.0, 1.0, 2.0],
        &samples,
        &[0.5, nan, 9.0],
    );
    steps(
        out,
        b"steps on knots 0 2 1",
        1,
        one,
        down,
        &[0.0, 2.0, 1.0],
        &samples,
        &[0.5, nan, 9.0],
    );
    steps(
        out,
        b"steps of two coordinates",
        1,
        one,
        down,
        &[0.0, 1.0, 2.0],
        &samples,
        &[0.5, nan],
    );
    let two = lines::two_of_three(Mode::Extend);
    let mut samples = [0.0; 9];
    grids::sawtooth(&mut samples);
    let knots = [0.0, 1.0, 3.0, -2.0, 0.5, 1.0];
    steps(
        out,
        b"steps on two axes",
        2,
        two,
        mixed,
        &knots,
        &samples,
        &[2.25, 0.75, 3.0, nan, -1.0, -2.0],
    );
}

pub fn print_examples(out: Stdout) {
    let nan = 0.0 / 0.0;
    queries(
        out,
        b"many at 1 NaN 3.25",
        Mode::Extend,
        &[0.0, 1.0, 2.0, 4.0],
        &[1.0, nan, 3.25],
    );
    queries(
        out,
        b"many at 1 9 3",
        Mode::Refuse,
        &[0.0, 1.0, 2.0, 3.0],
        &[1.0, 9.0, 3.0],
    );
    queries(
        out,
        b"many of two coordinates",
        Mode::Hold,
        &[0.0, 1.0, 2.0, 4.0],
        &[1.0, nan],
    );
    stepped(out);
}
