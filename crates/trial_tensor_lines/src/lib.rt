// Each call on a grid, shown as a line: the example's name, the call, the refusal's number, the later contents of what was lent.

#![tactic(auto)]

use rules::{Axis, Refusal, ValueInCell, number_told};
use std::io::Stdout;
use trial_lines::{
    BEFORE, print, print_count, print_number, print_numbers, print_output, print_refusal,
    print_scratch,
};

pub mod grids; // grids.rt: the grids and the samples of the examples

// What is shown of a query that refuses: +0.0, and 0 for each label.
pub const NOTHING: ValueInCell = ValueInCell {
    value: 0.0,
    labels: [0; 4],
};

// A build, with every number of the tensor.
pub fn print_build(
    out: Stdout,
    name: &[u8],
    axes: usize,
    all: [Axis; 4],
    knots: &[f64],
    samples: &[f64],
    tensor: &mut [f64],
) {
    let mut scratch = [BEFORE; 2500];
    let given = tensor::build(axes, all, knots, samples, tensor, &mut scratch);
    let refusal = number_told(given);
    print_refusal(out, name, b"build", refusal);
    print_output(out, refusal, tensor);
    print_scratch(out, &scratch);
}

// A change, with every number of the tensor.
pub fn print_change(
    out: Stdout,
    name: &[u8],
    axes: usize,
    all: [Axis; 4],
    knots: &[f64],
    tensor: &mut [f64],
    place: [usize; 4],
    sample: f64,
) {
    let mut scratch = [BEFORE; 2500];
    let given = tensor::change(axes, all, knots, tensor, &mut scratch, place, sample);
    print_lanes(out, name, given);
    print_numbers(out, tensor);
    print_scratch(out, &scratch);
}

// What a change gives: how many lanes it solved, none after a refusal.
pub fn print_lanes(out: Stdout, name: &[u8], given: Result<usize, Refusal>) {
    let (refusal, lanes) = match given {
        Ok(lanes) => (0, lanes),
        Err(refusal) => (refusal.number(), 0),
    };
    print_refusal(out, name, b"change", refusal);
    print(out, b" lanes");
    print_count(out, lanes);
}

// The value at a point, and its labels.
pub fn print_query(
    out: Stdout,
    name: &[u8],
    axes: usize,
    all: [Axis; 4],
    knots: &[f64],
    tensor: &[f64],
    coordinates: &[f64],
) {
    let given = query_full::query(axes, all, knots, tensor, coordinates);
    print_answer(out, name, b"query", given);
}

// What a query gives: the value, and the labels.
pub fn print_answer(out: Stdout, name: &[u8], call: &[u8], given: Result<ValueInCell, Refusal>) {
    match given {
        Ok(found) => print_value(out, name, call, 0, found),
        Err(refusal) => print_value(out, name, call, refusal.number(), NOTHING),
    }
    print(out, b"\n");
}

// The start of a query's line: behind the refusal's number the value and the labels.
pub fn print_value(out: Stdout, name: &[u8], call: &[u8], refusal: usize, found: ValueInCell) {
    print_refusal(out, name, call, refusal);
    print_number(out, found.value);
    print(out, b" labels");
    print_counts(out, &found.labels);
}

// The numbers of a place, or the labels of points.
pub fn print_counts(out: Stdout, counts: &[usize]) {
    for count in counts {
        print_count(out, *count);
    }
}
