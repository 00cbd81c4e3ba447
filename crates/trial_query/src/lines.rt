// The queries of a tensor and the stepped surface, shown as lines: the example's name, the call, the refusal's number, the value, and the
// labels or the indices.
use query_profile::ProfileRefusal;
use rules::{Axis, Condition, EvenRefusal, Mode, Refusal, StepDirection, SteppedSample};
use std::io::Stdout;
use trial_lines::{print, print_count, print_number, print_refusal};
use trial_tensor_lines::{NOTHING, grids, print_answer, print_counts, print_query, print_value};

// What is shown of the stepped surface when it refuses: +0.0, and 0 for each index.
const NO_SAMPLE: SteppedSample = SteppedSample {
    value: 0.0,
    indices: [0; 4],
};

// Two axes of three points each, both in one mode.
pub fn two_of_three(mode: Mode) -> [Axis; 4] {
    let axis = Axis {
        points: 3,
        condition: Condition::natural(),
        mode,
    };
    grids::two(axis, axis)
}

// The quick query.
pub fn print_quick(
    out: Stdout,
    name: &[u8],
    axes: usize,
    all: [Axis; 4],
    knots: &[f64],
    tensor: &[f64],
    coordinates: &[f64],
) {
    let given = query_quick::quick_query(axes, all, knots, tensor, coordinates);
    print_answer(out, name, b"quick query", given);
}

// The direct query.
pub fn print_direct(
    out: Stdout,
    name: &[u8],
    axes: usize,
    all: [Axis; 4],
    knots: &[f64],
    tensor: &[f64],
    coordinates: &[f64],
) {
    let given = query_direct::direct_query(axes, all, knots, tensor, coordinates);
    print_answer(out, name, b"direct query", given);
}

// The query of even axes, with the axis that is not even and its interval.
pub fn print_even(
    out: Stdout,
    name: &[u8],
    axes: usize,
    all: [Axis; 4],
    knots: &[f64],
    tensor: &[f64],
    coordinates: &[f64],
) {
    let given = query_even::even_query(axes, all, knots, tensor, coordinates);
    let (refusal, found, axis, interval) = match given {
        Ok(found) => (0, found, 0, 0),
        Err(EvenRefusal::Refused(refusal)) => (refusal.number(), NOTHING, 0, 0),
        Err(EvenRefusal::Uneven { axis, interval }) => {
            (Refusal::Uneven.number(), NOTHING, axis, interval)
        }
    };
    print_value(out, name, b"even query", refusal, found);
    print(out, b" uneven");
    print_count(out, axis);
    print_count(out, interval);
    print(out, b"\n");
}

// The profile of even axes, with the axis that is refused and its knot or interval.
pub fn print_profile(out: Stdout, name: &[u8], axes: usize, all: [Axis; 4], knots: &[f64]) {
    let (refusal, axis, place) = match query_profile::even_profile(axes, all, knots) {
        Ok(()) => (0, 0, 0),
        Err(ProfileRefusal::Refused(refusal)) => (refusal.number(), 0, 0),
        Err(ProfileRefusal::NotFinite(lack)) => (Refusal::Number.number(), lack.axis, lack.place),
        Err(ProfileRefusal::NotRising(lack)) => (Refusal::Knots.number(), lack.axis, lack.place),
        Err(ProfileRefusal::Uneven(lack)) => (Refusal::Uneven.number(), lack.axis, lack.place),
    };
    print_refusal(out, name, b"even profile", refusal);
    print(out, b" told");
    print_count(out, axis);
    print_count(out, place);
    print(out, b"\n");
}

// The query, and beside it the quick one.
pub fn print_full_and_quick(
    out: Stdout,
    name: &[u8],
    axes: usize,
    all: [Axis; 4],
    knots: &[f64],
    tensor: &[f64],
    coordinates: &[f64],
) {
    print_query(out, name, axes, all, knots, tensor, coordinates);
    print_quick(out, name, axes, all, knots, tensor, coordinates);
}

// The query, and beside it that of even axes.
pub fn print_full_and_even(
    out: Stdout,
    name: &[u8],
    axes: usize,
    all: [Axis; 4],
    knots: &[f64],
    tensor: &[f64],
    coordinates: &[f64],
) {
    print_query(out, name, axes, all, knots, tensor, coordinates);
    print_even(out, name, axes, all, knots, tensor, coordinates);
}

// The stepped surface, called by the directions that it is given.
pub fn print_stepped(
    out: Stdout,
    name: &[u8],
    call: &[u8],
    axes: usize,
    all: [Axis; 4],
    directions: [StepDirection; 4],
    knots: &[f64],
    samples: &[f64],
    coordinates: &[f64],
) {
    let given = step_surface::stepped(axes, all, directions, knots, samples, coordinates);
    let (refusal, found) = match given {
        Ok(found) => (0, found),
        Err(refusal) => (refusal.number(), NO_SAMPLE),
    };
    print_refusal(out, name, call, refusal);
    print_number(out, found.value);
    print(out, b" indices");
    print_counts(out, &found.indices);
    print(out, b"\n");
}
