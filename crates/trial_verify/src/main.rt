// Tensors verified: as built, with a sample overwritten, repaired by a change with the sample that stands, damaged where no such change
// reaches, with another zero, and refused.

#![tactic(auto)]

use rules::{Axis, Condition};
use std::io::Stdout;
use tensor_verify::Verdict;
use trial_lines::{BEFORE, print, print_count, print_refusal, print_scratch};
use trial_tensor_lines::{grids, print_build, print_change, print_counts};

// What is told of a tensor.
fn print_verify(
    out: Stdout,
    name: &[u8],
    axes: usize,
    all: [Axis; 4],
    knots: &[f64],
    tensor: &[f64],
) {
    let mut scratch = [BEFORE; 2500];
    let given = tensor_verify::verify(axes, all, knots, tensor, &mut scratch);
    match given {
        Ok(Verdict::Whole) => print_verdict(out, name, 0, b" whole", [0; 4], 0, 0),
        Ok(
            Verdict::Differs {
                place,
                mask,
                differing,
            },
        ) => print_verdict(out, name, 0, b" not whole", place, mask, differing),
        Err(refusal) => print_verdict(out, name, refusal.number(), b" not whole", [0; 4], 0, 0),
    }
    print_scratch(out, &scratch);
}

// The start of the line: the refusal's number, whether the tensor is whole, and what is told of the first number that differs, each 0 where
// none does and after a refusal.
fn print_verdict(
    out: Stdout,
    name: &[u8],
    refusal: usize,
    whole: &[u8],
    place: [usize; 4],
    mask: usize,
    differing: usize,
) {
    print_refusal(out, name, b"verify", refusal);
    print(out, whole);
    print(out, b" place");
    print_counts(out, &place);
    print(out, b" mask");
    print_count(out, mask);
    print(out, b" differing");
    print_count(out, differing);
}

// One sample overwritten, as a loader did that kept the derivatives: the change with the sample that stands renews all that follow from it.
fn overwritten(out: Stdout) {
    let natural = grids::axis(3, Condition::natural());
    let all = grids::two(natural, natural);
    let knots = [0.0, 1.0, 2.0, 0.0, 1.0, 2.0];
    let mut tensor = [BEFORE; 36];
    let samples = [0.0, 1.0, 0.0, 1.0, 3.0, 1.0, 0.0, 1.0, 0.0];
    print_build(out, b"hill", 2, all, &knots, &samples, &mut tensor);
    print_verify(out, b"hill as built", 2, all, &knots, &tensor);
    tensor[16] = 5.0;
    print_verify(
        out,
        b"hill, sample 1 1 overwritten",
        2,
        all,
        &knots,
        &tensor,
    );
    print_change(
        out,
        b"hill, sample 1 1 that stands",
        2,
        all,
        &knots,
        &mut tensor,
        [1, 1, 0, 0],
        5.0,
    );
    print_verify(out, b"hill, changed so", 2, all, &knots, &tensor);
}

// A slope damaged in a lane that the changed place does not lie on: the change leaves it, and a build does not.
fn out_of_reach(out: Stdout) {
    let natural = grids::axis(2, Condition::natural());
    let all = grids::two(natural, natural);
    let knots = [0.0, 1.0, 0.0, 1.0];
    let mut tensor = [BEFORE; 16];
    let samples = [0.0, 0.0, 0.0, 1.0];
    print_build(out, b"square", 2, all, &knots, &samples, &mut tensor);
    tensor[1] = 9.0;
    print_verify(
        out,
        b"square, slope at 0 0 damaged",
        2,
        all,
        &knots,
        &tensor,
    );
    print_change(
        out,
        b"square, sample 1 1 that stands",
        2,
        all,
        &knots,
        &mut tensor,
        [1, 1, 0, 0],
        1.0,
    );
    print_verify(out, b"square, changed so", 2, all, &knots, &tensor);
    print_build(out, b"square again", 2, all, &knots, &samples, &mut tensor);
    print_verify(out, b"square, built again", 2, all, &knots, &tensor);
}

// The bits decide: a slope of -0.0 where +0.0 belongs.
fn other_zero(out: Stdout) {
    let all = grids::one(3, Condition::natural());
    let knots = [0.0, 1.0, 2.0];
    let mut tensor = [BEFORE; 6];
    print_build(out, b"flat", 1, all, &knots, &[1.0, 1.0, 1.0], &mut tensor);
    tensor[3] = -0.0;
    print_verify(out, b"flat, slope 1 of -0.0", 1, all, &knots, &tensor);
}

fn refused(out: Stdout) {
    let all = grids::one(3, Condition::natural());
    let nan = 0.0 / 0.0;
    let three = [0.0, 1.0, 2.0];
    print_verify(out, b"no axis", 0, all, &three, &[0.0; 6]);
    print_verify(out, b"five numbers of six", 1, all, &three, &[0.0; 5]);
    print_verify(
        out,
        b"a slope of NaN",
        1,
        all,
        &three,
        &[0.0, 0.0, 0.0, nan, 0.0, 0.0],
    );
    print_verify(out, b"equal knots", 1, all, &[0.0, 1.0, 1.0], &[0.0; 6]);
    let few = grids::one(3, Condition::NOT_A_KNOT);
    print_verify(out, b"three points not a knot", 1, few, &three, &[0.0; 6]);
    print_verify(
        out,
        b"a build that overflows",
        1,
        all,
        &three,
        &[1.7e308, 0.0, -1.7e308, 0.0, 1.7e308, 0.0],
    );
}

fn main(rt: HostRuntime) {
    let out = rt.stdout();
    overwritten(out);
    out_of_reach(out);
    other_zero(out);
    refused(out);
}
