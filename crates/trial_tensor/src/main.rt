// The worked examples of tensor, query and change, and their limits.

#![tactic(auto)]

ghost use Rattle.std.specs.Prelude.{◌≤◌, length};

use rules::{Axis, Condition, Mode, number_told};
use std::io::Stdout;
use trial_lines::{BEFORE, print_numbers, print_output, print_refusal, print_scratch};
use trial_tensor_lines::{grids, print_build, print_change, print_query};

// A build on a grid near the limit, with its first numbers.
fn print_large_build(
    out: Stdout,
    name: &[u8],
    axes: usize,
    all: [Axis; 4],
    knots: &[f64],
    samples: &[f64],
    tensor: &mut [f64],
)
    requires { 8 ≤ length tensor.old }
{
    let mut scratch = [BEFORE; 6144];
    let given = tensor::build(axes, all, knots, samples, tensor, &mut scratch);
    let refusal = number_told(given);
    print_refusal(out, name, b"build", refusal);
    if given.is_ok() {
        print_numbers(out, &tensor[0..8]);
    } else {
        print_output(out, refusal, tensor);
    }
    print_scratch(out, &scratch);
}

// Natural on both axes: the tensor, the query, and one changed sample.
fn square(out: Stdout) {
    let natural = grids::axis(2, Condition::natural());
    let all = grids::two(natural, natural);
    let knots = [0.0, 1.0, 0.0, 1.0];
    let mut tensor = [BEFORE; 16];
    print_build(
        out,
        b"square",
        2,
        all,
        &knots,
        &[0.0, 0.0, 0.0, 1.0],
        &mut tensor,
    );
    print_query(
        out,
        b"square at 0.5 0.5",
        2,
        all,
        &knots,
        &tensor,
        &[0.5, 0.5],
    );
    print_change(
        out,
        b"square, sample 0 1 becomes 2",
        2,
        all,
        &knots,
        &mut tensor,
        [0, 1, 0, 0],
        2.0,
    );
}

// The label of a point on an interior knot, on the last one, and below the first.
fn labels(out: Stdout) {
    let all = grids::one(3, Condition::natural());
    let knots = [0.0, 1.0, 2.0];
    let mut tensor = [BEFORE; 6];
    print_build(
        out,
        b"knots 0 1 2",
        1,
        all,
        &knots,
        &[0.0, 1.0, 0.0],
        &mut tensor,
    );
    print_query(out, b"knots 0 1 2 at 1", 1, all, &knots, &tensor, &[1.0]);
    print_query(out, b"knots 0 1 2 at 2", 1, all, &knots, &tensor, &[2.0]);
    print_query(out, b"knots 0 1 2 at -1", 1, all, &knots, &tensor, &[-1.0]);
    print_query(
        out,
        b"knots 0 1 2 at NaN",
        1,
        all,
        &knots,
        &tensor,
        &[0.0 / 0.0],
    );
}

// The points -1, 0, 2 and 3 beside the knots 0 1 2 in one mode.
fn in_mode(out: Stdout, mode: Mode, below: &[u8], first: &[u8], last: &[u8], above: &[u8]) {
    let all = grids::one_in_mode(3, Condition::natural(), mode);
    let knots = [0.0, 1.0, 2.0];
    let tensor = [0.0, 1.5, 1.0, 0.0, 0.0, -1.5];
    print_query(out, below, 1, all, &knots, &tensor, &[-1.0]);
    print_query(out, first, 1, all, &knots, &tensor, &[0.0]);
    print_query(out, last, 1, all, &knots, &tensor, &[2.0]);
    print_query(out, above, 1, all, &knots, &tensor, &[3.0]);
}

// The same points in each mode.
fn modes(out: Stdout) {
    in_mode(
        out,
        Mode::Extend,
        b"extend at -1",
        b"extend at 0",
        b"extend at 2",
        b"extend at 3",
    );
    in_mode(
        out,
        Mode::Hold,
        b"hold at -1",
        b"hold at 0",
        b"hold at 2",
        b"hold at 3",
    );
    in_mode(
        out,
        Mode::Refuse,
        b"refuse at -1",
        b"refuse at 0",
        b"refuse at 2",
        b"refuse at 3",
    );
}

// 32 by 32 points make 4,096 numbers, the most that a tensor holds.
fn largest(out: Stdout) {
    let natural = grids::axis(32, Condition::natural());
    let mut knots = [0.0; 64];
    let mut samples = [0.0; 1024];
    let mut tensor = [BEFORE; 4096];
    grids::rising(&mut knots, 32);
    grids::sawtooth(&mut samples);
    print_large_build(
        out,
        b"32 by 32 points",
        2,
        grids::two(natural, natural),
        &knots,
        &samples,
        &mut tensor,
    );
}

// 25 by 41 points would make 4,100.
fn too_large(out: Stdout) {
    let first = grids::axis(25, Condition::natural());
    let second = grids::axis(41, Condition::natural());
    let mut knots = [0.0; 66];
    let samples = [0.0; 1025];
    let mut tensor = [BEFORE; 4100];
    grids::rising(&mut knots, 25);
    print_large_build(
        out,
        b"25 by 41 points",
        2,
        grids::two(first, second),
        &knots,
        &samples,
        &mut tensor,
    );
}

// No axis, and five.
fn axes(out: Stdout) {
    let natural = grids::axis(2, Condition::natural());
    let all = [natural, natural, natural, natural];
    let knots = [0.0; 10];
    let samples = [0.0; 32];
    let mut tensor = [BEFORE; 16];
    print_build(out, b"five axes", 5, all, &knots, &samples, &mut tensor);
    print_build(out, b"no axis", 0, all, &knots, &samples, &mut tensor);
}

fn main(rt: HostRuntime) {
    let out = rt.stdout();
    square(out);
    labels(out);
    modes(out);
    largest(out);
    too_large(out);
    axes(out);
}
