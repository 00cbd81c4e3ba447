// Lists of changes with refused ones among them. After each the tensor is compared with a fresh build from the samples now standing.

#![tactic(auto)]

use crate::compared::ChangedSample;
use rules::Axis;
use std::io::Stdout;
use trial_lines::BEFORE;
use trial_tensor_lines::{grids, print_build, print_query};

mod axes;
mod changes;
mod compared;

// A build, and the changes of a list one after the other.
fn list(
    out: Stdout,
    name: &[u8],
    axes: usize,
    all: [Axis; 4],
    knots: &[f64],
    samples: &mut [f64],
    tensor: &mut [f64],
    list: [ChangedSample; 6],
) {
    print_build(out, name, axes, all, knots, samples, tensor);
    for change in list {
        compared::print_change(out, name, axes, all, knots, samples, tensor, change);
    }
}

fn one_axis(out: Stdout) {
    let all = axes::one();
    let knots = [0.0, 0.5, 2.0, 3.0, 7.0];
    let mut tensor = [BEFORE; 10];
    list(
        out,
        b"one axis",
        1,
        all,
        &knots,
        &mut [1.0, -2.0, 0.25, 8.0, 3.0],
        &mut tensor,
        changes::one_axis(),
    );
    print_query(out, b"one axis at 4", 1, all, &knots, &tensor, &[4.0]);
}

fn two_axes(out: Stdout) {
    let all = axes::two();
    let knots = [0.0, 1.0, 1.5, 4.0, -1.0, 0.0, 3.0];
    let mut samples = [0.0; 12];
    let mut tensor = [BEFORE; 48];
    grids::sawtooth(&mut samples);
    list(
        out,
        b"two axes",
        2,
        all,
        &knots,
        &mut samples,
        &mut tensor,
        changes::two_axes(),
    );
    print_query(
        out,
        b"two axes at 1.25 -2",
        2,
        all,
        &knots,
        &tensor,
        &[1.25, -2.0],
    );
}

fn three_axes(out: Stdout) {
    let all = axes::three();
    let knots = [0.0, 1.0, 3.0, 0.0, 0.5, 2.0, 3.0, -1.0, 1.0];
    let mut samples = [0.0; 24];
    let mut tensor = [BEFORE; 192];
    grids::sawtooth(&mut samples);
    list(
        out,
        b"three axes",
        3,
        all,
        &knots,
        &mut samples,
        &mut tensor,
        changes::three_axes(),
    );
    print_query(
        out,
        b"three axes at 1 2.5 0",
        3,
        all,
        &knots,
        &tensor,
        &[1.0, 2.5, 0.0],
    );
}

fn four_axes(out: Stdout) {
    let all = axes::four();
    let knots = [0.0, 1.0, 0.0, 1.0, 2.5, -3.0, 3.0, 10.0, 20.0];
    let mut samples = [0.0; 24];
    let mut tensor = [BEFORE; 384];
    grids::sawtooth(&mut samples);
    list(
        out,
        b"four axes",
        4,
        all,
        &knots,
        &mut samples,
        &mut tensor,
        changes::four_axes(),
    );
    print_query(
        out,
        b"four axes at 0.5 1 4 12",
        4,
        all,
        &knots,
        &tensor,
        &[0.5, 1.0, 4.0, 12.0],
    );
}

fn main(rt: HostRuntime) {
    let out = rt.stdout();
    one_axis(out);
    two_axes(out);
    three_axes(out);
    four_axes(out);
}
