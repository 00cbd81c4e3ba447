// Two changes of one tensor in both orders: the same in the end where all four steps are accepted, and not where one is refused.

#![tactic(auto)]

use rules::{Axis, Condition};
use std::io::Stdout;
use trial_lines::BEFORE;
use trial_tensor_lines::{grids, print_build, print_change};

// What a change asks: a place, and its new sample.
#[derive(Clone, Copy)]
struct Change {
    place: [usize; 4],
    sample: f64,
}

// A build, and two changes one after the other.
fn in_order(
    out: Stdout,
    name: &[u8],
    axes: usize,
    all: [Axis; 4],
    knots: &[f64],
    samples: &[f64],
    tensor: &mut [f64],
    first: Change,
    second: Change,
) {
    print_build(out, name, axes, all, knots, samples, tensor);
    for change in [first, second] {
        print_change(
            out,
            name,
            axes,
            all,
            knots,
            tensor,
            change.place,
            change.sample,
        );
    }
}

// Four steps accepted. What stands past the axes in use is not read, so it need not be the same in both orders.
fn square(out: Stdout) {
    let natural = grids::axis(2, Condition::natural());
    let all = grids::two(natural, natural);
    let knots = [0.0, 1.0, 0.0, 1.0];
    let samples = [0.0, 0.0, 0.0, 1.0];
    let mut tensor = [BEFORE; 16];
    in_order(
        out,
        b"square, 0 1 then 1 0",
        2,
        all,
        &knots,
        &samples,
        &mut tensor,
        Change {
            place: [0, 1, 0, 0],
            sample: 2.0,
        },
        Change {
            place: [1, 0, 0, 0],
            sample: 3.0,
        },
    );
    in_order(
        out,
        b"square, 1 0 then 0 1",
        2,
        all,
        &knots,
        &samples,
        &mut tensor,
        Change {
            place: [1, 0, 9, 9],
            sample: 3.0,
        },
        Change {
            place: [0, 1, 9, 9],
            sample: 2.0,
        },
    );
}

// The second sample alone makes a slope of 2e308, which overflows, and so its change is refused, as is a fresh build with it. Once the
// first sample is 0 it is accepted.
fn steep(out: Stdout) {
    let all = grids::one(2, Condition::natural());
    let knots = [0.0, 1.0];
    let samples = [-1e308, 0.0];
    let mut tensor = [BEFORE; 4];
    let first = Change {
        place: [0, 0, 0, 0],
        sample: 0.0,
    };
    let second = Change {
        place: [1, 0, 0, 0],
        sample: 1e308,
    };
    in_order(
        out,
        b"steep, first then second",
        1,
        all,
        &knots,
        &samples,
        &mut tensor,
        first,
        second,
    );
    in_order(
        out,
        b"steep, second then first",
        1,
        all,
        &knots,
        &samples,
        &mut tensor,
        second,
        first,
    );
    let mut fresh = [BEFORE; 4];
    print_build(
        out,
        b"steep, second alone",
        1,
        all,
        &knots,
        &[-1e308, 1e308],
        &mut fresh,
    );
}

fn main(rt: HostRuntime) {
    let out = rt.stdout();
    square(out);
    steep(out);
}
