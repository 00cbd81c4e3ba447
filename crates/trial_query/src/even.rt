// The query of even axes and their profile: where its cell is not that of the search, what 21 tells, and hold that replaces first; what 7
// and 8 tell.
use crate::lines;
use rules::{Condition, Mode};
use std::io::Stdout;
use trial_tensor_lines::grids;

// 2 to the 64 steps: more than a whole number of 64 bits counts.
const TOO_FAR: f64 = 18446744073709551616.0;

// The knots 0 1 2 in a mode: inside, on the interior knot, on the last, and too far above.
fn in_mode(out: Stdout, mode: Mode, inside: &[u8], on_knot: &[u8], on_last: &[u8], too_far: &[u8]) {
    let all = grids::one_in_mode(3, Condition::natural(), mode);
    let knots = [0.0, 1.0, 2.0];
    let tensor = [0.0, 1.5, 1.0, 0.0, 0.5, 1.0];
    lines::print_full_and_even(out, inside, 1, all, &knots, &tensor, &[1.5]);
    lines::print_full_and_even(out, on_knot, 1, all, &knots, &tensor, &[1.0]);
    lines::print_full_and_even(out, on_last, 1, all, &knots, &tensor, &[2.0]);
    lines::print_full_and_even(out, too_far, 1, all, &knots, &tensor, &[TOO_FAR]);
}

// The same in each mode.
fn modes(out: Stdout) {
    in_mode(
        out,
        Mode::Extend,
        b"even, extend at 1.5",
        b"even, extend at 1",
        b"even, extend at 2",
        b"even, extend at 2^64",
    );
    in_mode(
        out,
        Mode::Hold,
        b"even, hold at 1.5",
        b"even, hold at 1",
        b"even, hold at 2",
        b"even, hold at 2^64",
    );
    in_mode(
        out,
        Mode::Refuse,
        b"even, refuse at 1.5",
        b"even, refuse at 1",
        b"even, refuse at 2",
        b"even, refuse at 2^64",
    );
}

// Two axes in refuse, of three knots each: 0, 1 and these.
fn two_axes(out: Stdout, name: &[u8], first: f64, second: f64, coordinates: &[f64]) {
    let all = lines::two_of_three(Mode::Refuse);
    let knots = [0.0, 1.0, first, 0.0, 1.0, second];
    let mut tensor = [0.0; 36];
    grids::sawtooth(&mut tensor);
    lines::print_even(out, name, 2, all, &knots, &tensor, coordinates);
    lines::print_profile(out, name, 2, all, &knots);
}

// The lowest axis that is not even, before a coordinate outside; and knots that do not rise, before it.
fn uneven(out: Stdout) {
    two_axes(out, b"steps 1 1 and 1 1", 2.0, 2.0, &[0.25, 1.75]);
    two_axes(out, b"steps 1 1 and 1 1 at 5 1", 2.0, 2.0, &[5.0, 1.0]);
    two_axes(out, b"steps 1 1 and 1 2 at 5 1", 2.0, 3.0, &[5.0, 1.0]);
    two_axes(out, b"steps 1 2 and 1 3 at 5 1", 3.0, 4.0, &[5.0, 1.0]);
    two_axes(out, b"steps 1 2 and 1 0 at 5 1", 3.0, 1.0, &[5.0, 1.0]);
}

// Knots that are refused: by 8 on the first axis, by 7 on the second before that, and by an interval that overflows.
fn refused_knots(out: Stdout) {
    two_axes(out, b"steps 1 -1 and 1 2", 0.0, 3.0, &[0.25, 0.5]);
    two_axes(out, b"steps 1 -1 and 1 NaN", 0.0, 0.0 / 0.0, &[0.25, 0.5]);
    let all = grids::one(3, Condition::natural());
    lines::print_profile(
        out,
        b"knots -1e308 1e308 1.5e308",
        1,
        all,
        &[-1e308, 1e308, 1.5e308],
    );
}

// Five knots, of which the last two are given.
fn five_knots(out: Stdout, name: &[u8], fourth: f64, fifth: f64) {
    let all = grids::one(5, Condition::natural());
    let mut tensor = [0.0; 10];
    grids::sawtooth(&mut tensor);
    let knots = [0.0, 1.0, 2.0, fourth, fifth];
    lines::print_even(out, name, 1, all, &knots, &tensor, &[0.5]);
    lines::print_profile(out, name, 1, all, &knots);
}

// The first interval that fails; and a fourth knot of 3 and 2 to the -42, which is just within the tolerance, and the next float, which is
// not.
fn intervals(out: Stdout) {
    five_knots(out, b"steps 1 1 2 4", 4.0, 8.0);
    five_knots(out, b"steps 1 1 1 2", 3.0, 5.0);
    five_knots(
        out,
        b"fourth knot at the tolerance",
        3.0000000000002274,
        4.0,
    );
    five_knots(out, b"fourth knot above it", 3.000000000000228, 4.0);
}

// The last knot, so far above the first that the quotient overflows.
fn out_of_reach(out: Stdout) {
    let all = grids::one(3, Condition::natural());
    let knots = [-1e308, 0.0, 1e308];
    let tensor = [0.0, 0.0, 1.0, 0.0, 2.0, 0.0];
    lines::print_full_and_even(
        out,
        b"knots -1e308 0 1e308 at 1e308",
        1,
        all,
        &knots,
        &tensor,
        &[1e308],
    );
}

pub fn print_examples(out: Stdout) {
    modes(out);
    uneven(out);
    refused_knots(out);
    intervals(out);
    out_of_reach(out);
}
