// The quick query: the query's answer on knots that this accepts, an answer on others too, and what it refuses.
use crate::lines;
use rules::{Condition, Mode};
use std::io::Stdout;
use trial_tensor_lines::grids;

// One axis of rising knots in a mode, at the interior knot 1, inside, and outside.
fn on_rising_knots(out: Stdout, mode: Mode, on_knot: &[u8], inside: &[u8], outside: &[u8]) {
    let all = grids::one_in_mode(4, Condition::natural(), mode);
    let knots = [0.0, 1.0, 2.0, 4.0];
    let tensor = [0.0, 1.0, 2.0, -1.0, 1.0, 0.5, -3.0, 2.0];
    lines::print_full_and_quick(out, on_knot, 1, all, &knots, &tensor, &[1.0]);
    lines::print_full_and_quick(out, inside, 1, all, &knots, &tensor, &[3.25]);
    lines::print_full_and_quick(out, outside, 1, all, &knots, &tensor, &[9.0]);
}

// The same in each mode.
fn modes(out: Stdout) {
    on_rising_knots(
        out,
        Mode::Extend,
        b"extend at 1",
        b"extend at 3.25",
        b"extend at 9",
    );
    on_rising_knots(out, Mode::Hold, b"hold at 1", b"hold at 3.25", b"hold at 9");
    on_rising_knots(
        out,
        Mode::Refuse,
        b"refuse at 1",
        b"refuse at 3.25",
        b"refuse at 9",
    );
}

// Two axes.
fn two_axes(out: Stdout) {
    let all = lines::two_of_three(Mode::Extend);
    let knots = [0.0, 1.0, 3.0, -2.0, 0.5, 1.0];
    let mut tensor = [0.0; 36];
    grids::sawtooth(&mut tensor);
    lines::print_full_and_quick(out, b"two axes", 2, all, &knots, &tensor, &[2.25, 0.75]);
}

// Six knots, of which the search for 2.5 does not look at the second, whatever that is.
fn off_the_path(out: Stdout, name: &[u8], second: f64) {
    let all = grids::one(6, Condition::natural());
    let knots = [0.0, second, 2.0, 3.0, 4.0, 5.0];
    let mut tensor = [0.0; 12];
    grids::sawtooth(&mut tensor);
    lines::print_full_and_quick(out, name, 1, all, &knots, &tensor, &[2.5]);
}

// Knots that fall, through which the search goes by halves; a cell of two knots that do not rise.
fn falling(out: Stdout) {
    let all = grids::one(5, Condition::natural());
    let mut tensor = [0.0; 10];
    grids::sawtooth(&mut tensor);
    let knots = [0.0, 5.0, 1.0, 2.0, 10.0];
    lines::print_full_and_quick(
        out,
        b"knots 0 5 1 2 10 at 3",
        1,
        all,
        &knots,
        &tensor,
        &[3.0],
    );
    let knots = [0.0, 5.0, 1.0, 2.0, 3.0];
    lines::print_full_and_quick(
        out,
        b"knots 0 5 1 2 3 at 3",
        1,
        all,
        &knots,
        &tensor,
        &[3.0],
    );
}

// Two knots, and what is refused of their one cell.
fn two_knots(out: Stdout, name: &[u8], lower: f64, upper: f64, point: f64) {
    let all = grids::one(2, Condition::natural());
    lines::print_quick(
        out,
        name,
        1,
        all,
        &[lower, upper],
        &[0.0, 1.0, 1.0, 1.0],
        &[point],
    );
}

// What the quick query refuses: a falling cell, equal knots, a step that overflows, a knot that is no number; first of all a coordinate.
fn refusals(out: Stdout) {
    let nan = 0.0 / 0.0;
    two_knots(out, b"knots 1 0 at 0.5", 1.0, 0.0, 0.5);
    two_knots(out, b"knots 1 1 at 1", 1.0, 1.0, 1.0);
    two_knots(out, b"knots -1e308 1e308 at 0", -1e308, 1e308, 0.0);
    two_knots(out, b"knots 0 NaN at 0.5", 0.0, nan, 0.5);
    two_knots(out, b"knots 0 NaN at NaN", 0.0, nan, nan);
}

pub fn print_examples(out: Stdout) {
    modes(out);
    two_axes(out);
    off_the_path(out, b"second knot NaN", 0.0 / 0.0);
    off_the_path(out, b"second knot -7", -7.0);
    falling(out);
    refusals(out);
}
