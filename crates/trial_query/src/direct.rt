// The direct query: the cell by one division on any knots, and what it refuses.
use crate::lines;
use rules::{Condition, Mode};
use std::io::Stdout;
use trial_tensor_lines::grids;

// Knots 0 and 1 and a last one, samples 0 1 2, slopes 1.
fn line_of_three(out: Stdout, name: &[u8], mode: Mode, last: f64, point: f64) {
    let all = grids::one_in_mode(3, Condition::natural(), mode);
    let tensor = [0.0, 1.0, 1.0, 1.0, 2.0, 1.0];
    lines::print_direct(out, name, 1, all, &[0.0, 1.0, last], &tensor, &[point]);
}

pub fn print_examples(out: Stdout) {
    let nan = 0.0 / 0.0;
    line_of_three(out, b"direct at 1", Mode::Extend, 2.0, 1.0);
    line_of_three(out, b"direct at 0.5, last knot 9", Mode::Extend, 9.0, 0.5);
    line_of_three(out, b"direct at 1.5, last knot 1", Mode::Extend, 1.0, 1.5);
    line_of_three(out, b"direct at 5, in hold", Mode::Hold, 2.0, 5.0);
    line_of_three(out, b"direct at 5, in refuse", Mode::Refuse, 2.0, 5.0);
    line_of_three(out, b"direct at NaN", Mode::Extend, 2.0, nan);
}
