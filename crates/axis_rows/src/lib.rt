// The rows of the system of moments, as the Rust's `compute_m` writes them: those of the ends and those between them. None of these is a
// public call: what reads knots and samples requires that they are there, what writes rows that they lie in a scratch of 2,048 numbers.

#![tactic(auto)]

ghost use Rattle.std.specs.Prelude.{◌≡◌, ◌+◌, ◌<◌, ◌≤◌, length};
ghost use Rattle.rules.specs.Ends.{dropped};
ghost use Rattle.rules.specs.Sizes.{scratch_of_rows};
ghost use Rattle.grid_scratch.specs.Layout.{row_length};
ghost use Rattle.axis_rows.specs.Rows.{
  lower_end_row,
  upper_end_row,
  periodic_row,
  samples_in,
  RowsFit,
  InteriorRows,
  FirstRow,
  LastRow,
};

use grid_scratch::{DIAG, RHS, SUB_BEFORE, SUP};
use rules::{End, Row};

// An end's row, and beside it how many unknowns its kind drops: 1 for NotAKnot, whose row stands at the next knot, and 0 for any other.
#[derive(Clone, Copy)]
pub struct EndRow {
    pub dropped: usize,
    pub row: Row,
}

// The rows 1 to stop - 1, row j at knot start + j: what the steps before and after that knot give.
pub fn interior_rows(w: &mut [f64], x: &[f64], start: usize, stop: usize)
    requires { RowsFit w.old x.now × (start + stop < length x.now) × (0 < stop) }
    ensures { InteriorRows w.old w.new x.now (samples_in w.old x.now) start stop }
{
    let mut h = x[start + 1] - x[start];
    let mut s = (w[start + 1] - w[start]) / h;
    for j in 1..stop {
        let i = start + j;
        let next_h = x[i + 1] - x[i];
        let next_s = (w[i + 1] - w[i]) / next_h;
        w[SUB_BEFORE + j] = h;
        w[DIAG + j] = 2.0 * (h + next_h);
        w[SUP + j] = next_h;
        w[RHS + j] = 6.0 * (next_s - s);
        h = next_h;
        s = next_s;
    }
}

// The row of the lower end, from knots and samples.
pub fn lower_row(x: &[f64], y: &[f64], end: End) -> EndRow
    requires { (2 + dropped end ≤ length x.now) × (length x.now ≤ length y.now) }
    ensures { result ≡ lower_end_row x.now y.now end }
{
    let h0 = x[1] - x[0];
    let s0 = (y[1] - y[0]) / h0;
    match end {
        End::NotAKnot => {
            let h1 = x[2] - x[1];
            let s1 = (y[2] - y[1]) / h1;
            EndRow {
                dropped: 1,
                row: Row {
                    diagonal: (h0 + h1) * (h0 + 2.0 * h1),
                    neighbour: h1 * h1 - h0 * h0,
                    right: h1 * (6.0 * (s1 - s0)),
                },
            }
        }
        End::FirstDerivative(v) => EndRow {
            dropped: 0,
            row: Row {
                diagonal: 2.0 * h0,
                neighbour: h0,
                right: 6.0 * (s0 - v),
            },
        },
        End::SecondDerivative(v) => EndRow {
            dropped: 0,
            row: Row {
                diagonal: 1.0,
                neighbour: 0.0,
                right: v,
            },
        },
    }
}

// The row of the upper end: the mirror of the lower's.
pub fn upper_row(x: &[f64], y: &[f64], end: End) -> EndRow
    requires { (2 + dropped end ≤ length x.now) × (length x.now ≤ length y.now) }
    ensures { result ≡ upper_end_row x.now y.now end }
{
    let n = x.len() - 1;
    let last = n - 1;
    let h_last = x[last + 1] - x[last];
    let s_last = (y[last + 1] - y[last]) / h_last;
    match end {
        End::NotAKnot => {
            let before = n - 2;
            let h_before = x[before + 1] - x[before];
            let s_before = (y[before + 1] - y[before]) / h_before;
            EndRow {
                dropped: 1,
                row: Row {
                    diagonal: (h_before + h_last) * (2.0 * h_before + h_last),
                    neighbour: h_before * h_before - h_last * h_last,
                    right: h_before * (6.0 * (s_last - s_before)),
                },
            }
        }
        End::FirstDerivative(v) => EndRow {
            dropped: 0,
            row: Row {
                diagonal: 2.0 * h_last,
                neighbour: h_last,
                right: 6.0 * (v - s_last),
            },
        },
        End::SecondDerivative(v) => EndRow {
            dropped: 0,
            row: Row {
                diagonal: 1.0,
                neighbour: 0.0,
                right: v,
            },
        },
    }
}

// The first row of a periodic axis.
pub fn periodic_row(x: &[f64], y: &[f64]) -> Row
    requires { (2 ≤ length x.now) × (length x.now ≤ length y.now) }
    ensures { result ≡ periodic_row x.now y.now }
{
    let last = x.len() - 1 - 1;
    let h0 = x[1] - x[0];
    let s0 = (y[1] - y[0]) / h0;
    let h_last = x[last + 1] - x[last];
    let s_last = (y[last + 1] - y[last]) / h_last;
    Row {
        diagonal: 2.0 * (h_last + h0),
        neighbour: h0,
        right: 6.0 * (s0 - s_last),
    }
}

// The first row of a solve is the lower end's.
pub fn first_row(w: &mut [f64], lower: Row)
    requires { scratch_of_rows ≤ length w.old }
    ensures { FirstRow w.old w.new lower }
{
    w[DIAG] = lower.diagonal;
    w[SUP] = lower.neighbour;
    w[RHS] = lower.right;
}

// The last row of a solve, row l, is the upper end's.
pub fn last_row(w: &mut [f64], l: usize, upper: Row)
    requires { (scratch_of_rows ≤ length w.old) × (l < row_length) }
    ensures { LastRow w.old w.new l upper }
{
    w[SUB_BEFORE + l] = upper.neighbour;
    w[DIAG + l] = upper.diagonal;
    w[RHS + l] = upper.right;
}
