// The public calls on one axis: the moments of a curve, its value at a point, and its slopes at the knots.

#![tactic(auto)]

ghost use Rattle.std.specs.Prelude.{◌≡◌, ◌≤◌, length};
ghost use Rattle.rules.specs.Ends.{fewest_points};
ghost use Rattle.rules.specs.Answers.{refusal_of, curve_told};
ghost use Rattle.rules.specs.Calls.{MomentsPromise, CurvePromise, SlopesPromise};
ghost use Rattle.axis_rows.specs.Rows.{RowsFit};
ghost use Rattle.axis_curve.specs.Work.{SlopesWorked, MomentsWorked};
ghost use Rattle.axis_moments.specs.SlopeAndValue.{AxisLengths};

use axis_moments::curve::{curve_in_cell, knot_slope};
use grid_scratch::MOMENTS;
use rules::{Condition, Refusal};

// All the knot slopes go to a row, and whether one of them is an infinity or NaN is told. The flag is kept to the last knot, whose slope is
// taken after the others, so the compiler works out several at a time. Not a public call: it requires what `knot_slope` does, and a place
// for each slope.
fn some_slope_refused(x: &[f64], y: &[f64], m: &[f64], row: &mut [f64]) -> bool
    requires { AxisLengths x.now y.now m.now × (length row.old ≡ length x.now) }
    ensures { SlopesWorked x.now y.now m.now result row.new }
{
    let last = x.len() - 1;
    let mut refused = false;
    for i in 0..last {
        let slope = knot_slope(x, y, m, i);
        refused |= !base_numbers::is_finite(slope);
        row[i] = slope;
    }
    let slope = knot_slope(x, y, m, last);
    row[last] = slope;
    refused | !base_numbers::is_finite(slope)
}

// PUBLIC. The knot slopes of the curve with these moments, stored when all are finite. Refuses 2 4 7 8 10; then the slopes stay as they
// were.
pub fn knot_slopes(
    points: usize,
    knots: &[f64],
    samples: &[f64],
    moments: &[f64],
    slopes: &mut [f64],
) -> Result<(), Refusal>
    ensures { SlopesPromise points knots.now samples.now moments.now slopes.old (refusal_of result)
        slopes.new }
{
    grid_checks::check_slopes(points, knots, samples, moments.len(), slopes.len())?;
    let mut row = [0.0; 256];
    if some_slope_refused(knots, samples, moments, &mut row[0..points]) {
        return Err(Refusal::Outcome);
    }
    base_numbers::copy(slopes, &row[0..points]);
    Ok(())
}

// PUBLIC. The curve's value at a point, beyond the knots too. Refuses 2 4 7 8 10.
pub fn curve(
    points: usize,
    knots: &[f64],
    samples: &[f64],
    moments: &[f64],
    point: f64,
) -> Result<f64, Refusal>
    ensures { CurvePromise points knots.now samples.now moments.now point (curve_told result) }
{
    grid_checks::check_curve(points, knots, samples, moments.len(), point)?;
    let cell = axis_locate::locate_lower_index(knots, point);
    let value = curve_in_cell(knots, samples, moments, cell, point);
    if base_numbers::is_finite(value) {
        Ok(value)
    } else {
        Err(Refusal::Outcome)
    }
}

// The moments worked out in scratch and stored when all are finite; then all of scratch is +0.0. Not a public call: it requires what
// refusals 2, 4, 5 and 9 leave.
fn work_moments(
    knots: &[f64],
    samples: &[f64],
    condition: Condition,
    moments: &mut [f64],
    scratch: &mut [f64],
) -> Result<(), Refusal>
    requires rows_fit { RowsFit scratch.old knots.now × (fewest_points condition ≤ length knots.now) }
    requires samples_len { (length samples.now ≡ length knots.now) × (length moments.old ≡ length knots.now) }
    ensures { MomentsWorked knots.now samples.now condition moments.old scratch.old (refusal_of result)
        moments.new scratch.new }
{
    let n = knots.len();
    base_numbers::copy(&mut scratch[0..n], samples);
    axis_moments::compute_m(scratch, knots, condition);
    if base_numbers::any_not_finite(&scratch[MOMENTS..MOMENTS + n]) {
        base_numbers::clear(scratch);
        return Err(Refusal::Outcome);
    }
    base_numbers::copy(moments, &scratch[MOMENTS..MOMENTS + n]);
    base_numbers::clear(scratch);
    Ok(())
}

// PUBLIC. The moments of the curve through the samples under a condition, stored when all are finite. Refuses 2 4 5 7 8 9 10; then the
// moments stay as they were. Scratch is untouched for 2 to 9, and all +0.0 after any work.
pub fn moments(
    points: usize,
    knots: &[f64],
    samples: &[f64],
    condition: Condition,
    moments: &mut [f64],
    scratch: &mut [f64],
) -> Result<(), Refusal>
    ensures { MomentsPromise points knots.now samples.now condition moments.old scratch.old (refusal_of result)
        moments.new scratch.new }
{
    grid_checks::check_moments(
        points,
        knots,
        samples,
        condition,
        moments.len(),
        scratch.len(),
    )?;
    work_moments(knots, samples, condition, moments, scratch)
}
