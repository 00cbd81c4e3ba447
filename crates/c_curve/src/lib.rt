// The calls of the curve as `hullashlar` exports them, over numbers and plain slices. Each returns its refusal's number, 0 for none, in the
// order that c_refusals::own says.

#![tactic(auto)]

ghost use Rattle.c_curve.specs.CurveExports.{MomentsExport, CurveExport};

use c_refusals::{own, slots};
use rules::number_told;

// The moments of the curve, one for each point, under the two ends given. Refuses 2 4 5 7 8 9 10, and 4 and 13 of its own.
pub fn moments(
    points: usize,
    knots: &[f64],
    samples: &[f64],
    kinds: &[u8],
    values: &[f64],
    moments: &mut [f64],
    scratch: &mut [f64],
) -> usize
    ensures { MomentsExport points knots.now samples.now kinds.now values.now moments.old
        scratch.old result moments.new scratch.new }
{
    if let Err(refusal) = own::check_moments(points, knots, samples, kinds, values, moments) {
        return refusal.number();
    }
    let condition = c_axes::condition_given(kinds, values, 0);
    let given = axis_curve::moments(points, knots, samples, condition, moments, scratch);
    number_told(given)
}

// The curve's value at a point, in a slot of one. Refuses 2 4 7 8 10, and then it is +0.0; and 4 of its own.
pub fn curve(
    points: usize,
    knots: &[f64],
    samples: &[f64],
    moments: &[f64],
    point: f64,
    value: &mut [f64],
) -> usize
    ensures { CurveExport points knots.now samples.now moments.now point value.old result
        value.new }
{
    if let Err(refusal) = own::check_curve(points, value) {
        slots::store_one(value, 0.0);
        return refusal.number();
    }
    match axis_curve::curve(points, knots, samples, moments, point) {
        Ok(found) => {
            slots::store_one(value, found);
            0
        }
        Err(refusal) => {
            slots::store_one(value, 0.0);
            refusal.number()
        }
    }
}
