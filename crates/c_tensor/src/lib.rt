// The calls of the tensor as `hullashlar` exports them, over numbers and plain slices. Each returns its refusal's number, 0 for none, in
// the order that c_refusals::own says.

#![tactic(auto)]

ghost use Rattle.c_tensor.specs.TensorExports.{BuildExport, ChangeExport};

use c_refusals::{own, slots};
use rules::number_told;

// The tensor of the samples on a grid. Refuses 1 2 3 4 5 7 8 9 10, and 4 and 13 of its own.
pub fn build(
    axes: usize,
    points: &[usize],
    kinds: &[u8],
    values: &[f64],
    knots: &[f64],
    samples: &[f64],
    tensor: &mut [f64],
    scratch: &mut [f64],
) -> usize
    ensures { BuildExport axes points.now kinds.now values.now knots.now samples.now
        tensor.old scratch.old result tensor.new scratch.new }
{
    if let Err(refusal) = own::check_build(axes, points, kinds, values, knots, samples, tensor) {
        return refusal.number();
    }
    let all = c_axes::axes_given(axes, points, kinds, values);
    let built = tensor::build(axes, all, knots, samples, tensor, scratch);
    number_told(built)
}

// One sample changed in a tensor, and how many lanes were solved, in a slot of one. Refuses 1 to 10, and then it is 0; and 4 and 13 of its
// own.
pub fn change(
    axes: usize,
    points: &[usize],
    kinds: &[u8],
    values: &[f64],
    knots: &[f64],
    tensor: &mut [f64],
    scratch: &mut [f64],
    place: &[usize],
    sample: f64,
    lanes: &mut [usize],
) -> usize
    ensures { ChangeExport axes points.now kinds.now values.now knots.now tensor.old
        scratch.old place.now sample lanes.old result tensor.new scratch.new
        lanes.new }
{
    let own = own::check_change(axes, points, kinds, values, knots, tensor, place, lanes);
    if let Err(refusal) = own {
        slots::store_one(lanes, 0);
        return refusal.number();
    }
    let all = c_axes::axes_given(axes, points, kinds, values);
    let changed = c_axes::place_given(place);
    let (number, solved) = match tensor::change(
        axes, all, knots, tensor, scratch, changed, sample,
    ) {
        Ok(solved) => (0, solved),
        Err(refusal) => (refusal.number(), 0),
    };
    slots::store_one(lanes, solved);
    number
}
