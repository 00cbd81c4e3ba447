// The call that looks at a tensor as `hullashlar` exports it, over numbers and plain slices. It returns its refusal's number, 0 for none,
// in the order that own.rt says.

#![tactic(auto)]

ghost use Rattle.c_verify.specs.VerifyExports.{VerifyExport};

pub mod own; // own.rt: the host's own refusals, before the call's
pub mod slots; // slots.rt: the slots of what was found

// Whether every number of the tensor is the one that a build of its own samples gives, bit for bit. Of the first that differs the place
// goes to a slot of four; 1 for a whole tensor or 0, the mask of that number and how many differ go to a slot of three. Refuses 1 2 3 4 5 7
// 8 9 10, and then all are 0; and 4 and 13 of its own.
pub fn verify(
    axes: usize,
    points: &[usize],
    kinds: &[u8],
    values: &[f64],
    knots: &[f64],
    tensor: &[f64],
    scratch: &mut [f64],
    place: &mut [usize],
    found: &mut [usize],
) -> usize
    ensures { VerifyExport axes points.now kinds.now values.now knots.now tensor.now
        scratch.old place.old found.old result scratch.new place.new found.new }
{
    let own = own::check_verify(axes, points, kinds, values, knots, tensor, place, found);
    if let Err(refusal) = own {
        slots::store_found(place, found, Err(refusal));
        return refusal.number();
    }
    let all = c_axes::axes_given(axes, points, kinds, values);
    let verdict = tensor_verify::verify(axes, all, knots, tensor, scratch);
    slots::store_found(place, found, verdict);
    match verdict {
        Ok(_) => 0,
        Err(refusal) => refusal.number(),
    }
}
