// What the host itself refuses of a call that looks at a tensor, in the order of c_refusals::own.
ghost use Rattle.std.specs.Prelude.{◌≡◌};
ghost use Rattle.rules.specs.Answers.{refusal_of};
ghost use Rattle.c_verify.specs.VerifyExports.{verify_own_refusal};

use crate::slots;
use c_refusals::own;
use rules::Refusal;

// Its slots, and all that a change's own refusals look at but the slot of a count, for which a slot of one stands in.
pub fn check_verify(
    axes: usize,
    points: &[usize],
    kinds: &[u8],
    values: &[f64],
    knots: &[f64],
    tensor: &[f64],
    place: &[usize],
    found: &[usize],
) -> Result<(), Refusal>
    ensures { refusal_of result ≡ verify_own_refusal axes points.now kinds.now values.now knots.now
        tensor.now place.now found.now }
{
    own::check_axes(axes, points)?;
    if slots::slots_refused(place, found) {
        return Err(Refusal::Length);
    }
    own::check_change(
        axes,
        points,
        kinds,
        values,
        knots,
        tensor,
        place,
        &found[0..1],
    )
}
