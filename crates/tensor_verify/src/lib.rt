// Whether a tensor is whole: its samples are built anew in the scratch, and every number is held against the fresh one, bit by bit.

#![tactic(auto)]

ghost use Rattle.std.specs.Prelude.{◌≡◌, false, length};
ghost use Rattle.rules.specs.Refusals.{some_number_refused};
ghost use Rattle.grid.specs.GridOfCall.{grid, points_of, InRange};
ghost use Rattle.tensor_verify.specs.Verify.{verify_told, VerifyPromise};
ghost use Rattle.tensor_verify.specs.Compared.{compared};

use grid_scratch::TENSOR;
use rules::{Axis, Refusal};
use tensor::working;

mod compared; // compared.rt: numbers held against others, bit by bit
mod places; // places.rt: the place of a number

// A tensor is whole, or some of its numbers differ: the place and the mask of the first of these, and how many there are.
#[derive(Clone, Copy)]
pub enum Verdict {
    Whole,
    Differs {
        place: [usize; 4],
        mask: usize,
        differing: usize,
    },
}

// What is found of a tensor and of the one that came out of a fresh build. Refuses 10 where a number of this is not finite. Not a public
// call: sizes in range, the same lengths and finite numbers of the tensor are required.
fn held_against(
    axes: usize,
    all: [Axis; 4],
    tensor: &[f64],
    fresh: &[f64],
) -> Result<Verdict, Refusal>
    requires { InRange axes (points_of all) × (length fresh.now ≡ length tensor.now) × (some_number_refused tensor.now ≡ false) }
    ensures { verify_told result ≡ compared axes (points_of all) tensor.now fresh.now }
{
    if base_numbers::any_of_many_not_finite(fresh) {
        return Err(Refusal::Outcome);
    }
    let differing = compared::count_differing(tensor, fresh);
    if differing == 0 {
        return Ok(Verdict::Whole);
    }
    let first = compared::first_differing(tensor, fresh);
    let masks = grid::masks(axes);
    let place = places::place_of_number(axes, all, first / masks);
    Ok(Verdict::Differs {
        place,
        mask: first % masks,
        differing,
    })
}

// PUBLIC. Whether every number of the tensor is the one that a build of its own samples, those at mask 0, gives, bit for bit; else of the
// first that differs its place and its mask, and how many differ. The tensor is only read. Refuses 1 2 3 4 5 7 8 9, in this order, with
// the scratch as it was, and 10 where the build would be refused; 7 is looked for in the whole tensor. The scratch is +0.0 after 10 and
// where nothing is refused.
pub fn verify(
    axes: usize,
    all: [Axis; 4],
    knots: &[f64],
    tensor: &[f64],
    scratch: &mut [f64],
) -> Result<Verdict, Refusal>
    ensures { VerifyPromise (grid axes all knots.now) tensor.now scratch.old (verify_told result) scratch.new }
{
    // The check of a change that changes nothing: the first place is on every grid, and 0.0 is finite.
    grid_checks::check_change(axes, all, knots, tensor, scratch.len(), [0; 4], 0.0)?;
    let first = tensor[0];
    working::load(scratch, tensor, 0, first);
    tensor_passes::solve_axes(scratch, axes, all, knots, [0; 4], true);
    let end = TENSOR + tensor.len();
    let verdict = held_against(axes, all, tensor, &scratch[TENSOR..end]);
    base_numbers::clear(scratch);
    verdict
}
