// The tensor of a sheet that was looked at, built in the scratch, where it stays: for callers that need it no longer than the scratch, so
// that nothing is copied from it or cleared behind it. Neither function is a public call.

#![tactic(auto)]

ghost use Rattle.std.specs.Prelude.{◌≤◌, length};
ghost use Rattle.rules.specs.Sizes.{scratch_length};
ghost use Rattle.rules.specs.Answers.{refusal_of};
ghost use Rattle.grid.specs.GridOfCall.{grid};
ghost use Rattle.sheet_read.specs.Fields.{sheet_grid};
ghost use Rattle.sheet_read.specs.FoundSoFar.{PartsRoom};
ghost use Rattle.sheet_in_scratch.specs.InScratch.{InScratch, SheetInScratch};

use grid_scratch::TENSOR;
use rules::{Axis, Refusal};
use sheet_read::store::store_parts;

// A build of a tensor of so many numbers: where nothing is refused, it stands in the scratch behind its rows.
fn build_in_scratch(
    axes: usize,
    all: [Axis; 4],
    knots: &[f64],
    samples: &[f64],
    numbers: usize,
    scratch: &mut [f64],
) -> Result<(), Refusal>
    ensures { InScratch (grid axes all knots.now) samples.now numbers scratch.old (refusal_of result) scratch.new }
{
    grid_checks::check_build(axes, all, knots, samples, numbers, scratch.len())?;
    let masks = grid::masks(axes);
    tensor::working::store_samples(scratch, samples, masks);
    tensor_passes::solve_axes(scratch, axes, all, knots, [0; 4], true);
    let end = TENSOR + numbers;
    if base_numbers::any_of_many_not_finite(&scratch[TENSOR..end]) {
        return Err(Refusal::Outcome);
    }
    Ok(())
}

// Stores the knots and the samples of the sheet in the first places of two buffers, and builds its tensor. It requires a sheet without a
// fault, what it says, and room for its numbers and its build. Refuses what the build does.
pub fn tensor_in_scratch(
    bytes: &[u8],
    edition: usize,
    axes: usize,
    all: [Axis; 4],
    knots: &mut [f64],
    samples: &mut [f64],
    scratch: &mut [f64],
) -> Result<(), Refusal>
    requires { PartsRoom bytes.now edition axes all knots.old samples.old
        × (scratch_length (sheet_grid bytes.now) ≤ length scratch.old) }
    ensures { SheetInScratch bytes.now knots.old (refusal_of result) knots.new scratch.new }
{
    store_parts(bytes, edition, axes, all, knots, samples);
    let knots_end = grid::knots_length(axes, all);
    let samples_end = grid::samples_length(axes, all);
    let numbers = grid::tensor_length(axes, all);
    build_in_scratch(
        axes,
        all,
        &knots[0..knots_end],
        &samples[0..samples_end],
        numbers,
        scratch,
    )
}
