// The writer of packed sheets.

#![tactic(auto)]

ghost use Rattle.std.specs.Prelude.{◌≡◌, ◌≤◌};
ghost use Rattle.rules.specs.Answers.{refusal_of};
ghost use Rattle.grid.specs.GridOfCall.{grid, sizes_of};
ghost use Rattle.sheet_write.specs.Write.{no_sheet_refusal, some_mode_refused, edition_refusal, write_told, WritePromise};

use crate::counts::part_bits;
use crate::fields::put_sheet;
use grid::tensor_length;
use grid_checks::check_build;
use grid_checks::sizes::check_sizes;
use grid_codes::editions::{is_unknown_edition, mode_refused};
use rules::{Axis, Refusal};

mod fields; // fields.rt: the fields of a sheet, one after the other
mod counts; // counts.rt: how many bits they have

// What is refused of the parts: 1, 2, 3, 4, 7, 8 or 9. The build's own tests, told of a tensor and scratch that have their lengths.
fn check_parts(axes: usize, all: [Axis; 4], knots: &[f64], samples: &[f64]) -> Result<(), Refusal>
    ensures { refusal_of result ≡ no_sheet_refusal (grid axes all knots.now) samples.now }
{
    check_sizes(axes, all)?;
    let tensor = tensor_length(axes, all);
    check_build(
        axes,
        all,
        knots,
        samples,
        tensor,
        tensor + grid_scratch::ROWS,
    )
}

// Whether the mode of an axis in use is refused by 23.
fn some_mode_refused(edition: usize, axes: usize, all: [Axis; 4]) -> bool
    requires { axes ≤ 4 }
    ensures { result ≡ some_mode_refused edition (sizes_of axes all) }
{
    all[..axes]
        .iter()
        .any(|axis| mode_refused(edition, axis.mode))
}

// What is refused of the edition: 12 or 23.
fn check_edition(edition: usize, axes: usize, all: [Axis; 4]) -> Result<(), Refusal>
    requires { axes ≤ 4 }
    ensures { refusal_of result ≡ edition_refusal edition (sizes_of axes all) }
{
    if is_unknown_edition(edition) {
        return Err(Refusal::Edition);
    }
    if some_mode_refused(edition, axes, all) {
        return Err(Refusal::Lost);
    }
    Ok(())
}

// PUBLIC. Writes the sheet of axes, knots and samples in an edition to the first bytes of a buffer, and gives how many bytes it has;
// entries past the axes in use are not read, and the bytes past the sheet stay. Refuses by the first that applies: 1 no axis or too many,
// 2 an axis of other than 2 to 256 points, 3 a tensor of more than 4,096 numbers, 4 knots or samples that are not as many as the axes
// say, 7 a number that is infinite or NaN, 8 knots that do not rise by finite steps, 9 an axis with too few points for its ends, 12 an
// edition that is neither 1 nor 2, 23 edition 1 with an axis in use whose mode is not extend, 15 a buffer that is shorter than the sheet.
// A refusal writes nothing.
pub fn write(
    axes: usize,
    all: [Axis; 4],
    knots: &[f64],
    samples: &[f64],
    edition: usize,
    buffer: &mut [u8],
) -> Result<usize, Refusal>
    ensures { WritePromise edition (grid axes all knots.now) samples.now buffer.old (write_told result)
        buffer.new }
{
    check_parts(axes, all, knots, samples)?;
    check_edition(edition, axes, all)?;
    let bits = part_bits(edition, axes, all);
    let length = (bits + 7) / 8;
    if buffer.len() < length {
        return Err(Refusal::Buffer);
    }
    put_sheet(buffer, edition, axes, all, knots, samples);
    Ok(length)
}
