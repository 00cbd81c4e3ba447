// The numbers of a sheet that was looked at and has no fault. Not a public call: such a sheet is required, its own edition and axes, and
// places for the numbers.
ghost use Rattle.std.specs.Prelude.{◌≡◌};
ghost use Rattle.sheet_read.specs.Fields.{axes, knots_below, sheet_samples};
ghost use Rattle.sheet_read.specs.Read.{over};
ghost use Rattle.sheet_read.specs.FoundSoFar.{PartsRoom};

use crate::axes::store_knots;
use base_bits::fill;
use grid::samples_length;
use grid_codes::editions::mode_width;
use rules::Axis;

// Stores the knots, axis after axis, and the samples in the first places of two buffers, which may have any length that is enough.
pub fn store_parts(
    bytes: &[u8],
    edition: usize,
    n: usize,
    all: [Axis; 4],
    knots: &mut [f64],
    samples: &mut [f64],
)
    requires { PartsRoom bytes.now edition n all knots.old samples.old }
    ensures { (knots.new ≡ over (knots_below bytes.now (axes bytes.now)) knots.old)
        × (samples.new ≡ over (sheet_samples bytes.now) samples.old) }
{
    let at = store_knots(bytes, mode_width(edition), n, knots);
    let count = samples_length(n, all);
    fill(bytes, at, &mut samples[0..count]);
}
