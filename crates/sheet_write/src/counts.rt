// How many bits the fields of a sheet have. None of these is a public call: `part_bits` requires what refusals 1 and 2 leave, `all_values`
// at most four axes.
ghost use Rattle.std.specs.Prelude.{◌≡◌, ◌≤◌};
ghost use Rattle.rules.specs.Sizes.{knots_length};
ghost use Rattle.grid.specs.GridOfCall.{sizes_of, points_of, condition_of, InRange};
ghost use Rattle.sheet_write.specs.PartsWithRoom.{values, values_below, parts_bits};

use grid::{knots_length, samples_length};
use grid_codes::editions::mode_width;
use grid_codes::ends::{lower_kind, upper_kind, values_of_kind, wide};
use rules::{Axis, Condition};

// How many of the two ends of a condition have a number.
fn values(condition: Condition) -> usize
    ensures { (result ≡ values condition) × (result ≤ 2) }
{
    values_of_kind(wide(lower_kind(condition))) + values_of_kind(wide(upper_kind(condition)))
}

// How many of the ends of the axes in use have a number.
fn all_values(axes: usize, all: [Axis; 4]) -> usize
    requires { axes ≤ 4 }
    ensures { (result ≡ values_below all axes) × (result ≤ 8) }
{
    let mut sum = 0;
    for i in 0..axes {
        sum += values(all[i].condition);
    }
    sum
}

// How many bits the parts have: edition and number of axes, each axis with its mode, its ends and knots, and the samples.
pub fn part_bits(edition: usize, axes: usize, all: [Axis; 4]) -> usize
    requires { InRange axes (points_of all) }
    ensures { result ≡ parts_bits edition axes all }
{
    7 + 12 * axes
        + mode_width(edition) * axes
        + 64 * (all_values(axes, all) + knots_length(axes, all) + samples_length(axes, all))
}
