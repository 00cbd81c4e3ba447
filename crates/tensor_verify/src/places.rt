// The place of a number of the samples.
ghost use Rattle.std.specs.Prelude.{◌≡◌};
ghost use Rattle.rules.specs.Numbers.{table};
ghost use Rattle.rules.specs.Sizes.{most_axes, unflat};
ghost use Rattle.grid.specs.GridOfCall.{points_of, InRange};

use rules::Axis;

// Its four indices, 0 past the axes in use: the last axis's index is the remainder by its points, and so on. Not a public call: sizes in
// range are required.
pub fn place_of_number(axes: usize, all: [Axis; 4], number: usize) -> [usize; 4]
    requires { InRange axes (points_of all) }
    ensures { result ≡ table most_axes (unflat (points_of all) axes number) }
{
    let mut place = [0; 4];
    let mut rest = number;
    for axis in (0..axes).rev() {
        place[axis] = rest % all[axis].points;
        rest /= all[axis].points;
    }
    place
}
