// The stepped surface at many points as `hullashlar` exports it, over numbers and plain slices. It returns its refusal's number, and then
// nothing is written, or 0.

#![tactic(auto)]

ghost use Rattle.c_step_many.specs.ManyStepExports.{SteppedManyExport};

use c_step::directions::directions_given;

mod own; // own.rt: the host's own refusal of many points, which is all of it

// The stepped surface at as many points as refusals are lent, a coordinate on each axis and four indices for each, one point after the
// other: at each what the stepped surface gives for it. Refuses 1, 4 for the points of the axes, 2, 3, 4 for every other slice, and 22.
pub fn stepped_many(
    axes: usize,
    points: &[usize],
    directions: &[u8],
    knots: &[f64],
    samples: &[f64],
    coordinates: &[f64],
    values: &mut [f64],
    indices: &mut [usize],
    refusals: &mut [usize],
) -> usize
    ensures { SteppedManyExport axes points.now directions.now knots.now samples.now
        coordinates.now values.old indices.old refusals.old result values.new
        indices.new refusals.new }
{
    let own = own::check_many(
        axes,
        points,
        directions,
        knots,
        samples,
        coordinates,
        values,
        indices,
        refusals,
    );
    if let Err(refusal) = own {
        return refusal.number();
    }
    let given = directions_given(axes, directions);
    step_many::each::answer_each(
        axes,
        points,
        given,
        knots,
        samples,
        coordinates,
        values,
        indices,
        refusals,
    );
    0
}
