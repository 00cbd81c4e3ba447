// The quick query and the direct query of many points as `hullashlar` exports them, over numbers and plain slices. Each returns its
// refusal's number, and then nothing is written, or 0.

#![tactic(auto)]

ghost use Rattle.c_many.specs.ManyExports.{QuickQueriesExport, DirectQueriesExport};

use query_answer::ways::Way;

mod own; // own.rt: the host's own refusal of many points, which is all of it

// The quick query at as many points as refusals are lent, a coordinate on each axis and four labels for each, one point after the other: at
// each what the quick query gives for it. Refuses 1, 4 for the points of the axes, 2, 3, 4 for every other slice, and 22.
pub fn quick_queries(
    axes: usize,
    points: &[usize],
    modes: &[u8],
    knots: &[f64],
    tensor: &[f64],
    coordinates: &[f64],
    values: &mut [f64],
    labels: &mut [usize],
    refusals: &mut [usize],
) -> usize
    ensures { QuickQueriesExport axes points.now modes.now knots.now tensor.now
        coordinates.now values.old labels.old refusals.old result values.new
        labels.new refusals.new }
{
    let own = own::check_queries(
        axes,
        points,
        modes,
        knots,
        tensor,
        coordinates,
        values,
        labels,
        refusals,
    );
    if let Err(refusal) = own {
        return refusal.number();
    }
    query_many::each::answer_each(
        Way::Searched,
        axes,
        points,
        modes,
        knots,
        tensor,
        coordinates,
        values,
        labels,
        refusals,
    );
    0
}

// The direct query at as many points, in the same way.
pub fn direct_queries(
    axes: usize,
    points: &[usize],
    modes: &[u8],
    knots: &[f64],
    tensor: &[f64],
    coordinates: &[f64],
    values: &mut [f64],
    labels: &mut [usize],
    refusals: &mut [usize],
) -> usize
    ensures { DirectQueriesExport axes points.now modes.now knots.now tensor.now
        coordinates.now values.old labels.old refusals.old result values.new
        labels.new refusals.new }
{
    let own = own::check_queries(
        axes,
        points,
        modes,
        knots,
        tensor,
        coordinates,
        values,
        labels,
        refusals,
    );
    if let Err(refusal) = own {
        return refusal.number();
    }
    query_many::each::answer_each(
        Way::Divided,
        axes,
        points,
        modes,
        knots,
        tensor,
        coordinates,
        values,
        labels,
        refusals,
    );
    0
}
