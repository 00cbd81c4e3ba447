// The quick query of a tensor: a point located by the search alone, whatever the knots are, and the blend of the cell that is found. It
// walks no axis.

#![tactic(auto)]

ghost use Rattle.rules.specs.Calls.{QuickQueryPromise};
ghost use Rattle.rules.specs.Answers.{query_told};
ghost use Rattle.grid.specs.GridOfCall.{grid};
ghost use Rattle.query_answer.specs.PointsAndModes.{QueryFits, OfAnyAxes};

use query_answer::ways::Way;
use rules::{Axis, Refusal, ValueInCell};

// PUBLIC. The surface's value at a point, outside the knots of an axis as its mode says, and for each axis the label, which is the cell
// that was evaluated, 0 past those in use. The answer is the query's wherever that does not refuse the knots. Of the knots it reads the
// first and the last of each axis, those that at most 8 halvings look at and the two of the cell that is found; of the tensor the cell's
// corners. Refuses 1 2 3 4, 7 for a coordinate, 8 for the found cell's knots, 18 10, in this order.
pub fn quick_query(
    axes: usize,
    all: [Axis; 4],
    knots: &[f64],
    tensor: &[f64],
    coordinates: &[f64],
) -> Result<ValueInCell, Refusal>
    ensures { QuickQueryPromise (grid axes all knots.now) tensor.now coordinates.now (query_told result) }
{
    let points = grid::points_of(all);
    grid_checks::check_query_sizes(axes, &points, knots.len(), tensor.len(), coordinates.len())?;
    let modes = query_answer::modes_of(all);
    quick_query_of_points(axes, &points, &modes, knots, tensor, coordinates)
}

// The same on axes of these points, with a mode's number for each, where 1 to 4 do not apply. Not a public call: that they do not is
// required, and four points and four modes.
pub fn quick_query_of_points(
    axes: usize,
    points: &[usize],
    modes: &[u8],
    knots: &[f64],
    tensor: &[f64],
    coordinates: &[f64],
) -> Result<ValueInCell, Refusal>
    requires { QueryFits axes points.now modes.now knots.now tensor.now coordinates.now }
    ensures { OfAnyAxes axes points.now modes.now knots.now
        (λ g. QuickQueryPromise g tensor.now coordinates.now (query_told result)) }
{
    query_answer::answer(
        Way::Searched,
        axes,
        points,
        modes,
        knots,
        tensor,
        coordinates,
    )
}
