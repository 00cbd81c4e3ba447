// The query of a tensor: a point located on each axis, and the blend of the cell around it.

#![tactic(auto)]

ghost use Rattle.rules.specs.Calls.{QueryPromise};
ghost use Rattle.rules.specs.Answers.{query_told};
ghost use Rattle.grid.specs.GridOfCall.{grid};
ghost use Rattle.query_answer.specs.PointsAndModes.{QueryFits, OfAnyAxes};

use query_answer::ways::Way;
use rules::{Axis, Refusal, ValueInCell};

// PUBLIC. The surface's value at a point, where the mode of each axis says what is done with a coordinate outside its knots, and for each
// axis the label, which is the cell that was evaluated, 0 past those in use. Refuses 1 2 3 4 7 8 18 10, in this order. The tensor is not
// searched for 7.
pub fn query(
    axes: usize,
    all: [Axis; 4],
    knots: &[f64],
    tensor: &[f64],
    coordinates: &[f64],
) -> Result<ValueInCell, Refusal>
    ensures { QueryPromise (grid axes all knots.now) tensor.now coordinates.now (query_told result) }
{
    let points = grid::points_of(all);
    grid_checks::check_query_sizes(axes, &points, knots.len(), tensor.len(), coordinates.len())?;
    let modes = query_answer::modes_of(all);
    query_of_points(axes, &points, &modes, knots, tensor, coordinates)
}

// The same on axes of these points, with a mode's number for each, where 1 to 4 do not apply. Not a public call: that they do not is
// required, and four points and four modes.
pub fn query_of_points(
    axes: usize,
    points: &[usize],
    modes: &[u8],
    knots: &[f64],
    tensor: &[f64],
    coordinates: &[f64],
) -> Result<ValueInCell, Refusal>
    requires { QueryFits axes points.now modes.now knots.now tensor.now coordinates.now }
    ensures { OfAnyAxes axes points.now modes.now knots.now
        (λ g. QueryPromise g tensor.now coordinates.now (query_told result)) }
{
    query_answer::answer(Way::Walked, axes, points, modes, knots, tensor, coordinates)
}
