// A point looked for on each axis in use: its cell, what the axis's mode makes of it, and the weights of the axis there.
ghost use Rattle.std.specs.Prelude.{◌≡◌, ◌+◌, ◌<◌, length};
ghost use Rattle.query_answer.specs.PointsAndModes.{SearchFits};
ghost use Rattle.query_answer.specs.CellsFound.{WeightsStored, Unfound, FoundAmong};

use crate::ways;
use axis_locate::outside;
use ways::Way;

// Whether the point is refused: by 7 for a coordinate, by 8 for the knots of an axis, by 18 where a mode refuses it.
#[derive(Clone, Copy)]
pub struct Refusals {
    pub coordinates: bool,
    pub knots: bool,
    pub outside: bool,
}

// The weights of an axis, for a point in the cell with this lower knot, go to their places.
fn store_weights(weights: &mut [f64], axis: usize, knots: &[f64], lower: usize, point: f64)
    requires { (axis < 4) × (length weights.old ≡ 16) × (lower + 1 < length knots.now) }
    ensures { WeightsStored weights.old axis knots.now lower point weights.new }
{
    let width = knots[lower + 1] - knots[lower];
    let of_axis = query_blend::hermite_weights(width, (point - knots[lower]) / width);
    weights[4 * axis] = of_axis.h00;
    weights[4 * axis + 1] = of_axis.h10;
    weights[4 * axis + 2] = of_axis.h01;
    weights[4 * axis + 3] = of_axis.h11;
}

// The one axis there is: what a turn of `search_on_axes` does, with no place that is worked out while it runs, so that cell and weights
// stay in registers. The knots are lent anew: a slice that is handed on as it came is read whole, which waits for its words to be stored.
pub fn search_on_one(
    way: Way,
    points: &[usize],
    modes: &[u8],
    knots: &[f64],
    coordinates: &[f64],
    lower: &mut [usize],
    weights: &mut [f64],
) -> Refusals
    requires { SearchFits 1 points.now modes.now knots.now coordinates.now × Unfound lower.old weights.old }
    ensures { FoundAmong way 1 points.now modes.now knots.now coordinates.now lower.new
        weights.new result }
{
    let end = points[0];
    let point = coordinates[0];
    let placed = outside::place_on_axis(modes[0], &knots[0..end], point);
    let cell = ways::cell_on_axis(way, &knots[0..end], point, placed.coordinate);
    lower[0] = cell;
    store_weights(weights, 0, &knots[0..end], cell, placed.coordinate);
    let finite = base_numbers::is_finite(point);
    let knots_refused = ways::knots_refused(way, &knots[0..end], cell);
    Refusals {
        coordinates: !finite,
        knots: knots_refused,
        outside: placed.refused,
    }
}

// The two axes there are, in the same way: the knots of the second begin where those of the first end.
pub fn search_on_two(
    way: Way,
    points: &[usize],
    modes: &[u8],
    knots: &[f64],
    coordinates: &[f64],
    lower: &mut [usize],
    weights: &mut [f64],
) -> Refusals
    requires { SearchFits 2 points.now modes.now knots.now coordinates.now × Unfound lower.old weights.old }
    ensures { FoundAmong way 2 points.now modes.now knots.now coordinates.now lower.new
        weights.new result }
{
    let begin = points[0];
    let first = coordinates[0];
    let first_placed = outside::place_on_axis(modes[0], &knots[0..begin], first);
    let first_cell = ways::cell_on_axis(way, &knots[0..begin], first, first_placed.coordinate);
    lower[0] = first_cell;
    store_weights(
        weights,
        0,
        &knots[0..begin],
        first_cell,
        first_placed.coordinate,
    );
    let first_finite = base_numbers::is_finite(first);
    let first_refused = ways::knots_refused(way, &knots[0..begin], first_cell);
    let end = begin + points[1];
    let second = coordinates[1];
    let second_placed = outside::place_on_axis(modes[1], &knots[begin..end], second);
    let second_cell = ways::cell_on_axis(way, &knots[begin..end], second, second_placed.coordinate);
    lower[1] = second_cell;
    store_weights(
        weights,
        1,
        &knots[begin..end],
        second_cell,
        second_placed.coordinate,
    );
    let second_finite = base_numbers::is_finite(second);
    let second_refused = ways::knots_refused(way, &knots[begin..end], second_cell);
    Refusals {
        coordinates: !first_finite | !second_finite,
        knots: first_refused | second_refused,
        outside: first_placed.refused | second_placed.refused,
    }
}

// The cells go to `lower`, which is 0 past the axes in use, and the weights to `weights`. Of the knots it reads, besides those that are
// looked at for 8, the first and the last of an axis, those that the halvings look at, and the two of the cell.
pub fn search_on_axes(
    way: Way,
    axes: usize,
    points: &[usize],
    modes: &[u8],
    knots: &[f64],
    coordinates: &[f64],
    lower: &mut [usize],
    weights: &mut [f64],
) -> Refusals
    requires { SearchFits axes points.now modes.now knots.now coordinates.now × Unfound lower.old weights.old }
    ensures { FoundAmong way axes points.now modes.now knots.now coordinates.now lower.new
        weights.new result }
{
    let mut coordinates_refused = false;
    let mut knots_refused = false;
    let mut outside = false;
    let mut begin = 0;
    for i in 0..axes {
        let end = begin + points[i];
        let point = coordinates[i];
        let placed = outside::place_on_axis(modes[i], &knots[begin..end], point);
        let cell = ways::cell_on_axis(way, &knots[begin..end], point, placed.coordinate);
        lower[i] = cell;
        store_weights(weights, i, &knots[begin..end], cell, placed.coordinate);
        coordinates_refused = coordinates_refused | !base_numbers::is_finite(point);
        knots_refused = knots_refused | ways::knots_refused(way, &knots[begin..end], cell);
        outside = outside | placed.refused;
        begin = end;
    }
    Refusals {
        coordinates: coordinates_refused,
        knots: knots_refused,
        outside,
    }
}
