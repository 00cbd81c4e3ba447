// The direct query as `hullashlar` exports it, over numbers and plain slices. It returns its refusal's number, 0 for none, in the order
// that c_refusals::own says.

#![tactic(auto)]

ghost use Rattle.c_direct.specs.DirectExports.{DirectQueryExport};

use c_refusals::{own, slots};

// The surface's value at the coordinates, in a slot of one, and the four labels, with a mode for each axis, in the cell that one division
// finds, on any knots. Refuses as the quick query, 1 2 3 4, 7 for a coordinate, 8 for the found cell's knots, 18 10, in this order, and
// then value and labels are 0; and 4 and 22 of its own.
pub fn direct_query(
    axes: usize,
    points: &[usize],
    modes: &[u8],
    knots: &[f64],
    tensor: &[f64],
    coordinates: &[f64],
    value: &mut [f64],
    labels: &mut [usize],
) -> usize
    ensures { DirectQueryExport axes points.now modes.now knots.now tensor.now
        coordinates.now value.old labels.old result value.new labels.new }
{
    let own = own::check_query(
        axes,
        points,
        modes,
        knots,
        tensor,
        coordinates,
        value,
        labels,
    );
    if let Err(refusal) = own {
        slots::store_query(value, labels, 0.0, [0; 4]);
        return refusal.number();
    }
    match query_direct::direct_query_of_points(axes, points, modes, knots, tensor, coordinates) {
        Ok(found) => {
            let cell = found.labels;
            slots::store_query(value, labels, found.value, cell);
            0
        }
        Err(refusal) => {
            slots::store_query(value, labels, 0.0, [0; 4]);
            refusal.number()
        }
    }
}
