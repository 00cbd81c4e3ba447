// The calls of queries as `hullashlar` exports them, over numbers and plain slices. Each returns its refusal's number, 0 for none, in the
// order that c_refusals::own says.

#![tactic(auto)]

ghost use Rattle.c_query.specs.QueryExports.{QueryExport, QuickQueryExport, EvenQueryExport};

use c_refusals::{own, slots};
use rules::{EvenRefusal, Refusal};

// The surface's value at the coordinates, in a slot of one, and the four labels, with a mode for each axis. Refuses 1 2 3 4 7 8 18 10, in
// this order, and then value and labels are 0; and 4 and 22 of its own.
pub fn query(
    axes: usize,
    points: &[usize],
    modes: &[u8],
    knots: &[f64],
    tensor: &[f64],
    coordinates: &[f64],
    value: &mut [f64],
    labels: &mut [usize],
) -> usize
    ensures { QueryExport axes points.now modes.now knots.now tensor.now coordinates.now
        value.old labels.old result value.new labels.new }
{
    let own = own::check_query(
        axes,
        points,
        modes,
        knots,
        tensor,
        coordinates,
        value,
        labels,
    );
    if let Err(refusal) = own {
        slots::store_query(value, labels, 0.0, [0; 4]);
        return refusal.number();
    }
    match query_full::query_of_points(axes, points, modes, knots, tensor, coordinates) {
        Ok(found) => {
            let cell = found.labels;
            slots::store_query(value, labels, found.value, cell);
            0
        }
        Err(refusal) => {
            slots::store_query(value, labels, 0.0, [0; 4]);
            refusal.number()
        }
    }
}

// The same in the cell that the search finds, on any knots. Refuses as the query, by 7 for a coordinate and by 8 for the found cell's knots
// alone.
pub fn quick_query(
    axes: usize,
    points: &[usize],
    modes: &[u8],
    knots: &[f64],
    tensor: &[f64],
    coordinates: &[f64],
    value: &mut [f64],
    labels: &mut [usize],
) -> usize
    ensures { QuickQueryExport axes points.now modes.now knots.now tensor.now
        coordinates.now value.old labels.old result value.new labels.new }
{
    let own = own::check_query(
        axes,
        points,
        modes,
        knots,
        tensor,
        coordinates,
        value,
        labels,
    );
    if let Err(refusal) = own {
        slots::store_query(value, labels, 0.0, [0; 4]);
        return refusal.number();
    }
    match query_quick::quick_query_of_points(axes, points, modes, knots, tensor, coordinates) {
        Ok(found) => {
            let cell = found.labels;
            slots::store_query(value, labels, found.value, cell);
            0
        }
        Err(refusal) => {
            slots::store_query(value, labels, 0.0, [0; 4]);
            refusal.number()
        }
    }
}

// The same on even axes, in the cell that one division finds, and after 21 the axis that is not even and its interval, in a slot of two.
// Refuses 1 2 3 4 7 8 21 18 10, in this order, and then value and labels are 0; and 4 and 22 of its own.
pub fn even_query(
    axes: usize,
    points: &[usize],
    modes: &[u8],
    knots: &[f64],
    tensor: &[f64],
    coordinates: &[f64],
    value: &mut [f64],
    labels: &mut [usize],
    uneven: &mut [usize],
) -> usize
    ensures { EvenQueryExport axes points.now modes.now knots.now tensor.now
        coordinates.now value.old labels.old uneven.old result value.new
        labels.new uneven.new }
{
    let own = own::check_even_query(
        axes,
        points,
        modes,
        knots,
        tensor,
        coordinates,
        value,
        labels,
        uneven,
    );
    if let Err(refusal) = own {
        slots::store_even_query(value, labels, uneven, 0.0, [0; 4], 0, 0);
        return refusal.number();
    }
    match query_even::even_query_of_points(axes, points, modes, knots, tensor, coordinates) {
        Ok(found) => {
            let cell = found.labels;
            slots::store_even_query(value, labels, uneven, found.value, cell, 0, 0);
            0
        }
        Err(EvenRefusal::Uneven { axis, interval }) => {
            slots::store_even_query(value, labels, uneven, 0.0, [0; 4], axis, interval);
            Refusal::Uneven.number()
        }
        Err(EvenRefusal::Refused(refusal)) => {
            slots::store_even_query(value, labels, uneven, 0.0, [0; 4], 0, 0);
            refusal.number()
        }
    }
}
