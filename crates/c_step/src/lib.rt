// The calls of steps as `hullashlar` exports them, over numbers and plain slices. Each returns its refusal's number, 0 for none, in the
// order that own.rt says.

#![tactic(auto)]

ghost use Rattle.c_step.specs.StepExports.{ExactExport, AxisExport, StepExport, SteppedExport};

use c_refusals::slots::{store_one, store_query};
use rules::AxisLocation;

pub mod directions; // directions.rt: directions as numbers
pub mod own; // own.rt: the host's own refusals, before the call's
pub mod slots; // slots.rt: the slots of an exact index and of a location

// Which of two neighbouring knots equals the point: 1 and its index, or 0 0, in a slot of two. Refuses 2 4 6 7 8, and then it is 0 0; and 4
// of its own.
pub fn exact_index(
    points: usize,
    knots: &[f64],
    lower: usize,
    point: f64,
    found: &mut [usize],
) -> usize
    ensures { ExactExport points knots.now lower point found.old result found.new }
{
    if let Err(refusal) = own::check_exact(points, found) {
        slots::store_exact(found, None);
        return refusal.number();
    }
    match step_axis::exact_index(points, knots, lower, point) {
        Ok(index) => {
            slots::store_exact(found, index);
            0
        }
        Err(refusal) => {
            slots::store_exact(found, None);
            refusal.number()
        }
    }
}

// Where a point lies: 0 and the index of the knot that it equals, or 1 and the lower index of its cell, in a slot of two, and the fraction,
// +0.0 on a knot, in a slot of one. Refuses 2 4 7 8 10, and then all are 0; and 4 of its own.
pub fn locate_axis(
    points: usize,
    knots: &[f64],
    point: f64,
    location: &mut [usize],
    fraction: &mut [f64],
) -> usize
    ensures { AxisExport points knots.now point location.old fraction.old result location.new
        fraction.new }
{
    if let Err(refusal) = own::check_axis(points, location, fraction) {
        slots::store_location(location, fraction, AxisLocation::Exact(0));
        return refusal.number();
    }
    match step_axis::locate_axis(points, knots, point) {
        Ok(found) => {
            slots::store_location(location, fraction, found);
            0
        }
        Err(refusal) => {
            slots::store_location(location, fraction, AxisLocation::Exact(0));
            refusal.number()
        }
    }
}

// The index of the knot that a point steps to, in a slot of one. Refuses 2 4 7 8, and then it is 0; and 4 and 22 of its own.
pub fn locate_step_index(
    points: usize,
    knots: &[f64],
    direction: u8,
    point: f64,
    index: &mut [usize],
) -> usize
    ensures { StepExport points knots.now direction point index.old result index.new }
{
    if let Err(refusal) = own::check_step(points, knots, direction, index) {
        store_one(index, 0);
        return refusal.number();
    }
    let given = directions::direction_of_number(direction);
    match step_axis::locate_step_index(given, points, knots, point) {
        Ok(found) => {
            store_one(index, found);
            0
        }
        Err(refusal) => {
            store_one(index, 0);
            refusal.number()
        }
    }
}

// The sample at the place that the coordinates step to, in a slot of one, and the four indices of that place. Refuses 1 2 3 4 7 8, and then
// value and indices are 0; and 4 and 22 of its own.
pub fn stepped(
    axes: usize,
    points: &[usize],
    directions: &[u8],
    knots: &[f64],
    samples: &[f64],
    coordinates: &[f64],
    value: &mut [f64],
    indices: &mut [usize],
) -> usize
    ensures { SteppedExport axes points.now directions.now knots.now samples.now
        coordinates.now value.old indices.old result value.new indices.new }
{
    let own = own::check_stepped(
        axes,
        points,
        directions,
        knots,
        samples,
        coordinates,
        value,
        indices,
    );
    if let Err(refusal) = own {
        store_query(value, indices, 0.0, [0; 4]);
        return refusal.number();
    }
    let given = directions::directions_given(axes, directions);
    match step_surface::stepped_of_points(axes, points, given, knots, samples, coordinates) {
        Ok(found) => {
            let place = found.indices;
            store_query(value, indices, found.value, place);
            0
        }
        Err(refusal) => {
            store_query(value, indices, 0.0, [0; 4]);
            refusal.number()
        }
    }
}
