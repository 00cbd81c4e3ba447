// What every query answers once its sizes and lengths are in order: its cell found on the axes, and 7, 8, 18 and 10 in this order. None of
// these is a public call: `answer_to` requires what refusals 1 to 4 leave, with four points, four modes and room for four labels.

#![tactic(auto)]

ghost use Rattle.std.specs.Prelude.{◌≡◌, length, replicate};
ghost use Rattle.rules.specs.Sizes.{most_axes};
ghost use Rattle.rules.specs.Outside.{mode_number};
ghost use Rattle.rules.specs.Answers.{number_of, refusal_of, query_told};
ghost use Rattle.query_answer.specs.PointsAndModes.{ModesOf, QueryFits};
ghost use Rattle.query_answer.specs.AnswerByWay.{refused_with, answer_in, with_labels, knots_refusal, refusal_found, AnswerAmong};

use rules::{Axis, Refusal, ValueInCell};
use searched::Refusals;
use ways::Way;

pub mod ways; // ways.rt: the ways of finding a cell
mod searched; // searched.rt: a point looked for on the axes

// The number of an axis's mode.
fn mode_of(axis: Axis) -> u8
    ensures { result ≡ mode_number axis.mode }
{
    let mode = axis.mode;
    grid_codes::modes::mode_number(mode)
}

// The numbers of the modes of the four axes: with their points they are all that a query reads of them.
pub fn modes_of(all: [Axis; 4]) -> [u8; 4]
    ensures { ModesOf all result }
{
    [
        mode_of(all[0]),
        mode_of(all[1]),
        mode_of(all[2]),
        mode_of(all[3]),
    ]
}

// The refusal where knots are refused: a walk has passed over those that are infinite or NaN, which are refused as numbers.
fn knots_refusal(way: Way, knots: &[f64]) -> Refusal
    ensures { number_of result ≡ knots_refusal way knots.now }
{
    match way {
        Way::Walked => {
            if base_numbers::any_not_finite(knots) {
                Refusal::Number
            } else {
                Refusal::Knots
            }
        }
        Way::Searched | Way::Direct | Way::Divided => Refusal::Knots,
    }
}

// What the axes refuse, by what was found on them: 7, 8 or 18.
fn check_found(way: Way, knots: &[f64], refusals: Refusals) -> Result<(), Refusal>
    ensures { refusal_of result ≡ refusal_found way knots.now refusals }
{
    if refusals.coordinates {
        return Err(Refusal::Number);
    }
    if refusals.knots {
        return Err(knots_refusal(way, knots));
    }
    if refusals.outside {
        return Err(Refusal::Outside);
    }
    Ok(())
}

// All four labels 0.
fn clear_labels(labels: &mut [usize])
    requires { length labels.old ≡ 4 }
    ensures { labels.new ≡ replicate most_axes 0 }
{
    labels.fill(0);
}

// A refusal, with labels 0.
fn refuse(labels: &mut [usize], refusal: Refusal) -> Result<f64, Refusal>
    requires { length labels.old ≡ 4 }
    ensures { with_labels result labels.new ≡ refused_with (number_of refusal) }
{
    clear_labels(labels);
    Err(refusal)
}

// A value, where the labels are the cell that it was worked out in, or 10.
fn check_value(labels: &mut [usize], value: f64) -> Result<f64, Refusal>
    requires { length labels.old ≡ 4 }
    ensures { with_labels result labels.new ≡ answer_in value labels.old }
{
    if base_numbers::is_finite(value) {
        Ok(value)
    } else {
        refuse(labels, Refusal::Outcome)
    }
}

// The answer on one axis, whose cell and weights stay in registers.
fn answer_on_one(
    way: Way,
    points: &[usize],
    modes: &[u8],
    knots: &[f64],
    tensor: &[f64],
    coordinates: &[f64],
    labels: &mut [usize],
) -> Result<f64, Refusal>
    requires { QueryFits 1 points.now modes.now knots.now tensor.now coordinates.now × (length labels.old ≡ 4) }
    ensures { AnswerAmong way 1 points.now modes.now knots.now tensor.now
        coordinates.now (with_labels result labels.new) }
{
    clear_labels(labels);
    let mut weights = [0.0; 16];
    let refusals = searched::search_on_one(
        way,
        points,
        modes,
        knots,
        coordinates,
        labels,
        &mut weights,
    );
    if let Err(refusal) = check_found(way, knots, refusals) {
        return refuse(labels, refusal);
    }
    let value = query_cell::value(1, points, labels, &weights, tensor);
    check_value(labels, value)
}

// The same on two axes.
fn answer_on_two(
    way: Way,
    points: &[usize],
    modes: &[u8],
    knots: &[f64],
    tensor: &[f64],
    coordinates: &[f64],
    labels: &mut [usize],
) -> Result<f64, Refusal>
    requires { QueryFits 2 points.now modes.now knots.now tensor.now coordinates.now × (length labels.old ≡ 4) }
    ensures { AnswerAmong way 2 points.now modes.now knots.now tensor.now
        coordinates.now (with_labels result labels.new) }
{
    clear_labels(labels);
    let mut weights = [0.0; 16];
    let refusals = searched::search_on_two(
        way,
        points,
        modes,
        knots,
        coordinates,
        labels,
        &mut weights,
    );
    if let Err(refusal) = check_found(way, knots, refusals) {
        return refuse(labels, refusal);
    }
    let value = query_cell::value_on_two(points, labels, &weights, tensor);
    check_value(labels, value)
}

// The answer at a point on axes of these points, with a mode's number for each: of their ends nothing is read. The labels are those of
// the answer, whatever they were: of the cell, and after a refusal 0.
pub fn answer_to(
    way: Way,
    axes: usize,
    points: &[usize],
    modes: &[u8],
    knots: &[f64],
    tensor: &[f64],
    coordinates: &[f64],
    labels: &mut [usize],
) -> Result<f64, Refusal>
    requires { QueryFits axes points.now modes.now knots.now tensor.now coordinates.now × (length labels.old ≡ 4) }
    ensures { AnswerAmong way axes points.now modes.now knots.now tensor.now
        coordinates.now (with_labels result labels.new) }
{
    if axes == 1 {
        return answer_on_one(way, points, modes, knots, tensor, coordinates, labels);
    }
    if axes == 2 {
        return answer_on_two(way, points, modes, knots, tensor, coordinates, labels);
    }
    clear_labels(labels);
    let mut weights = [0.0; 16];
    let refusals = searched::search_on_axes(
        way,
        axes,
        points,
        modes,
        knots,
        coordinates,
        labels,
        &mut weights,
    );
    if let Err(refusal) = check_found(way, knots, refusals) {
        return refuse(labels, refusal);
    }
    let value = query_cell::value(axes, points, labels, &weights, tensor);
    check_value(labels, value)
}

// The same, with its labels.
pub fn answer(
    way: Way,
    axes: usize,
    points: &[usize],
    modes: &[u8],
    knots: &[f64],
    tensor: &[f64],
    coordinates: &[f64],
) -> Result<ValueInCell, Refusal>
    requires { QueryFits axes points.now modes.now knots.now tensor.now coordinates.now }
    ensures { AnswerAmong way axes points.now modes.now knots.now tensor.now
        coordinates.now (query_told result) }
{
    let mut labels = [0; 4];
    let value = answer_to(
        way,
        axes,
        points,
        modes,
        knots,
        tensor,
        coordinates,
        &mut labels,
    )?;
    Ok(ValueInCell { value, labels })
}
