// The host's own refusals of curves, tensors, queries and sheets, in one order: with axes 1, 4 for the points, 2, 3, 4 for every other
// slice and slot, 13 for the kinds and 22 for the modes; on one axis 2, 4 and 13; of a sheet that is read 4 alone. Where none applies,
// the call's own follow. Steps have theirs in c_step::own, and the device in c_device.
ghost use Rattle.std.specs.Prelude.{◌≡◌, ◌||◌, ◌≤◌, length};
ghost use Rattle.rules.specs.Sizes.{knots_length, samples_length};
ghost use Rattle.rules.specs.Answers.{refusal_of};
ghost use Rattle.rules.specs.Refusals.{length_refused};
ghost use Rattle.grid.specs.GridOfCall.{sizes_of, points_of, InRange};
ghost use Rattle.c_refusals.specs.OwnRefusals.{
  query_slots_refused,
  modes_or_slots_refused,
  found_slots_refused,
  moments_own_refusal,
  curve_own_refusal,
  build_own_refusal,
  change_own_refusal,
  write_own_refusal,
  query_own_refusal,
  read_edition_1_own_refusal,
  read_own_refusal,
  sheet_tensor_own_refusal,
  even_query_own_refusal,
};
ghost use Rattle.c_refusals.specs.OwnSizes.{OwnSizes, rows_of_sizes};
ghost use Rattle.grid_checks.specs.Tables.{lowest};

use c_axes::{axes_without_ends, some_kinds_refused, some_modes_refused};
use grid_checks::sizes::Sizes;
use grid_checks::{lengths, sizes};
use grid_codes::ends::{kinds_refused, wide};
use rules::{Axis, Refusal};

// Whether kinds or values are not those of so many ends: two of an axis, eight of four.
fn ends_refused<const ENDS: usize>(kinds: &[u8], values: &[f64]) -> bool
    ensures { result ≡ (length_refused (length kinds.now) ENDS || length_refused (length values.now) ENDS) }
{
    lengths::length_refused(kinds.len(), ENDS) || lengths::length_refused(values.len(), ENDS)
}

// Of the curve's moments: two ends, and the call's own slices, which 13 comes after.
pub fn check_moments(
    points: usize,
    knots: &[f64],
    samples: &[f64],
    kinds: &[u8],
    values: &[f64],
    moments: &[f64],
) -> Result<(), Refusal>
    ensures { refusal_of result ≡ moments_own_refusal points knots.now samples.now kinds.now values.now
        moments.now }
{
    if sizes::points_refused(points) {
        return Err(Refusal::Points);
    }
    if ends_refused::<2>(kinds, values) {
        return Err(Refusal::Length);
    }
    if lengths::axis_refused(points, knots.len(), samples.len(), moments.len()) {
        return Err(Refusal::Length);
    }
    if kinds_refused(wide(kinds[0]), wide(kinds[1])) {
        return Err(Refusal::Kinds);
    }
    Ok(())
}

// Of the curve's value: its slot.
pub fn check_curve(points: usize, value: &[f64]) -> Result<(), Refusal>
    ensures { refusal_of result ≡ curve_own_refusal points value.now }
{
    if sizes::points_refused(points) {
        return Err(Refusal::Points);
    }
    if lengths::length_refused(value.len(), 1) {
        return Err(Refusal::Length);
    }
    Ok(())
}

// What every call with axes meets first: 1 for the number of axes alone, 4 for points that are not four, 2, 3, or else the sizes of its grid.
pub fn check_axes(axes: usize, points: &[usize]) -> Result<Sizes, Refusal>
    ensures { OwnSizes axes points.now result }
{
    if sizes::axes_refused(axes) {
        return Err(Refusal::Axes);
    }
    if lengths::length_refused(points.len(), 4) {
        return Err(Refusal::Length);
    }
    sizes::sizes_of_points(axes, points)
}

// Of a build: eight ends, and the call's own slices, which 13 comes after.
pub fn check_build(
    axes: usize,
    points: &[usize],
    kinds: &[u8],
    values: &[f64],
    knots: &[f64],
    samples: &[f64],
    tensor: &[f64],
) -> Result<(), Refusal>
    ensures { refusal_of result ≡ build_own_refusal axes points.now kinds.now values.now knots.now
        samples.now tensor.now }
{
    check_axes(axes, points)?;
    if ends_refused::<8>(kinds, values) {
        return Err(Refusal::Length);
    }
    let all = axes_without_ends(axes, points);
    if lengths::build_refused(axes, all, knots.len(), samples.len(), tensor.len()) {
        return Err(Refusal::Length);
    }
    if some_kinds_refused(axes, kinds) {
        return Err(Refusal::Kinds);
    }
    Ok(())
}

// Of a change: eight ends, the place, the slot of the count, and the call's own slices.
pub fn check_change(
    axes: usize,
    points: &[usize],
    kinds: &[u8],
    values: &[f64],
    knots: &[f64],
    tensor: &[f64],
    place: &[usize],
    lanes: &[usize],
) -> Result<(), Refusal>
    ensures { refusal_of result ≡ change_own_refusal axes points.now kinds.now values.now knots.now
        tensor.now place.now lanes.now }
{
    check_axes(axes, points)?;
    if ends_refused::<8>(kinds, values) {
        return Err(Refusal::Length);
    }
    if four_or_slot_refused(place, lanes) {
        return Err(Refusal::Length);
    }
    let all = axes_without_ends(axes, points);
    if lengths::change_refused(axes, all, knots.len(), tensor.len()) {
        return Err(Refusal::Length);
    }
    if some_kinds_refused(axes, kinds) {
        return Err(Refusal::Kinds);
    }
    Ok(())
}

// Whether knots or samples are not as many as the axes say: the build's test, told of a tensor that has its length. Not a public call: what
// refusals 1 and 2 leave is required.
fn parts_refused(axes: usize, all: [Axis; 4], knots: usize, samples: usize) -> bool
    requires { InRange axes (points_of all) }
    ensures { result ≡ (length_refused knots (knots_length (sizes_of axes all)) || length_refused samples (samples_length (sizes_of axes all))) }
{
    lengths::build_refused(axes, all, knots, samples, grid::tensor_length(axes, all))
}

// Whether what is one of each of four axes, as a place or modes are, has another length, or a slot is not one number.
fn four_or_slot_refused<T: Copy>(four: &[T], slot: &[usize]) -> bool
    ensures { result ≡ (length_refused (length four.now) 4 || length_refused (length slot.now) 1) }
{
    lengths::length_refused(four.len(), 4) || lengths::length_refused(slot.len(), 1)
}

// Of a sheet that is written: eight ends, the modes, the slot of the length, and the call's own slices.
pub fn check_write(
    axes: usize,
    points: &[usize],
    kinds: &[u8],
    values: &[f64],
    modes: &[u8],
    knots: &[f64],
    samples: &[f64],
    length: &[usize],
) -> Result<(), Refusal>
    ensures { refusal_of result ≡ write_own_refusal axes points.now kinds.now values.now modes.now
        knots.now samples.now length.now }
{
    check_axes(axes, points)?;
    if ends_refused::<8>(kinds, values) {
        return Err(Refusal::Length);
    }
    if four_or_slot_refused(modes, length) {
        return Err(Refusal::Length);
    }
    let all = axes_without_ends(axes, points);
    if parts_refused(axes, all, knots.len(), samples.len()) {
        return Err(Refusal::Length);
    }
    if some_kinds_refused(axes, kinds) {
        return Err(Refusal::Kinds);
    }
    if some_modes_refused(axes, modes) {
        return Err(Refusal::Mode);
    }
    Ok(())
}

// Whether a slot of a query's answer is of another length.
pub fn query_slots_refused(value: &[f64], labels: &[usize]) -> bool
    ensures { result ≡ query_slots_refused value.now labels.now }
{
    lengths::length_refused(value.len(), 1) || lengths::length_refused(labels.len(), 4)
}

// Whether the modes are not those of four axes, or a slot of a query's answer is of another length.
fn modes_or_slots_refused(modes: &[u8], value: &[f64], labels: &[usize]) -> bool
    ensures { result ≡ modes_or_slots_refused modes.now value.now labels.now }
{
    lengths::length_refused(modes.len(), 4) || query_slots_refused(value, labels)
}

// What a query on axes of these sizes meets after them: 4 for the modes, the slots of its answer and its own slices, and 22. Not a public
// call: at most four axes are required.
fn check_query_later(
    axes: usize,
    sizes: Sizes,
    modes: &[u8],
    knots: &[f64],
    tensor: &[f64],
    coordinates: &[f64],
    value: &[f64],
    labels: &[usize],
) -> Result<(), Refusal>
    requires { axes ≤ 4 }
    ensures { refusal_of result ≡ lowest
        (rows_of_sizes axes sizes modes.now knots.now tensor.now coordinates.now
        value.now labels.now)
        0 }
{
    if modes_or_slots_refused(modes, value, labels) {
        return Err(Refusal::Length);
    }
    if lengths::query_lengths_refused(axes, sizes, knots.len(), tensor.len(), coordinates.len()) {
        return Err(Refusal::Length);
    }
    if some_modes_refused(axes, modes) {
        return Err(Refusal::Mode);
    }
    Ok(())
}

// Of a query: what its axes meet, and then 4 for the modes, the slots of its answer and its own slices, and 22.
pub fn check_query(
    axes: usize,
    points: &[usize],
    modes: &[u8],
    knots: &[f64],
    tensor: &[f64],
    coordinates: &[f64],
    value: &[f64],
    labels: &[usize],
) -> Result<(), Refusal>
    ensures { refusal_of result ≡ query_own_refusal axes points.now modes.now knots.now tensor.now
        coordinates.now value.now labels.now }
{
    let found = check_axes(axes, points)?;
    check_query_later(
        axes,
        found,
        modes,
        knots,
        tensor,
        coordinates,
        value,
        labels,
    )
}

// Of the query of even axes: the same, and before the modes and the other slots 4 for the slot of an axis that is not even.
pub fn check_even_query(
    axes: usize,
    points: &[usize],
    modes: &[u8],
    knots: &[f64],
    tensor: &[f64],
    coordinates: &[f64],
    value: &[f64],
    labels: &[usize],
    uneven: &[usize],
) -> Result<(), Refusal>
    ensures { refusal_of result ≡ even_query_own_refusal axes points.now modes.now knots.now tensor.now
        coordinates.now value.now labels.now uneven.now }
{
    let found = check_axes(axes, points)?;
    if lengths::length_refused(uneven.len(), 2) {
        return Err(Refusal::Length);
    }
    check_query_later(
        axes,
        found,
        modes,
        knots,
        tensor,
        coordinates,
        value,
        labels,
    )
}

// Whether the slot of the number of a sheet's axes, or a slice of what is found of them, is of another length.
fn found_slots_refused(axes: &[usize], points: &[usize], kinds: &[u8], values: &[f64]) -> bool
    ensures { result ≡ found_slots_refused axes.now points.now kinds.now values.now }
{
    lengths::length_refused(axes.len(), 1)
        || lengths::length_refused(points.len(), 4)
        || ends_refused::<8>(kinds, values)
}

// Of a sheet that is read as one of edition 1: what is found of its axes.
pub fn check_read_edition_1(
    axes: &[usize],
    points: &[usize],
    kinds: &[u8],
    values: &[f64],
) -> Result<(), Refusal>
    ensures { refusal_of result ≡ read_edition_1_own_refusal axes.now points.now kinds.now values.now }
{
    if found_slots_refused(axes, points, kinds, values) {
        return Err(Refusal::Length);
    }
    Ok(())
}

// Of a sheet: what is found of its axes, their modes among it, and its edition.
pub fn check_read(
    axes: &[usize],
    points: &[usize],
    kinds: &[u8],
    values: &[f64],
    modes: &[u8],
    edition: &[usize],
) -> Result<(), Refusal>
    ensures { refusal_of result ≡ read_own_refusal axes.now points.now kinds.now values.now modes.now
        edition.now }
{
    if found_slots_refused(axes, points, kinds, values) {
        return Err(Refusal::Length);
    }
    if four_or_slot_refused(modes, edition) {
        return Err(Refusal::Length);
    }
    Ok(())
}

// Of a sheet's tensor: the same, and the slot of the length.
pub fn check_sheet_tensor(
    axes: &[usize],
    points: &[usize],
    kinds: &[u8],
    values: &[f64],
    modes: &[u8],
    edition: &[usize],
    length: &[usize],
) -> Result<(), Refusal>
    ensures { refusal_of result ≡ sheet_tensor_own_refusal axes.now points.now kinds.now values.now
        modes.now edition.now length.now }
{
    if found_slots_refused(axes, points, kinds, values) {
        return Err(Refusal::Length);
    }
    if four_or_slot_refused(modes, edition) {
        return Err(Refusal::Length);
    }
    if lengths::length_refused(length.len(), 1) {
        return Err(Refusal::Length);
    }
    Ok(())
}
