// The twenty-five calls for C, over numbers and plain slices. Each but the firmware's returns its refusal's number, 0 for none: the
// host's own first, as c_refusals::own and the crates of exports have them, and then the call's.

#![tactic(auto)]

ghost use Rattle.std.specs.Prelude.{[], ◌∷◌};
ghost use Rattle.rules.specs.Calls.{SlopesPromise};
ghost use Rattle.sheet_surface.specs.SheetSurface.{SurfacePromise};
ghost use Rattle.c_step.specs.StepExports.{ExactExport, AxisExport, StepExport, SteppedExport};
ghost use Rattle.c_step_many.specs.ManyStepExports.{SteppedManyExport};
ghost use Rattle.c_curve.specs.CurveExports.{MomentsExport, CurveExport};
ghost use Rattle.c_tensor.specs.TensorExports.{BuildExport, ChangeExport};
ghost use Rattle.c_verify.specs.VerifyExports.{VerifyExport};
ghost use Rattle.c_query.specs.QueryExports.{QueryExport, QuickQueryExport, EvenQueryExport};
ghost use Rattle.c_direct.specs.DirectExports.{DirectQueryExport};
ghost use Rattle.c_profile.specs.ProfileExports.{EvenProfileExport};
ghost use Rattle.c_many.specs.ManyExports.{QuickQueriesExport, DirectQueriesExport};
ghost use Rattle.c_sheet.specs.SheetExports.{ReadExport, ReadEdition1Export, SheetTensorExport, WriteExport};
ghost use Rattle.c_device.specs.DeviceExports.{CellExport, NextExport};

// The moments of the curve through the samples, one for each point, under the two ends given. Refuses 2 4 5 7 8 9 10, and 4 and 13 of its
// own.
#[unsafe(no_mangle)]
pub extern "C" fn hullashlar_moments(
    points: usize,
    knots: &[f64],
    samples: &[f64],
    kinds: &[u8],
    values: &[f64],
    moments: &mut [f64],
    scratch: &mut [f64],
) -> usize
    ensures { MomentsExport points knots.now samples.now kinds.now values.now moments.old
        scratch.old result moments.new scratch.new }
{
    c_curve::moments(points, knots, samples, kinds, values, moments, scratch)
}

// The curve's value at a point, beyond the knots too, in a slot of one. Refuses 2 4 7 8 10, and then the value is +0.0; and 4 of its own.
#[unsafe(no_mangle)]
pub extern "C" fn hullashlar_curve(
    points: usize,
    knots: &[f64],
    samples: &[f64],
    moments: &[f64],
    point: f64,
    value: &mut [f64],
) -> usize
    ensures { CurveExport points knots.now samples.now moments.now point value.old result
        value.new }
{
    c_curve::curve(points, knots, samples, moments, point, value)
}

// The curve's slope at every knot, one for each point. Refuses 2 4 7 8 10.
#[unsafe(no_mangle)]
pub extern "C" fn hullashlar_slopes(
    points: usize,
    knots: &[f64],
    samples: &[f64],
    moments: &[f64],
    slopes: &mut [f64],
) -> usize
    ensures { SlopesPromise points knots.now samples.now moments.now slopes.old result
        slopes.new }
{
    rules::number_told(axis_curve::knot_slopes(points, knots, samples, moments, slopes))
}

// The tensor of the samples on a grid. Refuses 1 2 3 4 5 7 8 9 10, and 4 and 13 of its own.
#[unsafe(no_mangle)]
pub extern "C" fn hullashlar_build(
    axes: usize,
    points: &[usize],
    kinds: &[u8],
    values: &[f64],
    knots: &[f64],
    samples: &[f64],
    tensor: &mut [f64],
    scratch: &mut [f64],
) -> usize
    ensures { BuildExport axes points.now kinds.now values.now knots.now samples.now
        tensor.old scratch.old result tensor.new scratch.new }
{
    c_tensor::build(axes, points, kinds, values, knots, samples, tensor, scratch)
}

// One sample changed in a tensor, with every lane solved again that can differ; how many were solved goes to a slot of one. Refuses 1 to
// 10, and then no lane was solved; and 4 and 13 of its own.
#[unsafe(no_mangle)]
pub extern "C" fn hullashlar_change(
    axes: usize,
    points: &[usize],
    kinds: &[u8],
    values: &[f64],
    knots: &[f64],
    tensor: &mut [f64],
    scratch: &mut [f64],
    place: &[usize],
    sample: f64,
    lanes: &mut [usize],
) -> usize
    ensures { ChangeExport axes points.now kinds.now values.now knots.now tensor.old
        scratch.old place.now sample lanes.old result tensor.new scratch.new
        lanes.new }
{
    c_tensor::change(
        axes, points, kinds, values, knots, tensor, scratch, place, sample, lanes,
    )
}

// Whether every number of the tensor is the one that a build of its own samples gives, bit for bit. Of the first that differs the place
// goes to a slot of four; 1 for a whole tensor or 0, the mask of that number and how many differ go to a slot of three. Refuses 1 2 3 4 5 7
// 8 9 10, and then all are 0; and 4 and 13 of its own.
#[unsafe(no_mangle)]
pub extern "C" fn hullashlar_verify(
    axes: usize,
    points: &[usize],
    kinds: &[u8],
    values: &[f64],
    knots: &[f64],
    tensor: &[f64],
    scratch: &mut [f64],
    place: &mut [usize],
    found: &mut [usize],
) -> usize
    ensures { VerifyExport axes points.now kinds.now values.now knots.now tensor.now
        scratch.old place.old found.old result scratch.new place.new found.new }
{
    c_verify::verify(
        axes, points, kinds, values, knots, tensor, scratch, place, found,
    )
}

// The surface's value at the coordinates in a slot of one, with a mode for each axis, 0 to extend beyond its knots, 1 to hold at the
// nearest end knot, 2 to refuse, and for each axis the label, which is the cell that was evaluated, 0 past those in use. Refuses 1 2 3 4 7
// 8 18 10, in this order, and then value and labels are 0; and 4 and 22 of its own.
#[unsafe(no_mangle)]
pub extern "C" fn hullashlar_query(
    axes: usize,
    points: &[usize],
    modes: &[u8],
    knots: &[f64],
    tensor: &[f64],
    coordinates: &[f64],
    value: &mut [f64],
    labels: &mut [usize],
) -> usize
    ensures { QueryExport axes points.now modes.now knots.now tensor.now coordinates.now
        value.old labels.old result value.new labels.new }
{
    c_query::query(
        axes,
        points,
        modes,
        knots,
        tensor,
        coordinates,
        value,
        labels,
    )
}

// The surface's value at the coordinates and the labels, as above, in the cell that the search finds: no axis is walked, and the knots may
// be any. The answer is that of the query wherever it does not refuse the knots. Refuses 1 2 3 4, 7 for a coordinate, 8 for the found
// cell's knots, 18 10, in this order, and then value and labels are 0; and 4 and 22 of its own.
#[unsafe(no_mangle)]
pub extern "C" fn hullashlar_quick_query(
    axes: usize,
    points: &[usize],
    modes: &[u8],
    knots: &[f64],
    tensor: &[f64],
    coordinates: &[f64],
    value: &mut [f64],
    labels: &mut [usize],
) -> usize
    ensures { QuickQueryExport axes points.now modes.now knots.now tensor.now
        coordinates.now value.old labels.old result value.new labels.new }
{
    c_query::quick_query(
        axes,
        points,
        modes,
        knots,
        tensor,
        coordinates,
        value,
        labels,
    )
}

// The surface's value at the coordinates and the labels, as of the query, on axes that are even, in the cell that one division finds on
// each; hold moves a coordinate before its cell is found. Refuses 1 2 3 4 7 8 21 18 10, in this order, and then value and labels are 0; and
// 4 and 22 of its own. After 21 uneven has the lowest axis that is not even and its first interval that fails, both counted from 0; after
// all else it has 0 twice.
#[unsafe(no_mangle)]
pub extern "C" fn hullashlar_even_query(
    axes: usize,
    points: &[usize],
    modes: &[u8],
    knots: &[f64],
    tensor: &[f64],
    coordinates: &[f64],
    value: &mut [f64],
    labels: &mut [usize],
    uneven: &mut [usize],
) -> usize
    ensures { EvenQueryExport axes points.now modes.now knots.now tensor.now
        coordinates.now value.old labels.old uneven.old result value.new
        labels.new uneven.new }
{
    c_query::even_query(
        axes,
        points,
        modes,
        knots,
        tensor,
        coordinates,
        value,
        labels,
        uneven,
    )
}

// Whether the knots are such that the query of even axes refuses neither them nor an axis, looked at once: where 0 is returned, the direct
// query gives that query's answers for every tensor, modes and coordinates. After 7, 8 and 21 the lowest axis that is refused and its first
// knot or interval that is go to a slot of two. Refuses 1 2 3 4 7 8 21, in this order, and both are 0 after 1 to 4; and 4 of its own.
#[unsafe(no_mangle)]
pub extern "C" fn hullashlar_even_profile(
    axes: usize,
    points: &[usize],
    knots: &[f64],
    told: &mut [usize],
) -> usize
    ensures { EvenProfileExport axes points.now knots.now told.old result told.new }
{
    c_profile::even_profile(axes, points, knots, told)
}

// The surface's value at the coordinates and the labels, as of the quick query, in the cell that one division finds on each axis, on any
// knots: the answer of the query of even axes, axis and interval aside, where that accepts knots and axes. Of the knots of an axis it reads
// the first two, the last where the mode is hold or refuse, and the two of the cell. Refuses 1 2 3 4, 7 for a coordinate, 8 for the found
// cell's knots, 18 10, in this order, and then value and labels are 0; and 4 and 22 of its own.
#[unsafe(no_mangle)]
pub extern "C" fn hullashlar_direct_query(
    axes: usize,
    points: &[usize],
    modes: &[u8],
    knots: &[f64],
    tensor: &[f64],
    coordinates: &[f64],
    value: &mut [f64],
    labels: &mut [usize],
) -> usize
    ensures { DirectQueryExport axes points.now modes.now knots.now tensor.now
        coordinates.now value.old labels.old result value.new labels.new }
{
    c_direct::direct_query(
        axes,
        points,
        modes,
        knots,
        tensor,
        coordinates,
        value,
        labels,
    )
}

// The quick query at as many points as refusals are lent: a coordinate on each axis, a value, four labels and a refusal for each, one point
// after the other. At each they are what the quick query gives for that point alone, and a point that is refused stops nothing. Refuses 1,
// 4 for the points of the axes, 2, 3, 4 for every other slice, and 22, in this order, and then nothing is written.
#[unsafe(no_mangle)]
pub extern "C" fn hullashlar_quick_queries(
    axes: usize,
    points: &[usize],
    modes: &[u8],
    knots: &[f64],
    tensor: &[f64],
    coordinates: &[f64],
    values: &mut [f64],
    labels: &mut [usize],
    refusals: &mut [usize],
) -> usize
    ensures { QuickQueriesExport axes points.now modes.now knots.now tensor.now
        coordinates.now values.old labels.old refusals.old result values.new
        labels.new refusals.new }
{
    c_many::quick_queries(
        axes,
        points,
        modes,
        knots,
        tensor,
        coordinates,
        values,
        labels,
        refusals,
    )
}

// The direct query at as many points, in the same way. Refuses as the quick query of many points.
#[unsafe(no_mangle)]
pub extern "C" fn hullashlar_direct_queries(
    axes: usize,
    points: &[usize],
    modes: &[u8],
    knots: &[f64],
    tensor: &[f64],
    coordinates: &[f64],
    values: &mut [f64],
    labels: &mut [usize],
    refusals: &mut [usize],
) -> usize
    ensures { DirectQueriesExport axes points.now modes.now knots.now tensor.now
        coordinates.now values.old labels.old refusals.old result values.new
        labels.new refusals.new }
{
    c_many::direct_queries(
        axes,
        points,
        modes,
        knots,
        tensor,
        coordinates,
        values,
        labels,
        refusals,
    )
}

// The parts of a packed sheet of either edition: knots and samples go to the first places of two buffers of 1,024 each, how many axes there
// are to a slot of one, their points, the kinds of their ends, the values of these and their modes to their slices, 0 past the axes in use,
// and the edition to a slot of one. Refuses 4, then 11 12 1 2 13 22 3 14 in reading order, and then all that is not a buffer is 0; and 4 of
// its own.
#[unsafe(no_mangle)]
pub extern "C" fn hullashlar_read(
    bytes: &[u8],
    knots: &mut [f64],
    samples: &mut [f64],
    axes: &mut [usize],
    points: &mut [usize],
    kinds: &mut [u8],
    values: &mut [f64],
    modes: &mut [u8],
    edition: &mut [usize],
) -> usize
    ensures { ReadExport bytes.now knots.old samples.old axes.old points.old
        kinds.old values.old modes.old edition.old result knots.new samples.new
        axes.new points.new kinds.new values.new modes.new edition.new }
{
    c_sheet::read(
        bytes, knots, samples, axes, points, kinds, values, modes, edition,
    )
}

// The parts of a packed sheet of edition 1, as the reader gave them before there was another: any other edition is 12, and nothing of it
// shows. Refuses 4, then 11 12 1 2 13 3 14 in reading order, and then all that is not a buffer is 0; and 4 of its own.
#[unsafe(no_mangle)]
pub extern "C" fn hullashlar_read_edition_1(
    bytes: &[u8],
    knots: &mut [f64],
    samples: &mut [f64],
    axes: &mut [usize],
    points: &mut [usize],
    kinds: &mut [u8],
    values: &mut [f64],
) -> usize
    ensures { ReadEdition1Export bytes.now knots.old samples.old axes.old points.old
        kinds.old values.old result knots.new samples.new axes.new points.new
        kinds.new values.new }
{
    c_sheet::read_edition_1(bytes, knots, samples, axes, points, kinds, values)
}

// The tensor of a packed sheet of either edition, read and built in one call: what a read gives goes where a read puts it, the tensor to
// the first places of a buffer of 4,096, and how many numbers it has to a slot of one. Refuses 4, then what the reader refuses, then what
// the build refuses, and then the length is 0; where the build refuses, the parts of the sheet stand as after a read. And 4 of its own.
#[unsafe(no_mangle)]
pub extern "C" fn hullashlar_sheet_tensor(
    bytes: &[u8],
    knots: &mut [f64],
    samples: &mut [f64],
    axes: &mut [usize],
    points: &mut [usize],
    kinds: &mut [u8],
    values: &mut [f64],
    modes: &mut [u8],
    edition: &mut [usize],
    tensor: &mut [f64],
    scratch: &mut [f64],
    length: &mut [usize],
) -> usize
    ensures { SheetTensorExport bytes.now knots.old samples.old axes.old points.old
        kinds.old values.old modes.old edition.old tensor.old scratch.old
        length.old result knots.new samples.new axes.new points.new kinds.new
        values.new modes.new edition.new tensor.new scratch.new length.new }
{
    c_sheet::sheet_tensor(
        bytes, knots, samples, axes, points, kinds, values, modes, edition, tensor, scratch, length,
    )
}

// The packed sheet of axes, knots and samples in an edition, in the first bytes of a buffer whose other bytes stay; how many bytes it has
// goes to a slot of one. Refuses 1 2 3 4 7 8 9, then 12 for an edition that is neither 1 nor 2, 23 for edition 1 with a mode that is not
// extend, and 15 for a buffer that is shorter than the sheet, and the length is then 0; and 4, 13 and 22 of its own.
#[unsafe(no_mangle)]
pub extern "C" fn hullashlar_write(
    axes: usize,
    points: &[usize],
    kinds: &[u8],
    values: &[f64],
    modes: &[u8],
    knots: &[f64],
    samples: &[f64],
    edition: usize,
    bytes: &mut [u8],
    length: &mut [usize],
) -> usize
    ensures { WriteExport axes points.now kinds.now values.now modes.now knots.now
        samples.now edition bytes.old length.old result bytes.new length.new }
{
    c_sheet::write(
        axes, points, kinds, values, modes, knots, samples, edition, bytes, length,
    )
}

// Which of the knots at a lower index and after it equals the point: 1 and its index, or 0 and 0, in a slot of two. Refuses 2 4 6 7 8, and
// then both are 0; and 4 of its own.
#[unsafe(no_mangle)]
pub extern "C" fn hullashlar_exact_index(
    points: usize,
    knots: &[f64],
    lower: usize,
    point: f64,
    found: &mut [usize],
) -> usize
    ensures { ExactExport points knots.now lower point found.old result found.new }
{
    c_step::exact_index(points, knots, lower, point, found)
}

// Where a point lies among the knots: 0 and the index of the knot that it equals, or 1 and the lower index of its cell, in a slot of two,
// and the fraction of the cell's width, +0.0 on a knot, in a slot of one. Refuses 2 4 7 8 10, and then all three are 0; and 4 of its own.
#[unsafe(no_mangle)]
pub extern "C" fn hullashlar_locate_axis(
    points: usize,
    knots: &[f64],
    point: f64,
    location: &mut [usize],
    fraction: &mut [f64],
) -> usize
    ensures { AxisExport points knots.now point location.old fraction.old result location.new
        fraction.new }
{
    c_step::locate_axis(points, knots, point, location, fraction)
}

// The index of the knot that a point steps to, downward for direction 0 and upward for 1, in a slot of one. Refuses 2 4 7 8, and then the
// index is 0; and 4 and 22 of its own.
#[unsafe(no_mangle)]
pub extern "C" fn hullashlar_locate_step_index(
    points: usize,
    knots: &[f64],
    direction: u8,
    point: f64,
    index: &mut [usize],
) -> usize
    ensures { StepExport points knots.now direction point index.old result index.new }
{
    c_step::locate_step_index(points, knots, direction, point, index)
}

// The sample at the place that the coordinates step to, each axis in its direction, in a slot of one, and the four indices of that place, 0
// past the axes in use. Refuses 1 2 3 4 7 8, and then value and indices are 0; and 4 and 22 of its own.
#[unsafe(no_mangle)]
pub extern "C" fn hullashlar_stepped(
    axes: usize,
    points: &[usize],
    directions: &[u8],
    knots: &[f64],
    samples: &[f64],
    coordinates: &[f64],
    value: &mut [f64],
    indices: &mut [usize],
) -> usize
    ensures { SteppedExport axes points.now directions.now knots.now samples.now
        coordinates.now value.old indices.old result value.new indices.new }
{
    c_step::stepped(
        axes,
        points,
        directions,
        knots,
        samples,
        coordinates,
        value,
        indices,
    )
}

// The stepped surface at as many points as refusals are lent, a coordinate on each axis and four indices for each, one point after the
// other: at each what the stepped surface gives for it. Refuses 1, 4 for the points of the axes, 2, 3, 4 for every other slice, and 22, and
// then nothing is written.
#[unsafe(no_mangle)]
pub extern "C" fn hullashlar_stepped_many(
    axes: usize,
    points: &[usize],
    directions: &[u8],
    knots: &[f64],
    samples: &[f64],
    coordinates: &[f64],
    values: &mut [f64],
    indices: &mut [usize],
    refusals: &mut [usize],
) -> usize
    ensures { SteppedManyExport axes points.now directions.now knots.now samples.now
        coordinates.now values.old indices.old refusals.old result values.new
        indices.new refusals.new }
{
    c_step_many::stepped_many(
        axes,
        points,
        directions,
        knots,
        samples,
        coordinates,
        values,
        indices,
        refusals,
    )
}

// The value of a cell in whole numbers at position k of 256, rounded to the nearest, a half away from zero, in a slot of one. Refuses 19
// 20, and then the value is 0; and before them 4 for its slot, which is left as it was.
#[unsafe(no_mangle)]
pub extern "C" fn hullashlar_cell_value(
    p0: i32,
    p1: i32,
    d0: i32,
    d1: i32,
    k: i32,
    value: &mut [i32],
) -> usize
    ensures { CellExport p0 p1 d0 d1 k value.old result value.new }
{
    c_device::cell_value(p0, p1, d0, d1, k, value)
}

// The value at the cursor in its slot of one, in a slot of one, and the cursor moved on; a walk starts at 0. Refuses 20 19 20, and then the
// value is 0 and the cursor as it was; and before them 4 for a slot, with which nothing is written.
#[unsafe(no_mangle)]
pub extern "C" fn hullashlar_cursor_next(
    curve: &[u8],
    cursor: &mut [u32],
    value: &mut [i32],
) -> usize
    ensures { NextExport curve.now cursor.old value.old result cursor.new value.new }
{
    c_device::cursor_next(curve, cursor, value)
}

// The pattern of a sheet's surface at the coordinates of four patterns, those past its axes 0: read, built and asked in one call. A refusal
// is the pattern 7FF8000000000000 plus its number: the reader's, then 16 17, then the build's 7 8 9 10, then the query's 7 18 10.
#[unsafe(no_mangle)]
pub extern "C" fn hullashlar_surface(bytes: &[u8], c0: u64, c1: u64, c2: u64, c3: u64) -> u64
    ensures { SurfacePromise bytes.now (c0 ∷ c1 ∷ c2 ∷ c3 ∷ []) result }
{
    sheet_surface::surface(bytes, c0, c1, c2, c3)
}
