// The calls of `hullashlar` as an archive for C has them, under the same names and with the same clauses: each calls the one of its name,
// where the words for it stand.

#![tactic(auto)]

ghost use Rattle.std.specs.Prelude.{[], ◌∷◌};
ghost use Rattle.rules.specs.Calls.{SlopesPromise};
ghost use Rattle.sheet_surface.specs.SheetSurface.{SurfacePromise};
ghost use Rattle.c_step.specs.StepExports.{ExactExport, AxisExport, StepExport, SteppedExport};
ghost use Rattle.c_step_many.specs.ManyStepExports.{SteppedManyExport};
ghost use Rattle.c_curve.specs.CurveExports.{MomentsExport, CurveExport};
ghost use Rattle.c_tensor.specs.TensorExports.{BuildExport, ChangeExport};
ghost use Rattle.c_verify.specs.VerifyExports.{VerifyExport};
ghost use Rattle.c_query.specs.QueryExports.{QueryExport, QuickQueryExport, EvenQueryExport};
ghost use Rattle.c_direct.specs.DirectExports.{DirectQueryExport};
ghost use Rattle.c_profile.specs.ProfileExports.{EvenProfileExport};
ghost use Rattle.c_many.specs.ManyExports.{QuickQueriesExport, DirectQueriesExport};
ghost use Rattle.c_sheet.specs.SheetExports.{ReadExport, ReadEdition1Export, SheetTensorExport, WriteExport};
ghost use Rattle.c_device.specs.DeviceExports.{CellExport, NextExport};

#[unsafe(no_mangle)]
pub extern "C" fn hullashlar_moments(
    points: usize,
    knots: &[f64],
    samples: &[f64],
    kinds: &[u8],
    values: &[f64],
    moments: &mut [f64],
    scratch: &mut [f64],
) -> usize
    ensures { MomentsExport points knots.now samples.now kinds.now values.now moments.old
        scratch.old result moments.new scratch.new }
{
    hullashlar::hullashlar_moments(points, knots, samples, kinds, values, moments, scratch)
}

#[unsafe(no_mangle)]
pub extern "C" fn hullashlar_curve(
    points: usize,
    knots: &[f64],
    samples: &[f64],
    moments: &[f64],
    point: f64,
    value: &mut [f64],
) -> usize
    ensures { CurveExport points knots.now samples.now moments.now point value.old result
        value.new }
{
    hullashlar::hullashlar_curve(points, knots, samples, moments, point, value)
}

#[unsafe(no_mangle)]
pub extern "C" fn hullashlar_slopes(
    points: usize,
    knots: &[f64],
    samples: &[f64],
    moments: &[f64],
    slopes: &mut [f64],
) -> usize
    ensures { SlopesPromise points knots.now samples.now moments.now slopes.old result
        slopes.new }
{
    hullashlar::hullashlar_slopes(points, knots, samples, moments, slopes)
}

#[unsafe(no_mangle)]
pub extern "C" fn hullashlar_build(
    axes: usize,
    points: &[usize],
    kinds: &[u8],
    values: &[f64],
    knots: &[f64],
    samples: &[f64],
    tensor: &mut [f64],
    scratch: &mut [f64],
) -> usize
    ensures { BuildExport axes points.now kinds.now values.now knots.now samples.now
        tensor.old scratch.old result tensor.new scratch.new }
{
    hullashlar::hullashlar_build(axes, points, kinds, values, knots, samples, tensor, scratch)
}

#[unsafe(no_mangle)]
pub extern "C" fn hullashlar_change(
    axes: usize,
    points: &[usize],
    kinds: &[u8],
    values: &[f64],
    knots: &[f64],
    tensor: &mut [f64],
    scratch: &mut [f64],
    place: &[usize],
    sample: f64,
    lanes: &mut [usize],
) -> usize
    ensures { ChangeExport axes points.now kinds.now values.now knots.now tensor.old
        scratch.old place.now sample lanes.old result tensor.new scratch.new
        lanes.new }
{
    hullashlar::hullashlar_change(
        axes, points, kinds, values, knots, tensor, scratch, place, sample, lanes,
    )
}

#[unsafe(no_mangle)]
pub extern "C" fn hullashlar_verify(
    axes: usize,
    points: &[usize],
    kinds: &[u8],
    values: &[f64],
    knots: &[f64],
    tensor: &[f64],
    scratch: &mut [f64],
    place: &mut [usize],
    found: &mut [usize],
) -> usize
    ensures { VerifyExport axes points.now kinds.now values.now knots.now tensor.now
        scratch.old place.old found.old result scratch.new place.new found.new }
{
    hullashlar::hullashlar_verify(
        axes, points, kinds, values, knots, tensor, scratch, place, found,
    )
}

#[unsafe(no_mangle)]
pub extern "C" fn hullashlar_query(
    axes: usize,
    points: &[usize],
    modes: &[u8],
    knots: &[f64],
    tensor: &[f64],
    coordinates: &[f64],
    value: &mut [f64],
    labels: &mut [usize],
) -> usize
    ensures { QueryExport axes points.now modes.now knots.now tensor.now coordinates.now
        value.old labels.old result value.new labels.new }
{
    hullashlar::hullashlar_query(
        axes,
        points,
        modes,
        knots,
        tensor,
        coordinates,
        value,
        labels,
    )
}

#[unsafe(no_mangle)]
pub extern "C" fn hullashlar_quick_query(
    axes: usize,
    points: &[usize],
    modes: &[u8],
    knots: &[f64],
    tensor: &[f64],
    coordinates: &[f64],
    value: &mut [f64],
    labels: &mut [usize],
) -> usize
    ensures { QuickQueryExport axes points.now modes.now knots.now tensor.now
        coordinates.now value.old labels.old result value.new labels.new }
{
    hullashlar::hullashlar_quick_query(
        axes,
        points,
        modes,
        knots,
        tensor,
        coordinates,
        value,
        labels,
    )
}

#[unsafe(no_mangle)]
pub extern "C" fn hullashlar_even_query(
    axes: usize,
    points: &[usize],
    modes: &[u8],
    knots: &[f64],
    tensor: &[f64],
    coordinates: &[f64],
    value: &mut [f64],
    labels: &mut [usize],
    uneven: &mut [usize],
) -> usize
    ensures { EvenQueryExport axes points.now modes.now knots.now tensor.now
        coordinates.now value.old labels.old uneven.old result value.new
        labels.new uneven.new }
{
    hullashlar::hullashlar_even_query(
        axes,
        points,
        modes,
        knots,
        tensor,
        coordinates,
        value,
        labels,
        uneven,
    )
}

#[unsafe(no_mangle)]
pub extern "C" fn hullashlar_even_profile(
    axes: usize,
    points: &[usize],
    knots: &[f64],
    told: &mut [usize],
) -> usize
    ensures { EvenProfileExport axes points.now knots.now told.old result told.new }
{
    hullashlar::hullashlar_even_profile(axes, points, knots, told)
}

#[unsafe(no_mangle)]
pub extern "C" fn hullashlar_direct_query(
    axes: usize,
    points: &[usize],
    modes: &[u8],
    knots: &[f64],
    tensor: &[f64],
    coordinates: &[f64],
    value: &mut [f64],
    labels: &mut [usize],
) -> usize
    ensures { DirectQueryExport axes points.now modes.now knots.now tensor.now
        coordinates.now value.old labels.old result value.new labels.new }
{
    hullashlar::hullashlar_direct_query(
        axes,
        points,
        modes,
        knots,
        tensor,
        coordinates,
        value,
        labels,
    )
}

#[unsafe(no_mangle)]
pub extern "C" fn hullashlar_quick_queries(
    axes: usize,
    points: &[usize],
    modes: &[u8],
    knots: &[f64],
    tensor: &[f64],
    coordinates: &[f64],
    values: &mut [f64],
    labels: &mut [usize],
    refusals: &mut [usize],
) -> usize
    ensures { QuickQueriesExport axes points.now modes.now knots.now tensor.now
        coordinates.now values.old labels.old refusals.old result values.new
        labels.new refusals.new }
{
    hullashlar::hullashlar_quick_queries(
        axes,
        points,
        modes,
        knots,
        tensor,
        coordinates,
        values,
        labels,
        refusals,
    )
}

#[unsafe(no_mangle)]
pub extern "C" fn hullashlar_direct_queries(
    axes: usize,
    points: &[usize],
    modes: &[u8],
    knots: &[f64],
    tensor: &[f64],
    coordinates: &[f64],
    values: &mut [f64],
    labels: &mut [usize],
    refusals: &mut [usize],
) -> usize
    ensures { DirectQueriesExport axes points.now modes.now knots.now tensor.now
        coordinates.now values.old labels.old refusals.old result values.new
        labels.new refusals.new }
{
    hullashlar::hullashlar_direct_queries(
        axes,
        points,
        modes,
        knots,
        tensor,
        coordinates,
        values,
        labels,
        refusals,
    )
}

#[unsafe(no_mangle)]
pub extern "C" fn hullashlar_read(
    bytes: &[u8],
    knots: &mut [f64],
    samples: &mut [f64],
    axes: &mut [usize],
    points: &mut [usize],
    kinds: &mut [u8],
    values: &mut [f64],
    modes: &mut [u8],
    edition: &mut [usize],
) -> usize
    ensures { ReadExport bytes.now knots.old samples.old axes.old points.old
        kinds.old values.old modes.old edition.old result knots.new samples.new
        axes.new points.new kinds.new values.new modes.new edition.new }
{
    hullashlar::hullashlar_read(
        bytes, knots, samples, axes, points, kinds, values, modes, edition,
    )
}

#[unsafe(no_mangle)]
pub extern "C" fn hullashlar_read_edition_1(
    bytes: &[u8],
    knots: &mut [f64],
    samples: &mut [f64],
    axes: &mut [usize],
    points: &mut [usize],
    kinds: &mut [u8],
    values: &mut [f64],
) -> usize
    ensures { ReadEdition1Export bytes.now knots.old samples.old axes.old points.old
        kinds.old values.old result knots.new samples.new axes.new points.new
        kinds.new values.new }
{
    hullashlar::hullashlar_read_edition_1(bytes, knots, samples, axes, points, kinds, values)
}

#[unsafe(no_mangle)]
pub extern "C" fn hullashlar_sheet_tensor(
    bytes: &[u8],
    knots: &mut [f64],
    samples: &mut [f64],
    axes: &mut [usize],
    points: &mut [usize],
    kinds: &mut [u8],
    values: &mut [f64],
    modes: &mut [u8],
    edition: &mut [usize],
    tensor: &mut [f64],
    scratch: &mut [f64],
    length: &mut [usize],
) -> usize
    ensures { SheetTensorExport bytes.now knots.old samples.old axes.old points.old
        kinds.old values.old modes.old edition.old tensor.old scratch.old
        length.old result knots.new samples.new axes.new points.new kinds.new
        values.new modes.new edition.new tensor.new scratch.new length.new }
{
    hullashlar::hullashlar_sheet_tensor(
        bytes, knots, samples, axes, points, kinds, values, modes, edition, tensor, scratch, length,
    )
}

#[unsafe(no_mangle)]
pub extern "C" fn hullashlar_write(
    axes: usize,
    points: &[usize],
    kinds: &[u8],
    values: &[f64],
    modes: &[u8],
    knots: &[f64],
    samples: &[f64],
    edition: usize,
    bytes: &mut [u8],
    length: &mut [usize],
) -> usize
    ensures { WriteExport axes points.now kinds.now values.now modes.now knots.now
        samples.now edition bytes.old length.old result bytes.new length.new }
{
    hullashlar::hullashlar_write(
        axes, points, kinds, values, modes, knots, samples, edition, bytes, length,
    )
}

#[unsafe(no_mangle)]
pub extern "C" fn hullashlar_exact_index(
    points: usize,
    knots: &[f64],
    lower: usize,
    point: f64,
    found: &mut [usize],
) -> usize
    ensures { ExactExport points knots.now lower point found.old result found.new }
{
    hullashlar::hullashlar_exact_index(points, knots, lower, point, found)
}

#[unsafe(no_mangle)]
pub extern "C" fn hullashlar_locate_axis(
    points: usize,
    knots: &[f64],
    point: f64,
    location: &mut [usize],
    fraction: &mut [f64],
) -> usize
    ensures { AxisExport points knots.now point location.old fraction.old result location.new
        fraction.new }
{
    hullashlar::hullashlar_locate_axis(points, knots, point, location, fraction)
}

#[unsafe(no_mangle)]
pub extern "C" fn hullashlar_locate_step_index(
    points: usize,
    knots: &[f64],
    direction: u8,
    point: f64,
    index: &mut [usize],
) -> usize
    ensures { StepExport points knots.now direction point index.old result index.new }
{
    hullashlar::hullashlar_locate_step_index(points, knots, direction, point, index)
}

#[unsafe(no_mangle)]
pub extern "C" fn hullashlar_stepped(
    axes: usize,
    points: &[usize],
    directions: &[u8],
    knots: &[f64],
    samples: &[f64],
    coordinates: &[f64],
    value: &mut [f64],
    indices: &mut [usize],
) -> usize
    ensures { SteppedExport axes points.now directions.now knots.now samples.now
        coordinates.now value.old indices.old result value.new indices.new }
{
    hullashlar::hullashlar_stepped(
        axes,
        points,
        directions,
        knots,
        samples,
        coordinates,
        value,
        indices,
    )
}

#[unsafe(no_mangle)]
pub extern "C" fn hullashlar_stepped_many(
    axes: usize,
    points: &[usize],
    directions: &[u8],
    knots: &[f64],
    samples: &[f64],
    coordinates: &[f64],
    values: &mut [f64],
    indices: &mut [usize],
    refusals: &mut [usize],
) -> usize
    ensures { SteppedManyExport axes points.now directions.now knots.now samples.now
        coordinates.now values.old indices.old refusals.old result values.new
        indices.new refusals.new }
{
    hullashlar::hullashlar_stepped_many(
        axes,
        points,
        directions,
        knots,
        samples,
        coordinates,
        values,
        indices,
        refusals,
    )
}

#[unsafe(no_mangle)]
pub extern "C" fn hullashlar_cell_value(
    p0: i32,
    p1: i32,
    d0: i32,
    d1: i32,
    k: i32,
    value: &mut [i32],
) -> usize
    ensures { CellExport p0 p1 d0 d1 k value.old result value.new }
{
    hullashlar::hullashlar_cell_value(p0, p1, d0, d1, k, value)
}

#[unsafe(no_mangle)]
pub extern "C" fn hullashlar_cursor_next(
    curve: &[u8],
    cursor: &mut [u32],
    value: &mut [i32],
) -> usize
    ensures { NextExport curve.now cursor.old value.old result cursor.new value.new }
{
    hullashlar::hullashlar_cursor_next(curve, cursor, value)
}

#[unsafe(no_mangle)]
pub extern "C" fn hullashlar_surface(bytes: &[u8], c0: u64, c1: u64, c2: u64, c3: u64) -> u64
    ensures { SurfacePromise bytes.now (c0 ∷ c1 ∷ c2 ∷ c3 ∷ []) result }
{
    hullashlar::hullashlar_surface(bytes, c0, c1, c2, c3)
}
