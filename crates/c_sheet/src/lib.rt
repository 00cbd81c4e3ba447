// The calls of sheets as `hullashlar` exports them, over numbers and plain slices. Each returns its refusal's number, 0 for none, in the
// order that c_refusals::own says.

#![tactic(auto)]

ghost use Rattle.std.specs.Prelude.{◌≡◌, [], ◌∷◌, length};
ghost use Rattle.c_axes.specs.Axes.{modes_found};
ghost use Rattle.sheet_read.specs.Read.{refused_answer};
ghost use Rattle.c_sheet.specs.SheetExports.{ReadExport, ReadEdition1Export, SheetTensorExport, WriteExport};

use c_refusals::{own, slots};
use rules::Axis;
use sheet_build::SheetRefusal;
use sheet_read::{Edition1Sheet, Sheet};

// What is told of a sheet that was not read: no edition, no axes, none of the four in use.
fn no_sheet() -> Sheet
    ensures { result ≡ record { edition = 0; axes = 0; all = (refused_answer 0).all } }
{
    Sheet {
        edition: 0,
        axes: 0,
        all: [Axis::unused(); 4],
    }
}

// The same of edition 1.
fn no_sheet_of_edition_1() -> Edition1Sheet
    ensures { result ≡ record { axes = 0; all = (refused_answer 0).all } }
{
    Edition1Sheet {
        axes: 0,
        all: [Axis::unused(); 4],
    }
}

// The modes of axes that were found, and the edition in its slot. Not a public call: that they have their lengths is required.
fn store_told(said: usize, found: [Axis; 4], modes: &mut [u8], edition: &mut [usize])
    requires { (length modes.old ≡ 4) × (length edition.old ≡ 1) }
    ensures { (modes.new ≡ modes_found found) × (edition.new ≡ said ∷ []) }
{
    edition[0] = said;
    c_axes::store_modes(found, modes);
}

// The parts of a packed sheet of either edition: knots and samples in their buffers, the axes as numbers in their slices, the edition in a
// slot. Refuses 4, then 11 12 1 2 13 22 3 14 in reading order, and then all that is not a buffer is 0; and 4 of its own.
pub fn read(
    bytes: &[u8],
    knots: &mut [f64],
    samples: &mut [f64],
    axes: &mut [usize],
    points: &mut [usize],
    kinds: &mut [u8],
    values: &mut [f64],
    modes: &mut [u8],
    edition: &mut [usize],
) -> usize
    ensures { ReadExport bytes.now knots.old samples.old axes.old points.old
        kinds.old values.old modes.old edition.old result knots.new samples.new
        axes.new points.new kinds.new values.new modes.new edition.new }
{
    if let Err(refusal) = own::check_read(axes, points, kinds, values, modes, edition) {
        return refusal.number();
    }
    let (number, sheet) = match sheet_read::read(bytes, knots, samples) {
        Ok(sheet) => (0, sheet),
        Err(refusal) => (refusal.number(), no_sheet()),
    };
    axes[0] = sheet.axes;
    c_axes::store_axes(sheet.all, points, kinds, values);
    store_told(sheet.edition, sheet.all, modes, edition);
    number
}

// The parts of a packed sheet of edition 1, and of no other: the same without modes and edition. Refuses 4, then 11 12 1 2 13 3 14 in
// reading order, and then all that is not a buffer is 0; and 4 of its own.
pub fn read_edition_1(
    bytes: &[u8],
    knots: &mut [f64],
    samples: &mut [f64],
    axes: &mut [usize],
    points: &mut [usize],
    kinds: &mut [u8],
    values: &mut [f64],
) -> usize
    ensures { ReadEdition1Export bytes.now knots.old samples.old axes.old points.old
        kinds.old values.old result knots.new samples.new axes.new points.new
        kinds.new values.new }
{
    if let Err(refusal) = own::check_read_edition_1(axes, points, kinds, values) {
        return refusal.number();
    }
    let (number, sheet) = match sheet_read::read_edition_1(bytes, knots, samples) {
        Ok(sheet) => (0, sheet),
        Err(refusal) => (refusal.number(), no_sheet_of_edition_1()),
    };
    axes[0] = sheet.axes;
    c_axes::store_axes(sheet.all, points, kinds, values);
    number
}

// The tensor of a packed sheet of either edition in its buffer, its length in a slot of one, and the parts of the sheet as after a read.
// Refuses 4, then what the reader refuses, then what the build refuses, and then the length is 0; and 4 of its own.
pub fn sheet_tensor(
    bytes: &[u8],
    knots: &mut [f64],
    samples: &mut [f64],
    axes: &mut [usize],
    points: &mut [usize],
    kinds: &mut [u8],
    values: &mut [f64],
    modes: &mut [u8],
    edition: &mut [usize],
    tensor: &mut [f64],
    scratch: &mut [f64],
    length: &mut [usize],
) -> usize
    ensures { SheetTensorExport bytes.now knots.old samples.old axes.old points.old
        kinds.old values.old modes.old edition.old tensor.old scratch.old
        length.old result knots.new samples.new axes.new points.new kinds.new
        values.new modes.new edition.new tensor.new scratch.new length.new }
{
    let own = own::check_sheet_tensor(axes, points, kinds, values, modes, edition, length);
    if let Err(refusal) = own {
        return refusal.number();
    }
    let (number, sheet, numbers) = match sheet_build::tensor_of_sheet(
        bytes, knots, samples, tensor, scratch,
    ) {
        Ok(built) => (0, built.sheet, built.length),
        Err(SheetRefusal::Unread(refusal)) => (refusal.number(), no_sheet(), 0),
        Err(SheetRefusal::Unbuilt { refusal, sheet }) => (refusal.number(), sheet, 0),
    };
    length[0] = numbers;
    axes[0] = sheet.axes;
    c_axes::store_axes(sheet.all, points, kinds, values);
    store_told(sheet.edition, sheet.all, modes, edition);
    number
}

// The packed sheet of axes, knots and samples in an edition, in a buffer, and its length in a slot of one. Refuses 1 2 3 4 7 8 9, then 12,
// 23 and 15, and then the length is 0; and 4, 13 and 22 of its own.
pub fn write(
    axes: usize,
    points: &[usize],
    kinds: &[u8],
    values: &[f64],
    modes: &[u8],
    knots: &[f64],
    samples: &[f64],
    edition: usize,
    bytes: &mut [u8],
    length: &mut [usize],
) -> usize
    ensures { WriteExport axes points.now kinds.now values.now modes.now knots.now
        samples.now edition bytes.old length.old result bytes.new length.new }
{
    let own = own::check_write(axes, points, kinds, values, modes, knots, samples, length);
    if let Err(refusal) = own {
        slots::store_one(length, 0);
        return refusal.number();
    }
    let given = c_axes::axes_given(axes, points, kinds, values);
    let all = c_axes::axes_in_modes(axes, given, modes);
    let (number, written) = match sheet_write::write(axes, all, knots, samples, edition, bytes) {
        Ok(written) => (0, written),
        Err(refusal) => (refusal.number(), 0),
    };
    slots::store_one(length, written);
    number
}
