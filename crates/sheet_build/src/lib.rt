// From the bytes of a packed sheet to its tensor: the reader, then the build.

#![tactic(auto)]

ghost use Rattle.std.specs.Prelude.{◌≡◌, true, Err};
ghost use Rattle.rules.specs.Answers.{number_of};
ghost use Rattle.sheet_build.specs.declared.SheetRefusal.TheVariants.{Unread};
ghost use Rattle.sheet_build.specs.SheetTensor.{sheet_told, SheetGiven, of_read, grid_in, samples_in, PartsGiven, PartsPromise, SheetPromise};

use grid_codes::classes::{is_built, is_unread};
use rules::{Refusal, number_told};
use sheet_read::Sheet;

// What a sheet says whose tensor is built, and how many numbers the tensor has.
#[derive(Clone, Copy)]
pub struct BuiltSheet {
    pub sheet: Sheet,
    pub length: usize,
}

// Why there is no tensor: the sheet is not read, or it is read and what it says is not built.
#[derive(Clone, Copy)]
pub enum SheetRefusal {
    Unread(Refusal),
    Unbuilt { refusal: Refusal, sheet: Sheet },
}

impl From<Refusal> for SheetRefusal {
    ghost from_gives = { λ refusal given. given ≡ Unread refusal };

    // A refusal of the reader.
    fn from(refusal: Refusal) -> SheetRefusal {
        SheetRefusal::Unread(refusal)
    }
}

impl SheetRefusal {
    // The refusal itself.
    pub fn refusal(self) -> Refusal
        ensures { number_of result ≡ (sheet_told (Err self)).refusal }
    {
        match self {
            SheetRefusal::Unread(refusal) => refusal,
            SheetRefusal::Unbuilt { refusal, .. } => refusal,
        }
    }
}

// The tensor of the parts that stand in the first places of the buffers. Not a public call: what refusals 1 and 2 leave is required, and
// that the buffers have such places.
fn build_parts(
    sheet: Sheet,
    knots: &[f64],
    samples: &[f64],
    tensor: &mut [f64],
    scratch: &mut [f64],
) -> Result<BuiltSheet, SheetRefusal>
    requires { PartsGiven sheet.axes sheet.all knots.now samples.now tensor.old }
    ensures { PartsPromise (grid_in sheet.axes sheet.all knots.now) (samples_in sheet.axes sheet.all samples.now)
        tensor.old scratch.old sheet.edition (sheet_told result) tensor.new scratch.new × (of_read result ≡ true) }
{
    let axes = sheet.axes;
    let all = sheet.all;
    let knots_end = grid::knots_length(axes, all);
    let samples_end = grid::samples_length(axes, all);
    let length = grid::tensor_length(axes, all);
    let built = tensor::build(
        axes,
        all,
        &knots[0..knots_end],
        &samples[0..samples_end],
        &mut tensor[0..length],
        scratch,
    );
    if is_built(number_told(built)) {
        return Ok(BuiltSheet { sheet, length });
    }
    Err(SheetRefusal::Unbuilt {
        refusal: built.unwrap_err(),
        sheet,
    })
}

// PUBLIC. Reads a sheet of either edition and builds its tensor: edition, axes and the tensor's length are given, the sheet's knots,
// its samples and the tensor's numbers go to the first places of their buffers. Refuses a tensor buffer of another length than 4,096 by 4,
// then what the reader refuses, each by the reader's number, and then what the build refuses: 5 a scratch shorter than the tensor plus
// 2,048, 7, 8, 9 and 10. After a refusal of the build the sheet has been read: its edition and its axes stand beside the refusal, knots
// and samples in their buffers, and the tensor is as it was. After any refusal before the build nothing of the sheet is given, and all
// three are as they were. The scratch is +0.0 after 10 and where nothing is refused, and else as it was.
pub fn tensor_of_sheet(
    bytes: &[u8],
    knots: &mut [f64],
    samples: &mut [f64],
    tensor: &mut [f64],
    scratch: &mut [f64],
) -> Result<BuiltSheet, SheetRefusal>
    ensures { SheetPromise bytes.now knots.old samples.old tensor.old scratch.old (sheet_told result)
        knots.new samples.new tensor.new scratch.new × SheetGiven result }
{
    if tensor.len() != 4096 {
        return Err(SheetRefusal::Unread(Refusal::Length));
    }
    let sheet = match sheet_read::read(bytes, knots, samples) {
        Ok(sheet) => sheet,
        Err(refusal) if is_unread(refusal.number()) => return Err(refusal.into()),
        // Whatever the reader refuses is of the class Reading.
        Err(_) => unreachable!(),
    };
    build_parts(sheet, knots, samples, tensor, scratch)
}
