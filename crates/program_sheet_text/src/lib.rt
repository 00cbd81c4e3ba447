// All that the sheet program prints of a sheet, written to a text that the caller lends.

#![tactic(auto)]

ghost use Rattle.std.specs.Prelude.{◌≡◌, ◌≤◌, length};
ghost use Rattle.rules.specs.Answers.{refusal_of};
ghost use Rattle.base_text.specs.PutBytes.{Put};
ghost use Rattle.program_sheet_text.specs.SheetText.{text_length, text_of, lent_refusal, text_told, TextPromise};

use base_text::put_refused_line;
use grid_codes::classes::is_built;
use program_tensor_text::put_tensor;
use rules::Refusal;

// The text of the number of a refusal, 0 for none, and of the numbers of a tensor. Not a public call: at most 4,096 numbers are required,
// and room for the longest text.
fn put_text(refusal: usize, numbers: &[f64], text: &mut [u8]) -> usize
    requires { (length numbers.now ≤ 4096) × (text_length ≤ length text.old) }
    ensures { Put (text_of refusal numbers.now) text.old 0 text.new result }
{
    if is_built(refusal) {
        return put_tensor(numbers, text, 0);
    }
    put_refused_line(refusal as u64, text, 0)
}

// What is refused of all that is lent, by the lengths: 4, 5 or 15.
fn check_lent(
    knots: usize,
    samples: usize,
    tensor: usize,
    scratch: usize,
    text: usize,
) -> Result<(), Refusal>
    ensures { refusal_of result ≡ lent_refusal knots samples tensor scratch text }
{
    if knots != 1024 || samples != 1024 || tensor != 4096 {
        return Err(Refusal::Length);
    }
    if scratch < 6144 {
        return Err(Refusal::Scratch);
    }
    if text < 69644 {
        return Err(Refusal::Buffer);
    }
    Ok(())
}

// PUBLIC. Writes all that the sheet program prints of a sheet to the front of the text, and gives how many bytes that is: the line
// `tensor N` and a line for each number of the sheet's tensor, or the one line `refused K`. So a refused sheet is no refusal of this
// call. It refuses what it is lent: knots or samples of another length than 1,024 or a tensor of another than 4,096 by 4, a scratch
// shorter than 6,144 by 5, and a text shorter than 69,644 bytes by 15. Then nothing is written. Else knots, samples, tensor and scratch
// are left as by `tensor_of_sheet`.
pub fn sheet_text(
    bytes: &[u8],
    knots: &mut [f64],
    samples: &mut [f64],
    tensor: &mut [f64],
    scratch: &mut [f64],
    text: &mut [u8],
) -> Result<usize, Refusal>
    ensures { TextPromise bytes.now knots.old samples.old tensor.old scratch.old
        text.old (text_told result) knots.new samples.new tensor.new scratch.new text.new }
{
    check_lent(
        knots.len(),
        samples.len(),
        tensor.len(),
        scratch.len(),
        text.len(),
    )?;
    match sheet_build::tensor_of_sheet(bytes, knots, samples, tensor, scratch) {
        Ok(built) => Ok(put_text(0, &tensor[0..built.length], text)),
        Err(refused) => Ok(put_text(refused.refusal().number(), &tensor[0..0], text)),
    }
}
