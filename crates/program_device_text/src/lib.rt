// All that the device's program prints of a curve, written to a text that the caller lends.

#![tactic(auto)]

ghost use Rattle.std.specs.Prelude.{◌≡◌, ◌+◌, ◌≤◌, length};
ghost use Rattle.base_text.specs.PutBytes.{Put};
ghost use Rattle.device_cursor.specs.DeviceCurve.{curve_refusal, curve_numbers};
ghost use Rattle.program_device_text.specs.DeviceText.{
  signed_line,
  signed_lines,
  device_text,
  device_text_length,
  curve_text_told,
  DeviceTextPromise,
};

use rules::Refusal;

// The line of a number. It requires that there is room.
fn put_signed_line(number: i32, text: &mut [u8], at: usize) -> usize
    requires { at + length (signed_line number) ≤ length text.old }
    ensures { Put (signed_line number) text.old at text.new result }
{
    let sign: &[u8] = if number < 0 { b"-" } else { b"" };
    base_text::put_word_line(sign, base_integers::magnitude(number), text, at)
}

// A line for each number of a curve that has been judged. It requires that the curve is not refused, and room for the longest text.
fn put_numbers(curve: &[u8], text: &mut [u8]) -> usize
    requires { (curve_refusal curve.now ≡ 0) × (device_text_length ≤ length text.old) }
    ensures { Put (signed_lines (curve_numbers curve.now)) text.old 0 text.new result }
{
    let count = 256 * (curve.len() / 16) + 1;
    let mut end = 0;
    for n in 0..count {
        let number = device_cursor::cursor_number(curve, n);
        end = put_signed_line(number, text, end);
    }
    end
}

// The text of a curve, which is judged once. It requires room for the longest.
fn put_text(curve: &[u8], text: &mut [u8]) -> usize
    requires { device_text_length ≤ length text.old }
    ensures { Put (device_text curve.now) text.old 0 text.new result }
{
    if let Err(refusal) = device_cursor::check_curve(curve) {
        return base_text::put_refused_line(refusal.number() as u64, text, 0);
    }
    put_numbers(curve, text)
}

// PUBLIC. Writes all that the device's program prints of a curve to the front of the text, and answers how many bytes that is: a line
// for each number, each cell at 0 to 255 and then the last at 256, or the one line `refused K`. So a refused curve is no refusal of
// this call. It refuses a text shorter than 456,967 bytes by 15; then nothing is written.
pub fn device_text(curve: &[u8], text: &mut [u8]) -> Result<usize, Refusal>
    ensures { DeviceTextPromise curve.now text.old (curve_text_told result) text.new }
{
    if text.len() < 456967 {
        return Err(Refusal::Buffer);
    }
    Ok(put_text(curve, text))
}
