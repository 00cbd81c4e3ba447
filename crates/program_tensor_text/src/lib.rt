// The text of a tensor: how many numbers it has, and a line for each. None of these is a public call: each requires that there is room.

#![tactic(auto)]

ghost use Rattle.std.specs.Prelude.{◌+◌, ◌*◌, ◌≤◌, length};
ghost use Rattle.base_text.specs.PutBytes.{Put};
ghost use Rattle.program_tensor_text.specs.TensorText.{number_line, number_lines, tensor_text};

// The line of a number.
fn put_number_line(number: f64, text: &mut [u8], at: usize) -> usize
    requires { at + 17 ≤ length text.old }
    ensures { Put (number_line number) text.old at text.new result }
{
    let pattern = base_text::pattern(number);
    let end = base_text::put_hex_digits(16, pattern, text, at);
    base_text::put_byte(10, text, end)
}

// A line for each number.
fn put_numbers(numbers: &[f64], text: &mut [u8], at: usize) -> usize
    requires { at + 17 * length numbers.now ≤ length text.old }
    ensures { Put (number_lines numbers.now) text.old at text.new result }
{
    let mut end = at;
    for number in numbers {
        end = put_number_line(*number, text, end);
    }
    end
}

// The text of a tensor, from a place on.
pub fn put_tensor(numbers: &[f64], text: &mut [u8], at: usize) -> usize
    requires { at + length (tensor_text numbers.now) ≤ length text.old }
    ensures { Put (tensor_text numbers.now) text.old at text.new result }
{
    let count = numbers.len() as u64;
    let end = base_text::put_word_line(b"tensor ", count, text, at);
    put_numbers(numbers, text, end)
}
