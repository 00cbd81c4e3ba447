// What all programs print by: bytes, words and numbers, put into a lent text at a place. What puts them requires that there is room, and
// answers the place behind what it has put. None of these is a public call.

#![tactic(auto)]

ghost use Rattle.std.specs.Prelude.{◌≡◌, [], ◌∷◌, ◌+◌, ◌<◌, ◌≤◌, length};
ghost use Rattle.std.specs.Float.{binary64};
ghost use Rattle.std.specs.Float.Ieee.{to_bits};
ghost use Rattle.base_text.specs.Lines.{hex_digit, hex_digits, decimal, word_line, refused_line};
ghost use Rattle.base_text.specs.PutBytes.{Put};

// One byte.
pub fn put_byte(byte: u8, text: &mut [u8], at: usize) -> usize
    requires { at < length text.old }
    ensures { Put (byte ∷ []) text.old at text.new result }
{
    text[at] = byte;
    at + 1
}

// The bytes of a word.
pub fn put_word(word: &[u8], text: &mut [u8], at: usize) -> usize
    requires { at + length word.now ≤ length text.old }
    ensures { Put word.now text.old at text.new result }
{
    let mut end = at;
    for byte in word {
        end = put_byte(*byte, text, end);
    }
    end
}

// The decimal digits of a number, without leading zeros.
pub fn put_decimal(number: u64, text: &mut [u8], at: usize) -> usize
    requires { at + length (decimal number) ≤ length text.old }
    ensures { Put (decimal number) text.old at text.new result }
{
    if number < 10 {
        return put_byte(48 + number as u8, text, at);
    }
    let end = put_decimal(number / 10, text, at);
    put_byte(48 + (number % 10) as u8, text, end)
}

// The byte of a capital hex digit: it requires a digit below 16.
fn hex_digit(digit: u64) -> u8
    requires { digit < 16 }
    ensures { result ≡ hex_digit digit }
{
    if digit < 10 {
        48 + digit as u8
    } else {
        55 + digit as u8
    }
}

// The last so many hex digits of a number, capitals, the most significant first.
pub fn put_hex_digits(count: usize, number: u64, text: &mut [u8], at: usize) -> usize
    requires { at + count ≤ length text.old }
    ensures { Put (hex_digits count number) text.old at text.new result }
{
    if count == 0 {
        return at;
    }
    let end = put_hex_digits(count - 1, number / 16, text, at);
    put_byte(hex_digit(number % 16), text, end)
}

// The pattern of any number; the one NaN has the pattern that IEEE 754 calls quiet and positive. It refuses nothing.
pub fn pattern(number: f64) -> u64
    ensures { result ≡ to_bits binary64 number }
{
    if number != number {
        0x7FF8000000000000
    } else {
        f64::to_bits(number)
    }
}

// The line of a word, which brings its space, and a number.
pub fn put_word_line(word: &[u8], number: u64, text: &mut [u8], at: usize) -> usize
    requires { at + length (word_line word.now number) ≤ length text.old }
    ensures { Put (word_line word.now number) text.old at text.new result }
{
    let word_end = put_word(word, text, at);
    let number_end = put_decimal(number, text, word_end);
    put_byte(10, text, number_end)
}

// The line `refused K`.
pub fn put_refused_line(number: u64, text: &mut [u8], at: usize) -> usize
    requires { at + length (refused_line number) ≤ length text.old }
    ensures { Put (refused_line number) text.old at text.new result }
{
    put_word_line(b"refused ", number, text, at)
}
