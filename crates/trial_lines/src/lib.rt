// The parts of the lines that the example programs print, and what they compare by.

#![tactic(auto)]

ghost use Rattle.std.specs.Prelude.{◌≡◌, true, length, replicate};

use std::io::{Stdout, Write};

// What outputs and scratch hold before a call.
pub const BEFORE: f64 = 7.0;

// Whether two slices hold the same numbers, bit for bit: that it answers true only then is proved.
pub fn same(these: &[f64], those: &[f64]) -> bool
    ensures { result ≡ true → these.now ≡ those.now }
{
    these.len() == those.len()
        && these
            .iter()
            .zip(those)
            .all(|(x, y)| base_text::pattern(*x) == base_text::pattern(*y))
}

// Whether every number of a slice is the given one, bit for bit: that it answers true only then is proved.
pub fn all_are(numbers: &[f64], number: f64) -> bool
    ensures { result ≡ true → numbers.now ≡ replicate (length numbers.now) number }
{
    let wanted = base_text::pattern(number);
    numbers.iter().all(|x| base_text::pattern(*x) == wanted)
}

pub fn print(out: Stdout, bytes: &[u8]) {
    let mut to = out;
    let _ = to.write_all(bytes);
}

// A space and a count in decimal digits.
pub fn print_count(out: Stdout, count: usize) {
    let mut to = out;
    let _ = write!(to, " {count}");
}

// A space and the 16 hex digits of a number's pattern.
pub fn print_number(out: Stdout, number: f64) {
    let mut digits = [0u8; 16];
    base_text::put_hex_digits(16, base_text::pattern(number), &mut digits, 0);
    print(out, b" ");
    print(out, &digits);
}

pub fn print_numbers(out: Stdout, numbers: &[f64]) {
    for number in numbers {
        print_number(out, *number);
    }
}

// The start of a line: the example's name, the call and the refusal's number.
pub fn print_refusal(out: Stdout, name: &[u8], call: &[u8], refusal: usize) {
    print(out, name);
    print(out, b": ");
    print(out, call);
    print_count(out, refusal);
}

// The numbers of an output; after a refusal whether they are those from before.
pub fn print_output(out: Stdout, refusal: usize, output: &[f64]) {
    if refusal == 0 {
        print_numbers(out, output);
    } else if all_are(output, BEFORE) {
        print(out, b" output untouched");
    } else {
        print(out, b" output spoiled");
    }
}

// What became of scratch; the end of a line.
pub fn print_scratch(out: Stdout, scratch: &[f64]) {
    if all_are(scratch, 0.0) {
        print(out, b" scratch cleared\n");
    } else if all_are(scratch, BEFORE) {
        print(out, b" scratch untouched\n");
    } else {
        print(out, b" scratch spoiled\n");
    }
}
