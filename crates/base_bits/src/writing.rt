// Fields written into a list of bytes, most significant bit first, from any bit on; all other bits stay. A few bits go into one byte or
// two, the patterns of floats by whole words. None of these is a public call: what is written has to have its bits there, at places that
// are small numbers, and a float has to be finite. `lowest`, `patched` and `put_in_byte` require that their bits fit.
ghost use Rattle.std.specs.Prelude.{◌≡◌, true, false, ◌+◌, ◌*◌, ◌%◌, ◌^◌, ◌<◌, ◌≤◌, length};
ghost use Rattle.std.specs.Float.{binary64};
ghost use Rattle.std.specs.Float.Ieee.{to_bits};
ghost use Rattle.std.specs.Float.Ieee.Scale.{finite};
ghost use Rattle.rules.specs.Refusals.{some_number_refused};
ghost use Rattle.base_bits.specs.Written.{patch, with_field, number_fields, with_fields};
ghost use Rattle.base_bits.specs.BitsThere.{Within};

use crate::first_bits;
use crate::words::across_words;

// The `count` lowest bits of a number.
fn lowest(n: u64, count: usize) -> u8
    requires { count ≤ 8 }
    ensures { (result ≡ n % 2 ^ count) × (result < 2 ^ count) }
{
    (n % (1 << count)) as u8
}

// A byte with the `count` bits above its `low` lowest ones replaced.
fn patched(byte: u8, low: usize, count: usize, new: u8) -> u8
    requires { (low + count ≤ 8) × (new < 2 ^ count) }
    ensures { result ≡ patch byte low count new }
{
    let old = byte as u64;
    ((((old >> (low + count)) << count) + (new as u64) << low) + old % (1 << low)) as u8
}

// Writes the `count` lowest bits of a number into byte `place`, from its bit `from` on.
fn put_in_byte(bytes: &mut [u8], place: usize, from: usize, count: usize, n: u64)
    requires { (place < length bytes.old) × (from + count ≤ 8) }
    ensures { bytes.new ≡ with_field bytes.old (8 * place + from) count n }
{
    bytes[place] = patched(bytes[place], 8 - from - count, count, lowest(n, count));
}

// Writes a field of one bit up to eight: into one byte, or the first bits into its end and the rest into the next.
fn put_narrow_field(bytes: &mut [u8], at: usize, width: usize, n: u64)
    requires { Within bytes.old at width × (0 < width) × (width ≤ 8) }
    ensures { bytes.new ≡ with_field bytes.old at width n }
{
    let place = at / 8;
    let first = 8 - at % 8;
    if width <= first {
        put_in_byte(bytes, place, at % 8, width, n)
    } else {
        let rest = width - first;
        put_in_byte(bytes, place, at % 8, first, n >> rest);
        put_in_byte(bytes, place + 1, 0, rest, n)
    }
}

// Writes a field of any width up to 64: up to eight bits more at each turn.
fn put_field_by_eights(bytes: &mut [u8], at: usize, width: usize, n: u64)
    requires { Within bytes.old at width × (width ≤ 64) }
    ensures { bytes.new ≡ with_field bytes.old at width n }
{
    let mut written = 0;
    // A while: the last turn may write fewer bits than eight.
    while written < width {
        let count = (width - written).min(8);
        put_narrow_field(bytes, at + written, count, n >> (width - written - count));
        written += count;
    }
}

// Writes the four lowest bytes of a number from byte `place` on.
fn put_half_word(bytes: &mut [u8], place: usize, n: u64)
    requires { place + 4 ≤ length bytes.old }
    ensures { bytes.new ≡ with_field bytes.old (8 * place) 32 n }
{
    put_in_byte(bytes, place, 0, 8, n >> 24);
    put_in_byte(bytes, place + 1, 0, 8, n >> 16);
    put_in_byte(bytes, place + 2, 0, 8, n >> 8);
    put_in_byte(bytes, place + 3, 0, 8, n)
}

// Writes a word from byte `place` on. Its bytes are stored with nothing between them, so the compiler makes one store of the eight.
fn put_word(bytes: &mut [u8], place: usize, n: u64)
    requires { place + 8 ≤ length bytes.old }
    ensures { bytes.new ≡ with_field bytes.old (8 * place) 64 n }
{
    put_half_word(bytes, place, n >> 32);
    put_half_word(bytes, place + 4, n)
}

// Writes a field of 64 bits: a word, or the word that begins with the bits before the field, and then the last bits of the number into the
// byte behind it.
fn put_pattern(bytes: &mut [u8], at: usize, n: u64)
    requires { Within bytes.old at 64 }
    ensures { bytes.new ≡ with_field bytes.old at 64 n }
{
    let place = at / 8;
    let shift = at % 8;
    if shift == 0 {
        put_word(bytes, place, n)
    } else {
        let before = first_bits(bytes[place], shift);
        let word = across_words(before, n, 64 - shift);
        put_word(bytes, place, word);
        put_in_byte(bytes, place + 8, 0, shift, n)
    }
}

// Writes the `width` lowest bits of a number from bit `at` on. Not a public call: these bits, at most 64, are required to be there, at
// places that are small numbers.
pub fn put_field(bytes: &mut [u8], at: usize, width: usize, n: u64)
    requires { Within bytes.old at width × (width ≤ 64) }
    ensures { bytes.new ≡ with_field bytes.old at width n }
{
    if width == 0 {
        return;
    }
    if width <= 8 {
        put_narrow_field(bytes, at, width, n)
    } else if width == 64 {
        put_pattern(bytes, at, n)
    } else {
        put_field_by_eights(bytes, at, width, n)
    }
}

// Writes the pattern of a number at bit `at`. Not a public call: a finite number is required, and its 64 bits there, at places that are
// small numbers.
pub fn put_number(bytes: &mut [u8], at: usize, number: f64)
    requires { Within bytes.old at 64 × (finite number ≡ true) }
    ensures { bytes.new ≡ with_field bytes.old at 64 (to_bits binary64 number) }
{
    put_pattern(bytes, at, base_numbers::pattern_of(number))
}

// Writes the patterns of numbers as the words from byte `place` on.
fn put_words(bytes: &mut [u8], place: usize, from: &[f64])
    requires { Within bytes.old (8 * place) (64 * length from.now) × (some_number_refused from.now ≡ false) }
    ensures { bytes.new ≡ with_fields bytes.old (8 * place) (number_fields from.now) }
{
    for k in 0..from.len() {
        put_word(bytes, place + 8 * k, base_numbers::pattern_of(from[k]));
    }
}

// Writes the patterns of numbers from `shift` bits behind byte `place` on. A turn writes one word: the last bits of the pattern before, at
// first those that stood there, and the first of its own. So each pattern's last bits come a turn late, and those of the last at the end.
fn put_words_across(bytes: &mut [u8], place: usize, shift: usize, from: &[f64])
    requires { Within bytes.old (8 * place + shift) (64 * length from.now) × (some_number_refused from.now ≡ false)
        × (0 < shift) × (shift < 8) }
    ensures { bytes.new ≡ with_fields bytes.old (8 * place + shift) (number_fields from.now) }
{
    let mut before = first_bits(bytes[place], shift);
    for k in 0..from.len() {
        let pattern = base_numbers::pattern_of(from[k]);
        let word = across_words(before, pattern, 64 - shift);
        put_word(bytes, place + 8 * k, word);
        before = pattern;
    }
    put_in_byte(bytes, place + 8 * from.len(), 0, shift, before)
}

// Writes the patterns of numbers from bit `at` on. Not a public call: finite numbers are required, and their bits there, at places that are
// small numbers.
pub fn put_numbers(bytes: &mut [u8], at: usize, from: &[f64])
    requires { Within bytes.old at (64 * length from.now) × (some_number_refused from.now ≡ false) }
    ensures { bytes.new ≡ with_fields bytes.old at (number_fields from.now) }
{
    if at % 8 == 0 {
        put_words(bytes, at / 8, from)
    } else {
        put_words_across(bytes, at / 8, at % 8, from)
    }
}
