// Fields of a list of bytes, most significant bit first, from any bit on: a few bits out of one byte or two, the patterns of floats by
// whole words. None of these is a public call: what is read has to be there, at places that are small numbers. `chunk`, `first_bits` and
// `raised` require that their bits fit.

#![tactic(auto)]

ghost use Rattle.std.specs.Prelude.{◌≡◌, ◌+◌, ◌-◌, ◌*◌, ◌/◌, ◌%◌, ◌^◌, ◌<◌, ◌≤◌, length};
ghost use Rattle.base_bits.specs.Bits.{field, short, number, numbers, numbers_short};
ghost use Rattle.base_bits.specs.BitsThere.{Within};

use words::{across_to_byte, across_words, word_at};

mod words; // words.rt: eight bytes as one number
pub mod writing; // writing.rt: fields written

// The `count` bits of a byte from its bit `from` on.
fn chunk(byte: u8, from: usize, count: usize) -> u64
    requires { from + count ≤ 8 }
    ensures { (result ≡ byte / 2 ^ (8 - from - count) % 2 ^ count) × (result < 2 ^ count) }
{
    ((byte as u64) >> (8 - from - count)) % (1 << count)
}

// The first `count` bits of a byte: one shift, since nothing stands above them.
fn first_bits(byte: u8, count: usize) -> u64
    requires { count ≤ 8 }
    ensures { (result ≡ byte / 2 ^ (8 - count) % 2 ^ count) × (result < 2 ^ count) }
{
    (byte as u64) >> (8 - count)
}

// A number of `width` bits, moved up by `count` more.
fn raised(n: u64, width: usize, count: usize) -> u64
    requires { (n < 2 ^ width) × (width + count ≤ 64) × (count ≤ 8) }
    ensures { (result ≡ n * 2 ^ count) × (result + 2 ^ count ≤ 2 ^ 64) }
{
    n << count
}

// A field of one bit up to eight, which lies in one byte or in two. Without a loop: so a call with a width that is known is compiled to a
// few shifts where it stands.
fn narrow_field_at(bytes: &[u8], at: usize, width: usize) -> u64
    requires { Within bytes.now at width × (0 < width) × (width ≤ 8) }
    ensures { result ≡ field bytes.now at width }
{
    let place = at / 8;
    let first = 8 - at % 8;
    if width <= first {
        return chunk(bytes[place], at % 8, width);
    }
    let rest = width - first;
    raised(chunk(bytes[place], at % 8, first), first, rest) + chunk(bytes[place + 1], 0, rest)
}

// A field of any width up to 64: up to eight bits more at each turn.
fn field_by_eights(bytes: &[u8], at: usize, width: usize) -> u64
    requires { Within bytes.now at width × (width ≤ 64) }
    ensures { result ≡ field bytes.now at width }
{
    let mut n = 0;
    let mut read = 0;
    // A while: the last turn may read fewer bits than eight.
    while read < width {
        let count = (width - read).min(8);
        n = raised(n, read, count) + narrow_field_at(bytes, at + read, count);
        read += count;
    }
    n
}

// A field of 64 bits: a word, or all of a word but its first bits, and as many of the byte behind it.
fn pattern_at(bytes: &[u8], at: usize) -> u64
    requires { Within bytes.now at 64 }
    ensures { result ≡ field bytes.now at 64 }
{
    let place = at / 8;
    let shift = at % 8;
    if shift == 0 {
        return word_at(bytes, place);
    }
    across_to_byte(word_at(bytes, place), bytes[place + 8], shift)
}

// The number of the `width` bits from bit `at` on. Not a public call: these bits, at most 64, are required to be there, at places that are
// small numbers. The fields of a sheet have eight bits at most, or 64; by eights go the widths between, which none has.
pub fn field_at(bytes: &[u8], at: usize, width: usize) -> u64
    requires { Within bytes.now at width × (width ≤ 64) }
    ensures { result ≡ field bytes.now at width }
{
    if width == 0 {
        return 0;
    }
    if width <= 8 {
        return narrow_field_at(bytes, at, width);
    }
    if width == 64 {
        return pattern_at(bytes, at);
    }
    field_by_eights(bytes, at, width)
}

// Whether the field of `width` bits from bit `at` on would end behind the last bit. Not a public call: an end at a small number
// is required.
pub fn is_short(bytes: &[u8], at: usize, width: usize) -> bool
    requires { at + width ≤ 1048576 }
    ensures { result ≡ short bytes.now at width }
{
    bytes.len() < (at + width + 7) / 8
}

// Whether one of the patterns from bit `at` on would end behind the last bit. Not a public call: one pattern or more, and their end at a
// small number, are required.
pub fn are_short(bytes: &[u8], at: usize, count: usize) -> bool
    requires { (0 < count) × (at + 64 * count ≤ 1048576) }
    ensures { result ≡ numbers_short bytes.now at count }
{
    is_short(bytes, at, 64 * count)
}

// The number of the pattern at bit `at`. Not a public call: its 64 bits are required to be there, at places that are small numbers.
pub fn number_at(bytes: &[u8], at: usize) -> f64
    requires { Within bytes.now at 64 }
    ensures { result ≡ number bytes.now at }
{
    base_numbers::float_of(pattern_at(bytes, at))
}

// Fills `to` with the numbers whose patterns are the words from byte `place` on.
fn fill_from_words(bytes: &[u8], place: usize, to: &mut [f64])
    requires { Within bytes.now (8 * place) (64 * length to.old) }
    ensures { to.new ≡ numbers bytes.now (8 * place) (length to.old) }
{
    for k in 0..to.len() {
        to[k] = base_numbers::float_of(word_at(bytes, place + 8 * k));
    }
}

// Fills `to`, of one place or more, with the numbers whose patterns begin `shift` bits behind byte `place`. Each word is read once: it ends
// one pattern and begins the next. The last pattern ends in a byte, since behind it no word need be there.
fn fill_across_words(bytes: &[u8], place: usize, shift: usize, to: &mut [f64])
    requires { Within bytes.now (8 * place + shift) (64 * length to.old) × (0 < shift) × (shift < 8) × (0 < length to.old) }
    ensures { to.new ≡ numbers bytes.now (8 * place + shift) (length to.old) }
{
    let mut word = word_at(bytes, place);
    let last = to.len() - 1;
    for k in 0..last {
        let next = word_at(bytes, place + 8 * k + 8);
        to[k] = base_numbers::float_of(across_words(word, next, shift));
        word = next;
    }
    to[last] = base_numbers::float_of(across_to_byte(word, bytes[place + 8 * last + 8], shift));
}

// Fills `to` with the numbers of the patterns from bit `at` on. Not a public call: the patterns' bits are required to be there, at places
// that are small numbers.
pub fn fill(bytes: &[u8], at: usize, to: &mut [f64])
    requires { Within bytes.now at (64 * length to.old) }
    ensures { to.new ≡ numbers bytes.now at (length to.old) }
{
    if at % 8 == 0 {
        fill_from_words(bytes, at / 8, to)
    } else {
        if to.len() == 0 {
            return;
        }
        fill_across_words(bytes, at / 8, at % 8, to)
    }
}
