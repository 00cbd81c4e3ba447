// The device's calls, whose slots hold numbers of 32 bits: a case has them as whole numbers, by their bits.
ghost use Rattle.std.specs.Prelude.{◌≤◌};

// The whole number of the lowest 32 bits.
fn integer_of(bits: u64) -> i32 {
    ((bits % 4294967296) as u32).cast_signed()
}

// A number of a slot, and 0 past its end.
fn number_at(slot: &[usize], k: usize) -> usize {
    slot.get(k).copied().unwrap_or(0)
}

// Stores a number in a slot, if it has a place for it.
fn store(slot: &mut [usize], k: usize, number: usize) {
    if let Some(place) = slot.get_mut(k) {
        *place = number;
    }
}

// How many of two numbers a slot has.
fn end_of(slot: &[usize]) -> usize
    ensures { result ≤ 2 }
{
    slot.len().min(2)
}

// The first two numbers of a slot, with a sign and without.
fn integers_of(slot: &[usize]) -> [i32; 2] {
    [
        integer_of(number_at(slot, 0) as u64),
        integer_of(number_at(slot, 1) as u64),
    ]
}

fn words_of(slot: &[usize]) -> [u32; 2] {
    [
        (number_at(slot, 0) % 4294967296) as u32,
        (number_at(slot, 1) % 4294967296) as u32,
    ]
}

// Stores them.
fn store_integers(slot: &mut [usize], integers: [i32; 2]) {
    store(slot, 0, integers[0].cast_unsigned() as usize);
    store(slot, 1, integers[1].cast_unsigned() as usize);
}

fn store_words(slot: &mut [usize], words: [u32; 2]) {
    store(slot, 0, words[0] as usize);
    store(slot, 1, words[1] as usize);
}

// The value of one cell, in a slot.
pub fn cell_value(words: [u64; 5], slot: &mut [usize]) -> usize {
    let end = end_of(slot);
    let mut value = integers_of(slot);
    let refusal = hullashlar::hullashlar_cell_value(
        integer_of(words[0]),
        integer_of(words[1]),
        integer_of(words[2]),
        integer_of(words[3]),
        integer_of(words[4]),
        &mut value[0..end],
    );
    store_integers(slot, value);
    refusal
}

// The value at the cursor, and the cursor moved on, each in its slot.
pub fn cursor_next(curve: &[u8], cursor_slot: &mut [usize], value_slot: &mut [usize]) -> usize {
    let cursor_end = end_of(cursor_slot);
    let value_end = end_of(value_slot);
    let mut cursor = words_of(cursor_slot);
    let mut value = integers_of(value_slot);
    let refusal = hullashlar::hullashlar_cursor_next(
        curve,
        &mut cursor[0..cursor_end],
        &mut value[0..value_end],
    );
    store_words(cursor_slot, cursor);
    store_integers(value_slot, value);
    refusal
}
