// The exported calls, each on the words and slices of a case, which have the letters of the table of arguments; what is returned is a word.

#![tactic(auto)]

use base_numbers::float_of;
use hullashlar::{
    hullashlar_build, hullashlar_change, hullashlar_curve, hullashlar_direct_queries,
    hullashlar_direct_query, hullashlar_even_profile, hullashlar_even_query,
    hullashlar_exact_index, hullashlar_locate_axis, hullashlar_locate_step_index,
    hullashlar_moments, hullashlar_query, hullashlar_quick_queries, hullashlar_quick_query,
    hullashlar_slopes, hullashlar_stepped, hullashlar_stepped_many, hullashlar_surface,
    hullashlar_verify, hullashlar_write,
};

mod device; // device.rt: the device's calls

// What the call of a number returns, of those that write no slice of the first three letters of floats, of the first of whole numbers and
// of the first two of bytes.
pub fn asked(
    call: u64,
    words: [u64; 5],
    a: &[f64],
    b: &[f64],
    c: &[f64],
    d: &mut [f64],
    e: &mut [f64],
    n: &[usize],
    o: &mut [usize],
    p: &mut [usize],
    q: &mut [usize],
    x: &[u8],
    y: &[u8],
    z: &mut [u8],
) -> u64 {
    let count = words[0] as usize;
    let second = words[1] as usize;
    let direction = (words[1] % 256) as u8;
    let second_float = float_of(words[1]);
    let third_float = float_of(words[2]);
    match call {
        0 => hullashlar_moments(count, a, b, x, c, d, e) as u64,
        1 => hullashlar_curve(count, a, b, c, second_float, d) as u64,
        2 => hullashlar_slopes(count, a, b, c, d) as u64,
        3 => hullashlar_build(count, n, x, a, b, c, d, e) as u64,
        4 => hullashlar_change(count, n, x, a, b, d, e, o, second_float, p) as u64,
        5 => hullashlar_query(count, n, x, a, b, c, d, o) as u64,
        8 => hullashlar_quick_query(count, n, x, a, b, c, d, o) as u64,
        9 => hullashlar_even_query(count, n, x, a, b, c, d, o, p) as u64,
        10 => hullashlar_write(count, n, x, a, y, b, c, second, z, o) as u64,
        11 => hullashlar_exact_index(count, a, second, third_float, o) as u64,
        12 => hullashlar_locate_axis(count, a, second_float, o, d) as u64,
        13 => hullashlar_locate_step_index(count, a, direction, third_float, o) as u64,
        14 => hullashlar_stepped(count, n, x, a, b, c, d, o) as u64,
        15 => device::cell_value(words, o) as u64,
        16 => device::cursor_next(x, o, p) as u64,
        18 => hullashlar_surface(x, words[0], words[1], words[2], words[3]),
        19 => hullashlar_verify(count, n, x, a, b, c, e, p, q) as u64,
        20 => hullashlar_direct_query(count, n, x, a, b, c, d, o) as u64,
        21 => hullashlar_quick_queries(count, n, x, a, b, c, d, o, p) as u64,
        22 => hullashlar_direct_queries(count, n, x, a, b, c, d, o, p) as u64,
        23 => hullashlar_even_profile(count, n, a, o) as u64,
        _ => hullashlar_stepped_many(count, n, x, a, b, c, d, o, p) as u64,
    }
}
