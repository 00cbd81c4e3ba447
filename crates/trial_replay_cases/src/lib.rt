// The call of a case on slices as the list gives them: what it returns and leaves is held against the list. No list makes a function here
// trap.

#![tactic(auto)]

use hullashlar::{hullashlar_read, hullashlar_read_edition_1, hullashlar_sheet_tensor};
use trial_replay_calls::asked;
use trial_replay_items::arguments::Case;
use trial_replay_items::words::word;

// Whether the floats stand as the list says.
fn floats_stand(
    list: &[u8],
    case: Case,
    a: &[f64],
    b: &[f64],
    c: &[f64],
    d: &[f64],
    e: &[f64],
) -> bool {
    case.stands(list, b'a', a)
        && case.stands(list, b'b', b)
        && case.stands(list, b'c', c)
        && case.stands(list, b'd', d)
        && case.stands(list, b'e', e)
}

// Whether the whole numbers do.
fn numbers_stand(
    list: &[u8],
    case: Case,
    n: &[usize],
    o: &[usize],
    p: &[usize],
    q: &[usize],
) -> bool {
    case.stands(list, b'n', n)
        && case.stands(list, b'o', o)
        && case.stands(list, b'p', p)
        && case.stands(list, b'q', q)
}

// Whether the bytes do, of which no call writes the first.
fn bytes_stand(list: &[u8], case: Case, y: &[u8], z: &[u8]) -> bool {
    case.stands(list, b'y', y) && case.stands(list, b'z', z)
}

// The readings of a sheet, which write what other calls read: each alone, so that what it promises is no part of what follows.
fn read(
    x: &[u8],
    a: &mut [f64],
    b: &mut [f64],
    n: &mut [usize],
    o: &mut [usize],
    y: &mut [u8],
    c: &mut [f64],
    z: &mut [u8],
    p: &mut [usize],
) -> u64 {
    hullashlar_read(x, a, b, n, o, y, c, z, p) as u64
}

fn read_edition_1(
    x: &[u8],
    a: &mut [f64],
    b: &mut [f64],
    n: &mut [usize],
    o: &mut [usize],
    y: &mut [u8],
    c: &mut [f64],
) -> u64 {
    hullashlar_read_edition_1(x, a, b, n, o, y, c) as u64
}

fn sheet_tensor(
    x: &[u8],
    a: &mut [f64],
    b: &mut [f64],
    n: &mut [usize],
    o: &mut [usize],
    y: &mut [u8],
    c: &mut [f64],
    z: &mut [u8],
    p: &mut [usize],
    d: &mut [f64],
    e: &mut [f64],
    q: &mut [usize],
) -> u64 {
    hullashlar_sheet_tensor(x, a, b, n, o, y, c, z, p, d, e, q) as u64
}

// What the call of a number returns: a reading's or another's.
fn returned(
    list: &[u8],
    case: Case,
    a: &mut [f64],
    b: &mut [f64],
    c: &mut [f64],
    d: &mut [f64],
    e: &mut [f64],
    n: &mut [usize],
    o: &mut [usize],
    p: &mut [usize],
    q: &mut [usize],
    x: &[u8],
    y: &mut [u8],
    z: &mut [u8],
) -> u64 {
    let call = case.call;
    match call {
        6 => read(x, a, b, n, o, y, c, z, p),
        7 => sheet_tensor(x, a, b, n, o, y, c, z, p, d, e, q),
        17 => read_edition_1(x, a, b, n, o, y, c),
        _ => asked(call, case.words(list), a, b, c, d, e, n, o, p, q, x, y, z),
    }
}

// Whether all that is lent stands as the list says, and what was returned too.
fn stand(
    list: &[u8],
    case: Case,
    answer: u64,
    a: &[f64],
    b: &[f64],
    c: &[f64],
    d: &[f64],
    e: &[f64],
    n: &[usize],
    o: &[usize],
    p: &[usize],
    q: &[usize],
    y: &[u8],
    z: &[u8],
) -> bool {
    answer == word(list, case.answer)
        && floats_stand(list, case, a, b, c, d, e)
        && numbers_stand(list, case, n, o, p, q)
        && bytes_stand(list, case, y, z)
}

// Whether the call, on the slices as they are given, returns what the list says and leaves them so.
pub fn is_same(
    list: &[u8],
    case: Case,
    a: &mut [f64],
    b: &mut [f64],
    c: &mut [f64],
    d: &mut [f64],
    e: &mut [f64],
    n: &mut [usize],
    o: &mut [usize],
    p: &mut [usize],
    q: &mut [usize],
    x: &[u8],
    y: &mut [u8],
    z: &mut [u8],
) -> bool {
    let answer = returned(list, case, a, b, c, d, e, n, o, p, q, x, y, z);
    stand(list, case, answer, a, b, c, d, e, n, o, p, q, y, z)
}
