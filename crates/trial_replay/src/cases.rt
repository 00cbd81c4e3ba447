// A case: its slices are made as the list gives them, and its call is made on them.
use trial_replay_cases::is_same;
use trial_replay_items::arguments::{BYTES, Case, FLOATS, NUMBERS};

// Whether a case was answered as the list says, and the place after it.
#[derive(Clone, Copy)]
pub struct Replayed {
    pub same: bool,
    pub next: usize,
}

// Whether a case with the whole numbers and bytes as the list gives them is the same: the floats are as it gives them too.
fn is_same_on_floats(
    list: &[u8],
    case: Case,
    n: &mut [usize],
    o: &mut [usize],
    p: &mut [usize],
    q: &mut [usize],
    x: &[u8],
    y: &mut [u8],
    z: &mut [u8],
) -> bool {
    let mut a = case.slice::<f64, FLOATS>(list, b'a');
    let mut b = case.slice::<f64, FLOATS>(list, b'b');
    let mut c = case.slice::<f64, FLOATS>(list, b'c');
    let mut d = case.slice::<f64, FLOATS>(list, b'd');
    let mut e = case.slice::<f64, FLOATS>(list, b'e');
    let a_end = case.length::<FLOATS>(list, b'a');
    let b_end = case.length::<FLOATS>(list, b'b');
    let c_end = case.length::<FLOATS>(list, b'c');
    let d_end = case.length::<FLOATS>(list, b'd');
    let e_end = case.length::<FLOATS>(list, b'e');
    is_same(
        list,
        case,
        &mut a[0..a_end],
        &mut b[0..b_end],
        &mut c[0..c_end],
        &mut d[0..d_end],
        &mut e[0..e_end],
        n,
        o,
        p,
        q,
        x,
        y,
        z,
    )
}

// The same with the whole numbers as the list gives them.
fn is_same_on_bytes(
    list: &[u8],
    case: Case,
    n: &mut [usize],
    o: &mut [usize],
    p: &mut [usize],
    q: &mut [usize],
) -> bool {
    let x = case.slice::<u8, BYTES>(list, b'x');
    let mut y = case.slice::<u8, BYTES>(list, b'y');
    let mut z = case.slice::<u8, BYTES>(list, b'z');
    let x_end = case.length::<BYTES>(list, b'x');
    let y_end = case.length::<BYTES>(list, b'y');
    let z_end = case.length::<BYTES>(list, b'z');
    is_same_on_floats(
        list,
        case,
        n,
        o,
        p,
        q,
        &x[0..x_end],
        &mut y[0..y_end],
        &mut z[0..z_end],
    )
}

// The same with no slice made yet.
fn is_same_as_given(list: &[u8], case: Case) -> bool {
    let mut n = case.slice::<usize, NUMBERS>(list, b'n');
    let mut o = case.slice::<usize, NUMBERS>(list, b'o');
    let mut p = case.slice::<usize, NUMBERS>(list, b'p');
    let mut q = case.slice::<usize, NUMBERS>(list, b'q');
    let n_end = case.length::<NUMBERS>(list, b'n');
    let o_end = case.length::<NUMBERS>(list, b'o');
    let p_end = case.length::<NUMBERS>(list, b'p');
    let q_end = case.length::<NUMBERS>(list, b'q');
    is_same_on_bytes(
        list,
        case,
        &mut n[0..n_end],
        &mut o[0..o_end],
        &mut p[0..p_end],
        &mut q[0..q_end],
    )
}

// The case at a place. One with a number that no call has differs.
pub fn case_at(list: &[u8], place: usize) -> Replayed {
    let case = Case::at(list, place);
    let next = case.next(list);
    let same = case.is_known() && is_same_as_given(list, case);
    Replayed { same, next }
}
