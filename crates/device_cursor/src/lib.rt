// A curve of cells as bytes, judged whole, and a cursor that walks its numbers. Nothing here knows a float.

#![tactic(auto)]

ghost use Rattle.std.specs.Prelude.{◌≡◌, true, not, ◌+◌, ◌*◌, ◌/◌, ◌<◌, ◌≤◌, length};
ghost use Rattle.device_cell.specs.DeviceCell.{cell_number, cell_in_range, refusal_of};
ghost use Rattle.device_cursor.specs.DeviceCurve.{
  four_bytes,
  number_at,
  cell_at,
  cells,
  whole_cells,
  all_in_range,
  curve_refusal,
  last_cursor,
  cursor_number,
  next_refusal,
  next_told,
  StartPromise,
  NextPromise,
};
ghost use Rattle.device_cursor.specs.Columns.{number_out, one_of_four_out};

use device_cell::{Cell, Refusal};

// Where a walk stands: how many numbers lie before it. Any n has a meaning.
#[derive(Clone, Copy)]
pub struct Cursor {
    pub n: u32,
}

// Four bytes, the lowest first: it requires that they are there.
fn four_bytes(curve: &[u8], at: usize) -> u32
    requires { at + 4 ≤ length curve.now }
    ensures { result ≡ four_bytes curve.now at }
{
    u32::from_le_bytes([curve[at], curve[at + 1], curve[at + 2], curve[at + 3]])
}

// The number with a sign in four bytes: it requires that they are there.
fn number_at(curve: &[u8], at: usize) -> i64
    requires { at + 4 ≤ length curve.now }
    ensures { result ≡ number_at curve.now at }
{
    four_bytes(curve, at).cast_signed() as i64
}

// Cell i: it requires that the cell is there.
fn cell_at(curve: &[u8], i: usize) -> Cell
    requires { 16 * i + 16 ≤ length curve.now }
    ensures { result ≡ cell_at curve.now i }
{
    let at = 16 * i;
    Cell {
        p0: number_at(curve, at),
        p1: number_at(curve, at + 4),
        d0: number_at(curve, at + 8),
        d1: number_at(curve, at + 12),
    }
}

// Whether so many bytes are 1 to 255 whole cells.
#[tactic(auto, unfolding(crate::specs::DeviceCurve::whole_cells))]
fn whole_cells(length: usize) -> bool
    ensures { result ≡ whole_cells length }
{
    length % 16 == 0 && 16 <= length && length <= 4080
}

// The greatest value and the greatest slope in range. A range has as many numbers below zero as from zero on.
const MOST_VALUE: u32 = 32767;

const MOST_SLOPE: u32 = 131071;

// Whether the number in four bytes is out of the range up to the greatest number. Lifted by half of the range, without the carry, a number
// in it is below the range, and no other is. It requires that the bytes are there, as the two after it do of theirs.
fn number_refused<const MOST: u32>(curve: &[u8], at: usize) -> bool
    requires { (at + 4 ≤ length curve.now) × (MOST < 1073741824) }
    ensures { result ≡ number_out MOST curve.now at }
{
    four_bytes(curve, at).wrapping_add(MOST + 1) >= 2 * (MOST + 1)
}

// Whether a number of cell i is out of range.
fn cell_refused(curve: &[u8], i: usize) -> bool
    requires { 16 * i + 16 ≤ length curve.now }
    ensures { result ≡ not (cell_in_range (cell_at curve.now i)) }
{
    let at = 16 * i;
    number_refused::<MOST_VALUE>(curve, at)
        | number_refused::<MOST_VALUE>(curve, at + 4)
        | number_refused::<MOST_SLOPE>(curve, at + 8)
        | number_refused::<MOST_SLOPE>(curve, at + 12)
}

// Whether one of four numbers is out of range, each in the cell after the one before.
fn one_of_four_refused<const MOST: u32>(curve: &[u8], at: usize) -> bool
    requires { (at + 52 ≤ length curve.now) × (MOST < 1073741824) }
    ensures { result ≡ one_of_four_out (number_out MOST curve.now) at }
{
    number_refused::<MOST>(curve, at)
        | number_refused::<MOST>(curve, at + 16)
        | number_refused::<MOST>(curve, at + 32)
        | number_refused::<MOST>(curve, at + 48)
}

// Whether a number is out of range in a cell of those that come in fours. A flag for each of a cell's numbers is kept to the last four, so
// the compiler looks at the four numbers of a cell at a time.
fn some_of_fours_refused(curve: &[u8]) -> bool
    ensures { result ≡ not (all_in_range curve.now (4 * (length curve.now / 64))) }
{
    let fours = curve.len() / 64;
    let mut p0 = false;
    let mut p1 = false;
    let mut d0 = false;
    let mut d1 = false;
    for i in 0..fours {
        let at = 64 * i;
        p0 |= one_of_four_refused::<MOST_VALUE>(curve, at);
        p1 |= one_of_four_refused::<MOST_VALUE>(curve, at + 4);
        d0 |= one_of_four_refused::<MOST_SLOPE>(curve, at + 8);
        d1 |= one_of_four_refused::<MOST_SLOPE>(curve, at + 12);
    }
    p0 | p1 | d0 | d1
}

// Whether a number of a cell is out of range: in those that come in fours, and in the three behind them at most.
fn some_cell_refused(curve: &[u8]) -> bool
    ensures { result ≡ not (all_in_range curve.now (cells curve.now)) }
{
    let cells = curve.len() / 16;
    let mut refused = some_of_fours_refused(curve);
    for i in 4 * (curve.len() / 64)..cells {
        refused |= cell_refused(curve, i);
    }
    refused
}

// Looks for the refusals of a curve, which is judged whole: 20 for its length, then 19 for its numbers.
pub fn check_curve(curve: &[u8]) -> Result<(), Refusal>
    ensures { refusal_of result ≡ curve_refusal curve.now }
{
    if !whole_cells(curve.len()) {
        return Err(Refusal::Position);
    }
    if some_cell_refused(curve) {
        return Err(Refusal::Range);
    }
    Ok(())
}

// Cell i at a position: it requires that the cell is there and in range, and a position of at most 256.
fn number_of(curve: &[u8], i: usize, k: u64) -> i32
    requires { (16 * i + 16 ≤ length curve.now) × (cell_in_range (cell_at curve.now i) ≡ true) × (k ≤ 256) }
    ensures { result ≡ cell_number (cell_at curve.now i) k }
{
    device_cell::cell_number(cell_at(curve, i), k)
}

// The number at a cursor of a curve that has been judged. Not a public call: it requires that the curve is not refused, and that the cursor
// is not past its end.
pub fn cursor_number(curve: &[u8], n: usize) -> i32
    requires { (curve_refusal curve.now ≡ 0) × (n ≤ last_cursor curve.now) }
    ensures { result ≡ cursor_number curve.now n }
{
    let cells = curve.len() / 16;
    if n < 256 * cells {
        number_of(curve, n / 256, (n % 256) as u64)
    } else {
        number_of(curve, cells - 1, 256)
    }
}

// Looks for the refusals of a step: the curve's, and then 20 past the end.
fn check_next(curve: &[u8], n: usize) -> Result<(), Refusal>
    ensures { refusal_of result ≡ next_refusal curve.now n }
{
    check_curve(curve)?;
    if 256 * (curve.len() / 16) < n {
        return Err(Refusal::Position);
    }
    Ok(())
}

impl Cursor {
    // PUBLIC. The cursor at the start of any curve. It refuses nothing.
    pub fn start() -> Self
        ensures { StartPromise result }
    {
        Cursor { n: 0 }
    }

    // PUBLIC. The value at the cursor, and the cursor moved on: each cell at 0 to 255, then the last at 256. The curve is judged whole
    // at every call. Refuses 20, bytes that are not 1 to 255 whole cells, then 19, a value or a slope out of range anywhere, then 20, a
    // cursor past the end.
    pub fn next(self, curve: &[u8]) -> Result<(i32, Cursor), Refusal>
        ensures { NextPromise curve.now self (next_told self result) }
    {
        let n = self.n as usize;
        check_next(curve, n)?;
        let value = cursor_number(curve, n);
        Ok((value, Cursor { n: self.n + 1 }))
    }
}
