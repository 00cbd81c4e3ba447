// The axes of a sheet, one after the other. None of these is a public call: `fault_of_short_head` and `walk_axes` test whether the bits are
// there, all others require it. All are told how many bits the mode of an axis has in the sheet's edition.
ghost use Rattle.std.specs.Prelude.{◌≡◌, ◌+◌, ◌*◌, ◌<◌, ◌≤◌, length};
ghost use Rattle.rules.specs.Answers.{number_of, refusal_of};
ghost use Rattle.sheet_read.specs.Fields.{mode_bits, axis_at, axis_begin, knots_below};
ghost use Rattle.sheet_read.specs.Faults.{axis_fault};
ghost use Rattle.sheet_read.specs.Read.{over};
ghost use Rattle.base_bits.specs.BitsThere.{Within};
ghost use Rattle.sheet_read.specs.FoundSoFar.{Whole, Walked, NoFault};
ghost use Rattle.sheet_read.specs.Heads.{HeadOf};

use crate::heads::{Head, after, head_at, knots_from, values};
use base_bits::{are_short, field_at, fill, is_short, number_at};
use grid_codes::classes::is_unread;
use grid_codes::ends::{condition_of_kind, end_of_kind, is_periodic_at_one_end, values_of_kind};
use grid_codes::modes::{is_unknown_mode, mode_of_number};
use rules::{Axis, Condition, Refusal, number_told};

// What a walk over axes without a fault finds: the four axes, and the bit after the last.
#[derive(Clone, Copy)]
pub struct Walk {
    pub all: [Axis; 4],
    pub at: usize,
}

// The fault of the axis at bit `at` where its head is not there whole, in the order of its fields.
fn fault_of_short_head(bytes: &[u8], width: usize, at: usize) -> Refusal
    requires { (width ≡ mode_bits bytes.now) × (at ≤ 131072) × (8 * length bytes.now < at + (12 + width)) }
    ensures { number_of result ≡ axis_fault bytes.now at }
{
    if is_short(bytes, at, 8) {
        return Refusal::Short;
    }
    if field_at(bytes, at, 8) < 1 {
        return Refusal::Points;
    }
    if is_short(bytes, at + 8, 4) {
        return Refusal::Short;
    }
    if is_periodic_at_one_end(field_at(bytes, at + 8, 2), field_at(bytes, at + 10, 2)) {
        return Refusal::Kinds;
    }
    Refusal::Short
}

// The same where it is there.
fn check_head(bytes: &[u8], width: usize, at: usize, head: Head) -> Result<(), Refusal>
    requires { (width ≡ mode_bits bytes.now) × Within bytes.now at (12 + width) × HeadOf bytes.now at head × (at ≤ 131072) }
    ensures { refusal_of result ≡ axis_fault bytes.now at }
{
    if head.points < 2 {
        return Err(Refusal::Points);
    }
    if is_periodic_at_one_end(head.lower, head.upper) {
        return Err(Refusal::Kinds);
    }
    if is_unknown_mode(head.mode) {
        return Err(Refusal::Mode);
    }
    if are_short(bytes, at + 12 + width, values(head) + head.points) {
        return Err(Refusal::Short);
    }
    Ok(())
}

// The ends of the axis at bit `at`. Knots follow, so there are patterns to read even where a kind has none.
fn condition(bytes: &[u8], width: usize, at: usize, head: Head) -> Condition
    requires { (width ≡ mode_bits bytes.now) × Whole bytes.now at × HeadOf bytes.now at head }
    ensures { result ≡ (axis_at bytes.now at).condition }
{
    let first = number_at(bytes, at + 12 + width);
    let second = number_at(bytes, at + 12 + width + 64 * values_of_kind(head.lower));
    condition_of_kind(
        head.lower,
        end_of_kind(head.lower, first),
        end_of_kind(head.upper, second),
    )
}

// The axis at bit `at`.
fn axis(bytes: &[u8], width: usize, at: usize, head: Head) -> Axis
    requires { (width ≡ mode_bits bytes.now) × Whole bytes.now at × HeadOf bytes.now at head }
    ensures { result ≡ axis_at bytes.now at }
{
    Axis {
        points: head.points,
        condition: condition(bytes, width, at, head),
        mode: mode_of_number(head.mode),
    }
}

// Looks at the axes, up to the first fault.
pub fn walk_axes(bytes: &[u8], width: usize, axes: usize) -> Result<Walk, Refusal>
    requires { (width ≡ mode_bits bytes.now) × (axes ≤ 4) }
    ensures { Walked bytes.now axes result }
{
    let mut all = [Axis::unused(); 4];
    let mut at = 7;
    for i in 0..axes {
        if is_short(bytes, at, 12 + width) {
            return Err(fault_of_short_head(bytes, width, at));
        }
        let head = head_at(bytes, width, at);
        let checked = check_head(bytes, width, at, head);
        if is_unread(number_told(checked)) {
            return Err(checked.unwrap_err());
        }
        all[i] = axis(bytes, width, at, head);
        at = after(width, at, head);
    }
    Ok(Walk { all, at })
}

// Stores the knots, axis after axis, in the first places of `knots`. Answers the bit after the last axis.
pub fn store_knots(bytes: &[u8], width: usize, axes: usize, knots: &mut [f64]) -> usize
    requires { (width ≡ mode_bits bytes.now) × NoFault bytes.now axes
        × (length (knots_below bytes.now axes) ≤ length knots.old) }
    ensures { (result ≡ axis_begin bytes.now axes)
        × (knots.new ≡ over (knots_below bytes.now axes) knots.old) }
{
    let mut at = 7;
    let mut from = 0;
    for _ in 0..axes {
        let head = head_at(bytes, width, at);
        let to = from + head.points;
        fill(bytes, knots_from(width, at, head), &mut knots[from..to]);
        from = to;
        at = after(width, at, head);
    }
    at
}
