// All of a sheet looked at, up to its first fault, before anything is stored.
ghost use Rattle.std.specs.Prelude.{◌≡◌};
ghost use Rattle.rules.specs.Answers.{refusal_of};
ghost use Rattle.rules.specs.Calls.{or_else};
ghost use Rattle.sheet_read.specs.Fields.{edition as edition_said, axes, entries};
ghost use Rattle.sheet_read.specs.Faults.{axes_fault, tail_refused, samples_fault, sheet_refusal};
ghost use Rattle.sheet_read.specs.Read.{answer_of, read_told};
ghost use Rattle.base_bits.specs.BitsThere.{Within};
ghost use Rattle.sheet_read.specs.FoundSoFar.{Axes, Ended};

use crate::Sheet;
use crate::axes::walk_axes;
use base_bits::{are_short, field_at, is_short};
use grid::{samples_length, tensor_length};
use grid_codes::classes::is_unread;
use grid_codes::editions::{is_unknown_edition, mode_width};
use rules::{Axis, Refusal, number_told};

// Whether 8 or more bits follow bit `at`, or one that is not zero.
fn has_more(bytes: &[u8], at: usize) -> bool
    requires { Within bytes.now at 0 }
    ensures { result ≡ tail_refused bytes.now at }
{
    (at + 15) / 8 <= bytes.len() || field_at(bytes, at, 8 * bytes.len() - at) != 0
}

// The fault that is met after the last axis: the tensor's length, the samples, and what follows them.
fn check_samples(bytes: &[u8], at: usize, n: usize, all: [Axis; 4]) -> Result<(), Refusal>
    requires { Ended bytes.now at n all }
    ensures { refusal_of result ≡ samples_fault bytes.now }
{
    if 4096 < tensor_length(n, all) {
        return Err(Refusal::Tensor);
    }
    let count = samples_length(n, all);
    if are_short(bytes, at, count) {
        return Err(Refusal::Short);
    }
    if has_more(bytes, at + 64 * count) {
        return Err(Refusal::Tail);
    }
    Ok(())
}

// Looks at the axes and what follows them.
fn look_at_axes(bytes: &[u8], edition: usize, n: usize) -> Result<Sheet, Refusal>
    requires { (edition ≡ edition_said bytes.now) × Axes bytes.now n }
    ensures { read_told result ≡ answer_of (or_else (axes_fault bytes.now n) (samples_fault bytes.now)) edition n
        (entries bytes.now n) }
{
    let walk = match walk_axes(bytes, mode_width(edition), n) {
        Ok(walk) => walk,
        Err(refusal) if is_unread(refusal.number()) => return Err(refusal),
        // Every fault of the axes is of the class Reading.
        Err(_) => unreachable!(),
    };
    let all = walk.all;
    let checked = check_samples(bytes, walk.at, n, all);
    if is_unread(number_told(checked)) {
        return Err(checked.unwrap_err());
    }
    Ok(Sheet {
        edition,
        axes: n,
        all,
    })
}

// Looks at all of a sheet: what `read` gives where both buffers have their length.
pub fn look(bytes: &[u8]) -> Result<Sheet, Refusal>
    ensures { read_told result ≡ answer_of (sheet_refusal bytes.now) (edition_said bytes.now) (axes bytes.now)
        (entries bytes.now (axes bytes.now)) }
{
    if is_short(bytes, 0, 4) {
        return Err(Refusal::Short);
    }
    let edition = field_at(bytes, 0, 4) as usize;
    if is_unknown_edition(edition) {
        return Err(Refusal::Edition);
    }
    if is_short(bytes, 4, 3) {
        return Err(Refusal::Short);
    }
    let n = field_at(bytes, 4, 3) as usize;
    match n {
        1..=4 => look_at_axes(bytes, edition, n),
        _ => Err(Refusal::Axes),
    }
}
