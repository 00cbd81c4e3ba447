// One call for the firmware of an aid: the bytes of a sheet and the patterns of four coordinates in, the pattern of the surface's value
// out.

#![tactic(auto)]

ghost use Rattle.std.specs.Prelude.{[], ◌∷◌, ◌≤◌, length};
ghost use Rattle.rules.specs.Sizes.{scratch_length};
ghost use Rattle.sheet_read.specs.Fields.{sheet_grid};
ghost use Rattle.sheet_read.specs.FoundSoFar.{PartsRoom};
ghost use Rattle.sheet_surface.specs.SheetSurface.{most_on_the_stack, SurfacePromise};
ghost use Rattle.sheet_surface.specs.OnTheStack.{SmallSheet, BuiltAndAsked, Surfaced};

use grid_scratch::TENSOR;
use rules::Refusal;
use sheet_in_scratch::tensor_in_scratch;
use sheet_patterns::{answer_pattern, coordinates_of, is_unused_refused};
use sheet_read::Sheet;
use sheet_read::look::look;

// The value of the sheet's surface at the coordinates, its tensor built in the buffers that this is lent. Refuses what the build does, and
// then what the query does.
fn build_and_query(
    bytes: &[u8],
    sheet: Sheet,
    patterns: [u64; 4],
    knots: &mut [f64],
    samples: &mut [f64],
    scratch: &mut [f64],
) -> Result<f64, Refusal>
    requires { PartsRoom bytes.now sheet.edition sheet.axes sheet.all knots.old samples.old
        × (scratch_length (sheet_grid bytes.now) ≤ length scratch.old) }
    ensures { BuiltAndAsked bytes.now patterns result }
{
    let axes = sheet.axes;
    let all = sheet.all;
    tensor_in_scratch(bytes, sheet.edition, axes, all, knots, samples, scratch)?;
    let knots_end = grid::knots_length(axes, all);
    let end = TENSOR + grid::tensor_length(axes, all);
    let coordinates = coordinates_of(patterns);
    let found = query_full::query(
        axes,
        all,
        &knots[0..knots_end],
        &scratch[TENSOR..end],
        &coordinates[0..axes],
    )?;
    Ok(found.value)
}

// The same, with buffers on the stack for a tensor of at most 128 numbers.
fn small_on_the_stack(bytes: &[u8], sheet: Sheet, patterns: [u64; 4]) -> Result<f64, Refusal>
    requires { SmallSheet 128 bytes.now sheet.edition sheet.axes sheet.all }
    ensures { BuiltAndAsked bytes.now patterns result }
{
    let mut knots = [0.0; 64];
    let mut samples = [0.0; 64];
    let mut scratch = [0.0; 2176];
    build_and_query(
        bytes,
        sheet,
        patterns,
        &mut knots,
        &mut samples,
        &mut scratch,
    )
}

// The same for any tensor that has its place there.
fn on_the_stack(bytes: &[u8], sheet: Sheet, patterns: [u64; 4]) -> Result<f64, Refusal>
    requires { SmallSheet most_on_the_stack bytes.now sheet.edition sheet.axes sheet.all }
    ensures { BuiltAndAsked bytes.now patterns result }
{
    let mut knots = [0.0; 256];
    let mut samples = [0.0; 256];
    let mut scratch = [0.0; 2560];
    build_and_query(
        bytes,
        sheet,
        patterns,
        &mut knots,
        &mut samples,
        &mut scratch,
    )
}

// The value of the surface of a sheet at the coordinates of these patterns, with the refusals of the public call.
fn value_at(bytes: &[u8], patterns: [u64; 4]) -> Result<f64, Refusal>
    ensures { Surfaced bytes.now patterns result }
{
    let sheet = look(bytes)?;
    let axes = sheet.axes;
    let numbers = grid::tensor_length(axes, sheet.all);
    if 512 < numbers {
        return Err(Refusal::Stack);
    }
    if is_unused_refused(axes, patterns) {
        return Err(Refusal::Unused);
    }
    if numbers <= 128 {
        return small_on_the_stack(bytes, sheet, patterns);
    }
    on_the_stack(bytes, sheet, patterns)
}

// PUBLIC. The pattern of the surface's value at the coordinates of four patterns, from the bytes of a sheet of either edition; each axis
// follows its mode. A refusal is answered by the pattern 7FF8000000000000 plus its number, which no value has: first the reader's
// 11 12 1 2 13 22 3 14 in reading order, then 16 a tensor of more than 512 numbers, 17 a pattern past the axes in use that is not 0, then
// the build's 7 8 9 10, and then the query's 7 18 10.
pub fn surface(bytes: &[u8], c0: u64, c1: u64, c2: u64, c3: u64) -> u64
    ensures { SurfacePromise bytes.now (c0 ∷ c1 ∷ c2 ∷ c3 ∷ []) result }
{
    answer_pattern(value_at(bytes, [c0, c1, c2, c3]))
}
