// The packed sheet: its reader, and the reader of its first edition.

#![tactic(auto)]

ghost use Rattle.std.specs.Prelude.{◌≡◌};
ghost use Rattle.sheet_read.specs.Read.{read_told, edition_1_told, ReadPromise, Edition1Promise};

use crate::look::look;
use crate::store::store_parts;
use base_bits::{field_at, is_short};
use grid_codes::classes::is_unread;
use rules::{Axis, Refusal};

pub mod axes; // axes.rt: the axes of a sheet, one after the other
pub mod heads; // heads.rt: the head of an axis, read once
pub mod look; // look.rt: all of a sheet, up to its first fault
pub mod store; // store.rt: knots and samples of a sheet that has no fault, stored

// What a sheet says: its edition, how many axes there are, and the four axes.
#[derive(Clone, Copy)]
pub struct Sheet {
    pub edition: usize,
    pub axes: usize,
    pub all: [Axis; 4],
}

// The same without the edition.
#[derive(Clone, Copy)]
pub struct Edition1Sheet {
    pub axes: usize,
    pub all: [Axis; 4],
}

// PUBLIC. Reads a sheet of either edition: its edition and its axes with their ends and modes are given, its knots, axis after axis,
// and its samples go to the first places of the two buffers. Refuses a buffer of another length than 1,024 by 4, and then by the first
// fault in reading order: 11 a field behind the last bit, 12 an edition that is neither 1 nor 2, 1 no axis or too many, 2 an axis of one
// point, 13 Periodic at one of its ends alone, 22 a number that is no mode, 3 a tensor of more than 4,096 numbers, 14 more than zeros up
// to a whole byte. A refusal changes neither buffer.
pub fn read(bytes: &[u8], knots: &mut [f64], samples: &mut [f64]) -> Result<Sheet, Refusal>
    ensures { ReadPromise bytes.now knots.old samples.old (read_told result) knots.new samples.new }
{
    if knots.len() != 1024 {
        return Err(Refusal::Length);
    }
    if samples.len() != 1024 {
        return Err(Refusal::Length);
    }
    let sheet = match look(bytes) {
        Ok(sheet) => sheet,
        Err(refusal) if is_unread(refusal.number()) => return Err(refusal),
        // Every fault of a sheet is of the class Reading.
        Err(_) => unreachable!(),
    };
    let all = sheet.all;
    store_parts(bytes, sheet.edition, sheet.axes, all, knots, samples);
    Ok(sheet)
}

// PUBLIC. Reads a sheet of edition 1, and of no other: it gives and stores what `read` does, and refuses by the same numbers without 22,
// whose field edition 1 does not have; 12 is any edition other than 1. After 12 nothing of the sheet shows.
pub fn read_edition_1(
    bytes: &[u8],
    knots: &mut [f64],
    samples: &mut [f64],
) -> Result<Edition1Sheet, Refusal>
    ensures { Edition1Promise bytes.now knots.old samples.old (edition_1_told result) knots.new samples.new }
{
    if knots.len() != 1024 {
        return Err(Refusal::Length);
    }
    if samples.len() != 1024 {
        return Err(Refusal::Length);
    }
    if is_short(bytes, 0, 4) {
        return Err(Refusal::Short);
    }
    if field_at(bytes, 0, 4) != 1 {
        return Err(Refusal::Edition);
    }
    let sheet = read(bytes, knots, samples)?;
    let all = sheet.all;
    Ok(Edition1Sheet {
        axes: sheet.axes,
        all,
    })
}
