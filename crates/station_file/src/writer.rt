// The writer. A station comes as three slices, which the host lends one by one.
ghost use Rattle.std.specs.Prelude.{◌≡◌, ◌++◌, ◌+◌, ◌*◌, ◌/◌, ◌<◌, ◌≤◌, length};
ghost use Rattle.station_file.specs.Station.{form2};
ghost use Rattle.station_file.specs.Forms.{entries_of, in_file};
ghost use Rattle.station_file.specs.Write.{bytes_of, word_bytes, render_of, station_refusal, write_of};
ghost use Rattle.station_file.specs.Answers.{station_of, written_by};
ghost use Rattle.station_file.specs.Places.{form_of, test_number};

use crate::copies::{copy_bytes, put_lowest, put_words};
use crate::forms::{Form, lowest_form};
use crate::limits::{MOST_INPUTS, rom_count, sheet_count};
use crate::two_bytes::put_number;
use crate::{FileRefusal, scan};

// The station's first refusal, in the file's order. In memory a sheet is as in form 2.
#[tactic(auto, unfolding(crate::specs::Write::station_refusal))]
fn check(rom: &[u16], sheet: &[u8], inputs: &[u8]) -> Result<(), FileRefusal>
    ensures { test_number result ≡ station_refusal form2 (station_of rom.now sheet.now inputs.now) }
{
    if !rom_count(rom.len()) {
        return Err(FileRefusal::Count);
    }
    if !sheet_count(2 * rom.len(), sheet.len()) {
        return Err(FileRefusal::Count);
    }
    if !scan::entries(sheet, Form::Two) {
        return Err(FileRefusal::Entry);
    }
    if inputs.len() % 11 != 0 {
        return Err(FileRefusal::Count);
    }
    if MOST_INPUTS < inputs.len() / 11 {
        return Err(FileRefusal::Count);
    }
    if !scan::inputs(inputs) {
        return Err(FileRefusal::Entry);
    }
    Ok(())
}

// The ROM section.
fn put_rom(rom: &[u16], out: &mut [u8])
    requires few { length rom.now ≤ 1024 }
    requires room { length out.old ≡ 2 + 2 * length rom.now }
    ensures { out.new ≡ bytes_of 2 (length rom.now) ++ word_bytes rom.now }
{
    let (count, words) = out.split_at_mut(2);
    put_number(rom.len() as u16, count);
    put_words(rom, words);
}

// The sheet section.
#[tactic(auto, using(crate::proofs::Packing::length_lowest))]
fn put_sheet(sheet: &[u8], form: Form, out: &mut [u8])
    requires few { length sheet.now ≤ 2048 }
    requires room { length out.old ≡ 2 + length (entries_of (form_of form) sheet.now) }
    ensures { out.new ≡ bytes_of 2 (length sheet.now / 2) ++ entries_of (form_of form) sheet.now }
{
    let (count, entries) = out.split_at_mut(2);
    put_number((sheet.len() / 2) as u16, count);
    match form {
        Form::One => put_lowest(sheet, entries),
        Form::Two => copy_bytes(sheet, entries),
    }
}

// The inputs section.
fn put_inputs(inputs: &[u8], out: &mut [u8])
    requires few { length inputs.now / 11 ≤ 4095 }
    requires room { length out.old ≡ 2 + length inputs.now }
    ensures { out.new ≡ bytes_of 2 (length inputs.now / 11) ++ inputs.now }
{
    let (count, records) = out.split_at_mut(2);
    put_number((inputs.len() / 11) as u16, count);
    copy_bytes(inputs, records);
}

// The bytes that a sheet has in a form.
#[tactic(auto, using(crate::proofs::Packing::length_lowest))]
fn packed_length(sheet: &[u8], form: Form) -> usize
    ensures { result ≡ length (entries_of (form_of form) sheet.now) }
{
    match form {
        Form::One => sheet.len() / 2,
        Form::Two => sheet.len(),
    }
}

// The sections of a station that passes its tests, in the file's order.
#[tactic(auto, using(crate::proofs::Rendering::small_rom, crate::proofs::Rendering::small_sheet, crate::proofs::Rendering::small_inputs, crate::proofs::Rendering::sections))]
fn put_sections(rom: &[u16], sheet: &[u8], inputs: &[u8], form: Form, out: &mut [u8])
    requires good { station_refusal form2 (station_of rom.now sheet.now inputs.now) ≡ 0 }
    requires room { length out.old ≡ 8 + 2 * length rom.now + length (entries_of (form_of form) sheet.now) + length inputs.now }
    ensures { out.new ≡ render_of (form_of form) (in_file (form_of form) (station_of rom.now sheet.now inputs.now)) }
{
    let (number, rest) = out.split_at_mut(2);
    let (words, rest) = rest.split_at_mut(2 + 2 * rom.len());
    let (entries, records) = rest.split_at_mut(2 + packed_length(sheet, form));
    put_number(form.number(), number);
    put_rom(rom, words);
    put_sheet(sheet, form, entries);
    put_inputs(inputs, records);
}

// Writes a station's file to the front of the lent buffer. A refused station writes nothing.
#[tactic(auto, using(crate::proofs::Rendering::small_rom, crate::proofs::Rendering::small_sheet, crate::proofs::Packing::packed_short, crate::proofs::Rendering::refuses, crate::proofs::Rendering::full, crate::proofs::Rendering::writes))]
pub fn write(rom: &[u16], sheet: &[u8], inputs: &[u8], out: &mut [u8]) -> Result<usize, FileRefusal>
    ensures { written_by result out.new
        ≡ write_of (station_of rom.now sheet.now inputs.now) out.old }
{
    check(rom, sheet, inputs)?;
    let form = lowest_form(sheet);
    let size = 8 + 2 * rom.len() + packed_length(sheet, form) + inputs.len();
    if out.len() < size {
        return Err(FileRefusal::Room);
    }
    put_sections(rom, sheet, inputs, form, &mut out[..size]);
    Ok(size)
}
