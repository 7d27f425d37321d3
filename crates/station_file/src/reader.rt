// The reader.
ghost use Rattle.std.specs.Prelude.{◌≡◌, length};
ghost use Rattle.station_file.specs.Forms.{ranges_of};
ghost use Rattle.station_file.specs.Read.{read_of};
ghost use Rattle.station_file.specs.Answers.{buffers_of, read_by};
ghost use Rattle.station_file.specs.Places.{form_of};

use crate::copies::{copy_bytes, double_bytes, read_words};
use crate::forms::{Form, form_of};
use crate::sections::parse;
use crate::{FileRefusal, Loaded};

// The entries of a file, with two bytes each.
#[tactic(auto, using(crate::proofs::Packing::length_doubled))]
fn read_entries(bytes: &[u8], form: Form, sheet: &mut [u8])
    requires { length sheet.old ≡ length (ranges_of (form_of form) bytes.now) }
    ensures { sheet.new ≡ ranges_of (form_of form) bytes.now }
{
    match form {
        Form::One => double_bytes(bytes, sheet),
        Form::Two => copy_bytes(bytes, sheet),
    }
}

// Reads a file into the lent buffers, with two bytes to a sheet entry. A refused file writes nothing.
#[tactic(auto, using(crate::proofs::Placing::refuses, crate::proofs::Placing::rom_full, crate::proofs::Placing::sheet_full, crate::proofs::Placing::inputs_full, crate::proofs::Placing::entries_room, crate::proofs::Placing::fills))]
pub fn read(
    file: &[u8],
    rom: &mut [u16],
    sheet: &mut [u8],
    inputs: &mut [u8],
) -> Result<Loaded, FileRefusal>
    ensures { read_by result (buffers_of rom.new sheet.new inputs.new)
        ≡ read_of file.now (buffers_of rom.old sheet.old inputs.old) }
{
    let form = form_of(file);
    let sections = parse(file, form)?;
    let words = sections.rom.len() / 2;
    let entries = sections.sheet.len() / form.entry_bytes();
    let bytes = sections.inputs.len();
    if rom.len() < words {
        return Err(FileRefusal::Room);
    }
    if sheet.len() / 2 < entries {
        return Err(FileRefusal::Room);
    }
    if inputs.len() < bytes {
        return Err(FileRefusal::Room);
    }
    read_words(sections.rom, &mut rom[..words]);
    read_entries(sections.sheet, form, &mut sheet[..2 * entries]);
    copy_bytes(sections.inputs, &mut inputs[..bytes]);
    Ok(Loaded {
        words,
        entries,
        records: bytes / 11,
    })
}
