// What is written to a lent buffer, each to a part of it that it fills. Elements go by an index: of what a `zip` of `iter_mut` writes a
// proof knows nothing.
ghost use Rattle.std.specs.Prelude.{◌≡◌, ◌*◌, ◌/◌, length};
ghost use Rattle.station_file.specs.Answers.{written_by};
ghost use Rattle.station_file.specs.Forms.{doubled, lowest_of};
ghost use Rattle.station_file.specs.Write.{word_bytes, widen_of};
ghost use Rattle.station_file.specs.Places.{words_of};

use crate::FileRefusal;

// Bytes as they are. One by one: `copy_from_slice` needs a name more of C's library, `memmove`, which an archive then asks of its host.
#[tactic(auto, using(std::proofs::lemmas::List::ext_get_or))]
pub(crate) fn copy_bytes(bytes: &[u8], out: &mut [u8])
    requires { length out.old ≡ length bytes.now }
    ensures { out.new ≡ bytes.now }
{
    for (i, byte) in out.iter_mut().enumerate() {
        *byte = bytes[i];
    }
}

#[tactic(auto, using(crate::proofs::WordLists::words_by_index))]
pub(crate) fn read_words(bytes: &[u8], rom: &mut [u16])
    requires { length rom.old ≡ length bytes.now / 2 }
    ensures { rom.new ≡ words_of bytes.now }
{
    for (i, word) in rom.iter_mut().enumerate() {
        *word = u16::from_be_bytes([bytes[2 * i], bytes[2 * i + 1]]);
    }
}

pub(crate) fn put_words(rom: &[u16], out: &mut [u8])
    requires { length out.old ≡ 2 * length rom.now }
    ensures { out.new ≡ word_bytes rom.now }
{
    for (i, word) in rom.iter().enumerate() {
        out[2 * i..2 * i + 2].copy_from_slice(&word.to_be_bytes());
    }
}

// Each level twice.
#[tactic(auto, using(crate::proofs::Packing::doubled_by_index))]
pub(crate) fn double_bytes(levels: &[u8], out: &mut [u8])
    requires { length out.old ≡ 2 * length levels.now }
    ensures { out.new ≡ doubled levels.now }
{
    for (i, level) in levels.iter().enumerate() {
        out[2 * i] = *level;
        out[2 * i + 1] = *level;
    }
}

// The lowest level of each entry of a sheet.
#[tactic(auto, using(crate::proofs::Packing::lowest_by_index))]
pub(crate) fn put_lowest(sheet: &[u8], out: &mut [u8])
    requires { length out.old ≡ length sheet.now / 2 }
    ensures { out.new ≡ lowest_of sheet.now }
{
    for (i, level) in out.iter_mut().enumerate() {
        *level = sheet[2 * i];
    }
}

// Makes a sheet of single levels into one of ranges, at the front of the lent buffer. A buffer that is too short stays as it is.
#[tactic(auto, using(crate::proofs::Widened::too_short, crate::proofs::Widened::widens))]
pub fn widen(levels: &[u8], out: &mut [u8]) -> Result<usize, FileRefusal>
    ensures { written_by result out.new ≡ widen_of levels.now out.old }
{
    if out.len() / 2 < levels.len() {
        return Err(FileRefusal::Room);
    }
    let size = 2 * levels.len();
    double_bytes(levels, &mut out[..size]);
    Ok(size)
}
