// Whether the bytes of a sheet or of input records are in range. The reader scans the part of a section that its file has, and the
// writer a whole list.
ghost use Rattle.std.specs.Prelude.{◌≡◌, nat_lt};
ghost use Rattle.std.specs.List.{list_all};
ghost use Rattle.sheet.specs.Entry.{proper, single};
ghost use Rattle.station_file.specs.Station.{most_level, input_byte, entry_byte};
ghost use Rattle.station_file.specs.Write.{every_at};
ghost use Rattle.station_file.specs.Places.{form_of, proper_ranges};

use crate::forms::Form;
use sheet::Entry;

// The highest level of a sheet in a file.
const MOST_LEVEL: u8 = 5;

// Each byte is a level or 15.
fn proper_levels(bytes: &[u8]) -> bool
    ensures { result ≡ list_all (λ b. proper most_level (single b)) bytes.now }
{
    bytes
        .iter()
        .all(|level| Entry::single(*level).is_proper(MOST_LEVEL))
}

// Each two bytes are the levels of an entry, and the last alone may be one.
fn proper_ranges(bytes: &[u8]) -> bool
    ensures { result ≡ proper_ranges bytes.now }
{
    let mut left = bytes;
    while let [lowest, highest, rest @ ..] = left {
        let entry = Entry {
            lowest: *lowest,
            highest: *highest,
        };
        if !entry.is_proper(MOST_LEVEL) {
            return false;
        }
        left = rest;
    }
    proper_levels(left)
}

// The bytes of a sheet, the last entry of which may be cut.
#[tactic(auto, using(crate::proofs::EntryBytes::levels_are, crate::proofs::EntryBytes::ranges_are))]
pub(crate) fn entries(bytes: &[u8], form: Form) -> bool
    ensures { result ≡ every_at (entry_byte (form_of form) bytes.now) 0 bytes.now }
{
    match form {
        Form::One => proper_levels(bytes),
        Form::Two => proper_ranges(bytes),
    }
}

// Each byte is a pin or a direction.
fn nibbles(bytes: &[u8]) -> bool
    ensures { result ≡ list_all (λ b. nat_lt b 16) bytes.now }
{
    bytes.iter().all(|nibble| *nibble < 16)
}

// Five pins, five directions and a release bit.
#[tactic(auto, using(crate::proofs::InputBytes::record_is))]
fn proper_record(bytes: &[u8; 11]) -> bool
    ensures { result ≡ every_at input_byte 0 bytes.now }
{
    let release = bytes[10];
    nibbles(&bytes[..10]) && release < 2
}

// The bytes of input records, the last of which may be cut. It takes a record at a time, which is quicker than byte by byte.
#[tactic(auto, using(crate::proofs::InputBytes::records_are, crate::proofs::InputBytes::nibbles_are))]
pub(crate) fn inputs(bytes: &[u8]) -> bool
    ensures { result ≡ every_at input_byte 0 bytes.now }
{
    let mut left = bytes;
    while let Some((whole, rest)) = left.split_first_chunk::<11>() {
        if !proper_record(whole) {
            return false;
        }
        left = rest;
    }
    nibbles(left)
}
