// The file's sections, in their order. Nothing is written here.
ghost use Rattle.std.specs.Prelude.{◌≡◌, ℕ, Bool, List, ◌≤◌};
ghost use Rattle.station_file.specs.Station.{rom_section, sheet_section, input_section, ended, parse_of};
ghost use Rattle.station_file.specs.Places.{words_of, form_of, read_as, IsTest, IsTestOfBytes, section_of, ended_as, station_in};

use crate::forms::Form;
use crate::limits::{MOST_INPUTS, rom_count, sheet_count};
use crate::two_bytes::read_number;
use crate::{FileRefusal, scan};

// The bytes of each section of a good file, without its count.
#[derive(Clone, Copy)]
pub(crate) struct Sections<'a> {
    pub(crate) rom: &'a [u8],
    pub(crate) sheet: &'a [u8],
    pub(crate) inputs: &'a [u8],
}

// The elements of a section, of so many bytes each, and what is left after it. The count comes first; a fault of the bytes that the
// file has comes before its end.
fn section<'a, C: Fn(usize) -> bool, P: Fn(&[u8]) -> bool>(
    file: &'a [u8],
    width: usize,
    allowed: C,
    proper: P,
) -> Result<(&'a [u8], &'a [u8]), FileRefusal>
    requires width { width ≤ 11 }
    requires count { C.IsAlwaysCallable allowed }
    requires bytes { P.IsAlwaysCallable proper }
    ensures { (count : ℕ → Bool) (test : List ℕ → Bool) → IsTest C.Fn allowed count → IsTestOfBytes P.Fn proper test → read_as (λ bytes. bytes.now) result ≡ section_of count test width file.now }
{
    let (count, rest) = read_number(file)?;
    let count = usize::from(count);
    if !allowed(count) {
        return Err(FileRefusal::Count);
    }
    let size = width * count;
    if !proper(&rest[..size.min(rest.len())]) {
        return Err(FileRefusal::Entry);
    }
    if rest.len() < size {
        return Err(FileRefusal::Early);
    }
    Ok(rest.split_at(size))
}

fn rom_section(file: &[u8]) -> Result<(&[u8], &[u8]), FileRefusal>
    ensures { read_as (λ bytes. words_of bytes.now) result ≡ rom_section file.now }
{
    section(file, 2, rom_count, |_| true)
}

fn sheet_section(file: &[u8], words: usize, form: Form) -> Result<(&[u8], &[u8]), FileRefusal>
    ensures { read_as (λ bytes. bytes.now) result ≡ sheet_section (form_of form) words file.now }
{
    section(
        file,
        form.entry_bytes(),
        |count| sheet_count(words, count),
        |bytes| scan::entries(bytes, form),
    )
}

fn input_section(file: &[u8]) -> Result<(&[u8], &[u8]), FileRefusal>
    ensures { (form : _) → read_as (λ bytes. bytes.now) result ≡ input_section (form_of form) file.now }
{
    section(file, 11, |count| count <= MOST_INPUTS, scan::inputs)
}

// Nothing comes after the last section.
#[tactic(auto, using(crate::proofs::Parsing::ends, crate::proofs::Parsing::goes_on))]
fn ended(rest: &[u8]) -> Result<(), FileRefusal>
    ensures { (station : _) → ended_as station result ≡ ended station rest.now }
{
    if !rest.is_empty() {
        return Err(FileRefusal::After);
    }
    Ok(())
}

// The sections of a file, or its first refusal.
#[tactic(auto, using(crate::proofs::WordLists::length_words), unfolding(crate::specs::Station::parse_of))]
pub(crate) fn parse(file: &[u8], form: Form) -> Result<Sections<'_>, FileRefusal>
    ensures { station_in result ≡ parse_of (form_of form) file.now }
{
    let (number, rest) = read_number(file)?;
    if number != form.number() {
        return Err(FileRefusal::Form);
    }
    let (rom, rest) = rom_section(rest)?;
    let (sheet, rest) = sheet_section(rest, rom.len() / 2, form)?;
    let (inputs, rest) = input_section(rest)?;
    ended(rest)?;
    Ok(Sections { rom, sheet, inputs })
}
