// The text that the program `station` prints.

#![tactic(auto)]

ghost use Rattle.std.specs.Prelude.{◌≡◌, ◌≤◌, length};
ghost use Rattle.transcript.specs.Finding.{why_number};
ghost use Rattle.transcript.specs.declared.WhyRefusal.TheVariants.{File};

mod explain;
mod file;
mod inputs;
mod line;
mod put;
mod steps;
mod whole;

use cpu::Count;
pub use explain::why;
pub use file::transcript;
use machine::{Machine, Refusal};
use station_file::FileRefusal;

// A lent buffer, and the place of the next byte. What does not fit is left out, and the place still moves on, so that one pass
// over a short buffer measures a text and another prints it.
#[derive(Drop)]
struct Sink<'a> {
    out: &'a mut [u8],
    at: usize,
}

// A station: its words, its sheet with two bytes an entry, and its input records, of which it has 4,095 at most.
#[derive(Clone, Copy)]
struct Station<'a> {
    rom: &'a [u16],
    sheet: &'a [u8],
    inputs: &'a [u8],
    ghost few: { length inputs.now ≤ 45045 },
}

// A step that wrote the cell: the record's number, the PC and the word before it, and the nibble after it.
#[derive(Clone, Copy)]
struct Writer {
    number: u16,
    pc: u16,
    word: u16,
    nibble: u8,
}

// How far the records have come: the machine, the steps completed with their cycles, and the refusal.
#[derive(Clone, Copy)]
struct Progress {
    machine: Machine,
    count: Count,
    refusal: Option<Refusal>,
}

// Why a request is refused: as its file is, or with 32 for a cell above 7FH, or with 33 for more records than there are.
#[derive(Clone, Copy)]
enum WhyRefusal {
    File(FileRefusal),
    Cell,
    Count,
}

impl From<FileRefusal> for WhyRefusal {
    ghost from_gives = { λ refusal why. why ≡ File refusal };

    fn from(refusal: FileRefusal) -> WhyRefusal {
        WhyRefusal::File(refusal)
    }
}

impl From<WhyRefusal> for u8 {
    ghost from_gives = { λ refusal number. number ≡ why_number refusal };

    fn from(refusal: WhyRefusal) -> u8 {
        match refusal {
            WhyRefusal::File(refusal) => u8::from(refusal),
            WhyRefusal::Cell => 32,
            WhyRefusal::Count => 33,
        }
    }
}
