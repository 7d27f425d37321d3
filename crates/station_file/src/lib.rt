// The station file: its reader and its writer.

#![tactic(auto)]

ghost use Rattle.std.specs.Prelude.{◌≡◌};
ghost use Rattle.station_file.specs.Answers.{file_number};

mod copies;
mod forms;
mod limits;
mod reader;
mod scan;
mod sections;
mod two_bytes;
mod writer;

pub use copies::widen;
pub use reader::read;
pub use writer::write;

// Why a file or a station is refused: refusals 20 to 25, in their order.
#[derive(Clone, Copy, Debug, PartialEq, Eq)]
pub enum FileRefusal {
    Form,
    Early,
    Count,
    Entry,
    After,
    Room,
}

impl From<FileRefusal> for u8 {
    ghost from_gives = { λ refusal number. number ≡ file_number refusal };

    fn from(refusal: FileRefusal) -> u8 {
        match refusal {
            FileRefusal::Form => 20,
            FileRefusal::Early => 21,
            FileRefusal::Count => 22,
            FileRefusal::Entry => 23,
            FileRefusal::After => 24,
            FileRefusal::Room => 25,
        }
    }
}

// How much the reader wrote to each buffer.
#[derive(Clone, Copy, Debug, PartialEq, Eq)]
pub struct Loaded {
    pub words: usize,
    pub entries: usize,
    pub records: usize,
}
