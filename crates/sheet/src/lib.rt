// The level sheet: what an entry says, and the depths that many entries hold. `most` is the number of levels of the chip's stack: the
// model has it and the sheet does not, so it is passed beside an entry.

#![tactic(auto)]

mod depths;
mod range;

pub use depths::{shares_any, with_depths};
pub use range::entry_at;

// Both halves of the entry of a word that is never reached, and what a table of depths has where it has none. A number, since it
// stands in the sheet's bytes, and in one half alone of an entry that breaks rule 2.
pub const UNREACHED: u8 = 15;

// The lowest and the highest number of open calls at a word; 15 and 15 where it is never reached.
#[derive(Clone, Copy, Debug, PartialEq, Eq)]
pub struct Entry {
    pub lowest: u8,
    pub highest: u8,
}
