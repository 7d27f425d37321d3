// An entry of a level sheet, in the words that the clearance rules use.
ghost use Rattle.std.specs.Prelude.{◌≡◌, slice_index_or};
ghost use Rattle.sheet.specs.Entry.{unreached, entry_at, single as singleOf, reached, proper, holds, covers, raised_bytes, at_most, at_least};

use crate::{Entry, UNREACHED};

// The byte at a place, which the word's number gives; 15 past the sheet's end.
fn byte_at(sheet: &[u8], at: usize) -> u8
    ensures { result ≡ slice_index_or sheet.now at unreached }
{
    sheet.get(at).copied().unwrap_or(UNREACHED)
}

// The entry of a word. Past the sheet's end every byte is 15.
#[tactic(auto, unfolding(crate::specs::Entry::entry_at))]
pub fn entry_at(sheet: &[u8], word: u16) -> Entry
    ensures { result ≡ entry_at sheet.now word }
{
    let at = 2 * usize::from(word);
    Entry {
        lowest: byte_at(sheet, at),
        highest: byte_at(sheet, at + 1),
    }
}

impl Entry {
    // One level alone.
    pub fn single(level: u8) -> Entry
        ensures { result ≡ singleOf level }
    {
        Entry {
            lowest: level,
            highest: level,
        }
    }

    #[tactic(auto, unfolding(crate::specs::Entry::reached))]
    pub fn is_reached(self, most: u8) -> bool
        ensures { result ≡ reached most self }
    {
        self.lowest <= self.highest && self.highest <= most
    }

    #[tactic(auto, unfolding(crate::specs::Entry::proper))]
    pub fn is_proper(self, most: u8) -> bool
        ensures { result ≡ proper most self }
    {
        self.is_reached(most) || self == Entry::single(UNREACHED)
    }

    // Whether so many calls may be open at a word.
    #[tactic(auto, unfolding(crate::specs::Entry::holds))]
    pub fn has_depth(self, most: u8, depth: u8) -> bool
        ensures { result ≡ holds most self depth }
    {
        self.is_reached(most) && self.lowest <= depth && depth <= self.highest
    }

    // Whether an entry is reached and holds every depth of another.
    #[tactic(auto, unfolding(crate::specs::Entry::covers))]
    pub fn has_all_of(self, most: u8, other: Entry) -> bool
        ensures { result ≡ covers most self other }
    {
        self.is_reached(most) && self.lowest <= other.lowest && other.highest <= self.highest
    }

    // One call more. A level that a byte can't hold goes on at 0.
    #[tactic(auto, unfolding(crate::specs::Entry::raised_bytes))]
    pub fn raised(self) -> Entry
        ensures { result ≡ raised_bytes self }
    {
        Entry {
            lowest: self.lowest.wrapping_add(1),
            highest: self.highest.wrapping_add(1),
        }
    }

    #[tactic(auto, unfolding(crate::specs::Entry::at_most))]
    pub fn at_most(self, bound: u8) -> bool
        ensures { result ≡ at_most bound self }
    {
        self.highest <= bound
    }

    #[tactic(auto, unfolding(crate::specs::Entry::at_least))]
    pub fn at_least(self, bound: u8) -> bool
        ensures { result ≡ at_least bound self }
    {
        bound <= self.lowest
    }
}
