// From a word to the row in which it stands.
ghost use Rattle.std.specs.Prelude.{◌≡◌};
ghost use Rattle.listing.specs.Rows.{decoded_row_of};
ghost use Rattle.listing.specs.Patterns.{decoded_row};

use crate::DecodedRow;
use crate::table::{Fields, patterns};

// A word stands in the row that makes it again of what stands in its fields.
fn find(word: u16) -> Option<(u8, Fields)>
    ensures { decoded_row result ≡ decoded_row_of word }
{
    let table = patterns();
    for (row, pattern) in table.iter().enumerate() {
        let operands = pattern.fields_in(word);
        if pattern.join(operands) == word {
            return Some((row as u8, operands));
        }
    }
    None
}

// The row of a word, and its operands, as C reads them: 3 for a word that is no instruction.
pub fn decode(word: u16) -> DecodedRow
    ensures { result ≡ decoded_row_of word }
{
    match find(word) {
        Some((row, operands)) => DecodedRow {
            number: 0,
            row,
            first: operands.first,
            second: operands.second,
            addr: operands.addr,
        },
        None => DecodedRow {
            number: 3,
            row: 0,
            first: 0,
            second: 0,
            addr: 0,
        },
    }
}
