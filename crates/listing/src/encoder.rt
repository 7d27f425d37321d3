// From a row and its operands to the word.
ghost use Rattle.std.specs.Prelude.{◌≡◌};
ghost use Rattle.listing.specs.Patterns.{number_of, encoded_row};
ghost use Rattle.listing.specs.Table.{fields};
ghost use Rattle.listing.specs.Rows.{encoded_row_of};

use crate::EncodedRow;
use crate::table::{Fields, patterns};

// Why a row and its operands have no word.
#[derive(Clone, Copy, Debug, PartialEq, Eq)]
enum NoWord {
    // The row is past the list.
    NoRow,
    // An operand is too large, or one that the row lacks.
    TooLarge,
}

impl From<NoWord> for u8 {
    ghost from_gives = { λ refusal number. number ≡ number_of refusal };

    fn from(refusal: NoWord) -> u8
        ensures { result ≡ number_of refusal }
    {
        match refusal {
            NoWord::NoRow => 1,
            NoWord::TooLarge => 10,
        }
    }
}

// Operands that are too large for their fields, or have none, do not come back from the word. The list is built behind the row's
// test, and the answer is inlined where C reads it: with the list before the test a call took ten times as long.
#[inline(always)]
fn word_of(row: u8, operands: Fields) -> Result<u16, NoWord>
    ensures { encoded_row result ≡ encoded_row_of row operands }
{
    if 47 <= row {
        return Err(NoWord::NoRow);
    }
    let table = patterns();
    let pattern = table[usize::from(row)];
    let word = pattern.join(operands);
    let back = pattern.fields_in(word);
    if back == operands {
        Ok(word)
    } else {
        Err(NoWord::TooLarge)
    }
}

// The word of a row and its operands, as C reads it.
pub fn encode(row: u8, first: u8, second: u8, addr: u16) -> EncodedRow
    ensures { result ≡ encoded_row_of row (fields first second addr) }
{
    let operands = Fields {
        first,
        second,
        addr,
    };
    match word_of(row, operands) {
        Ok(word) => EncodedRow { number: 0, word },
        Err(refusal) => EncodedRow {
            number: u8::from(refusal),
            word: 0,
        },
    }
}
