// The manual's list of the instruction set (18.3) for C: a word as the row in which it stands and its operands, and back. Rows
// are numbered from 0 in the list's order; operands stand as in its column "Operand".

#![tactic(auto)]

mod decoder;
mod encoder;
mod table;

pub use decoder::decode;
pub use encoder::encode;

// What a word is: number 0 with its row and operands, those that the row lacks 0; or refusal 3 and zeros. A program address
// stands in `addr`, any other operand in `first` and `second`.
#[repr(C)]
#[derive(Clone, Copy)]
pub struct DecodedRow {
    pub number: u8,
    pub row: u8,
    pub first: u8,
    pub second: u8,
    pub addr: u16,
}

// The word of a row and its operands with number 0, or a refusal and word 0.
#[repr(C)]
#[derive(Clone, Copy)]
pub struct EncodedRow {
    pub number: u8,
    pub word: u16,
}
