// Data memory: 128 nibbles, eight rows of sixteen. The cells are an array by value, and one at a time is written; the model goes beside
// the array, which the cell write takes and returns alone. The registers that stand in it: effective addresses, WR, AR, IX and the data
// buffer.

#![tactic(auto)]

mod addressing;
mod cells;
mod lamps;
mod masks;
mod models;
mod registers;

ghost use Rattle.std.specs.Prelude.{◌≡◌};
ghost use Rattle.memory.specs.Range.{reset_memory};

pub use addressing::{address, indirect, ix, register};
pub use cells::{is_set, read, store, with_flag, write};
pub use lamps::image;
pub use masks::mask;
pub use registers::{
    ar, buffer, increment_ar, increment_ix, low_byte, window, write_ar, write_buffer,
    write_low_byte,
};

// A chip that a board may have.
#[derive(Clone, Copy, PartialEq, Eq)]
pub enum Model {
    Upd17132,
    Upd17120,
}

#[repr(C)]
#[derive(Clone, Copy)]
pub struct Memory {
    pub cells: [u8; 128],
}

impl Memory {
    // The data buffer, highest nibble first.
    pub const DBF3: u8 = 0x0C;

    pub const DBF2: u8 = 0x0D;

    pub const DBF1: u8 = 0x0E;

    pub const DBF0: u8 = 0x0F;

    // The ports.
    pub const P0E: u8 = 0x6F;

    pub const P0A: u8 = 0x70;

    pub const P0B: u8 = 0x71;

    pub const P0C: u8 = 0x72;

    pub const P0D: u8 = 0x73;

    // The system registers. IXH and IXM are MPH and MPL too.
    pub const AR3: u8 = 0x74;

    pub const AR2: u8 = 0x75;

    pub const AR1: u8 = 0x76;

    pub const AR0: u8 = 0x77;

    pub const WR: u8 = 0x78;

    pub const BANK: u8 = 0x79;

    pub const IXH: u8 = 0x7A;

    pub const IXM: u8 = 0x7B;

    pub const IXL: u8 = 0x7C;

    pub const RPH: u8 = 0x7D;

    pub const RPL: u8 = 0x7E;

    pub const PSW: u8 = 0x7F;

    // The flags of PSW, the one of RPL and the one of IXH.
    pub const CMP: u8 = 0b1000;

    pub const CY: u8 = 0b0100;

    pub const Z: u8 = 0b0010;

    pub const IXE: u8 = 0b0001;

    pub const BCD: u8 = 0b0001;

    pub const MPE: u8 = 0b1000;

    // All zeros.
    pub fn reset() -> Memory
        ensures { result ≡ reset_memory }
    {
        Memory { cells: [0u8; 128] }
    }
}
