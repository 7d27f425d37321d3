// The control registers for ports and timer, the modulo register, the counter and its clock divider: document 02, E4. All is
// total: what a step refuses is told by the caller, from `in_file`, TMC and TMM, and `in_range`.

#![tactic(auto)]

mod clock;
mod parts;
mod ports;
mod ranges;
mod registers;

ghost use Rattle.std.specs.Prelude.{◌≡◌};
ghost use Rattle.peripherals.specs.Registers.{reset_peripherals};

pub use ports::directions;
pub use ranges::in_range;
pub use registers::{in_file, peek, poke};

#[repr(C)]
#[derive(Clone, Copy)]
pub struct Peripherals {
    // 11H, 12H, 24H, 32H, 33H, 34H and 35H of the register file.
    pub registers: [u8; 7],
    pub modulo: u8,
    pub counter: u8,
    // Cycles since reset, modulo 128.
    pub divider: u8,
}

// The peripherals without their registers, which stand apart while the machine steps: POKE changes these where they are.
#[derive(Clone, Copy)]
pub struct Timer {
    pub modulo: u8,
    pub counter: u8,
    pub divider: u8,
    // So many cycles move the divider and nothing else; 0 where that is not known. Two bytes, since the compiler takes four fields of
    // one for one number, and packs it in every step.
    pub quiet: u16,
}

impl Peripherals {
    // The registers' places: the timer's mode and output, port 0B as a group, the other ports bit by bit.
    pub const TM: usize = 0;

    pub const TMO: usize = 1;

    pub const P0BGIO: usize = 2;

    pub const P0EBIO: usize = 3;

    pub const P0DBIO: usize = 4;

    pub const P0CBIO: usize = 5;

    pub const P0ABIO: usize = 6;

    // The flags of TM, the one of TMO and the one of P0BGIO.
    pub const TMEN: u8 = 0b1000;

    pub const TMRES: u8 = 0b0100;

    pub const TMOSEL: u8 = 0b0001;

    pub const GROUP: u8 = 0b0001;

    // The peripherals: GET reads the counter, PUT writes the modulo register.
    pub const TMC: u8 = 0x02;

    pub const TMM: u8 = 0x03;

    // From here on the register file is data memory.
    pub const DATA: u8 = 0x40;

    // The timer runs with fx/256, and every pin is an input.
    pub fn reset() -> Peripherals
        ensures { result ≡ reset_peripherals }
    {
        Peripherals {
            registers: [0b1000, 0, 0, 0, 0, 0, 0],
            modulo: 0xFF,
            counter: 0,
            divider: 0,
        }
    }
}
