// The machine's record and the input record: what they hold, what is in range, and reset; and why a step is refused. Both records
// are what a host in C holds.

#![tactic(auto)]

pub mod cells;
pub mod ranges;

ghost use Rattle.std.specs.Prelude.{◌≡◌};
ghost use Rattle.machine.specs.Parts.{reset_machine};
ghost use Rattle.machine.specs.Refusals.{number_of};

use memory::Memory;
use peripherals::Peripherals;

// Document 01's input record: the pins and directions of P0A to P0E, and the release bit.
#[repr(C)]
#[derive(Clone, Copy)]
pub struct Input {
    pub pins: [u8; 5],
    pub directions: [u8; 5],
    pub release: u8,
}

// PC, stack and marks. The skip mark, which document 01 calls skip pending, is 0 or 1; the standby mark, which it calls standing,
// is 0, or 1 in HALT and 2 in STOP.
#[repr(C)]
#[derive(Clone, Copy)]
pub struct Control {
    pub pc: u16,
    pub stack: [u16; 5],
    // How many levels of the stack are open.
    pub levels: u8,
    pub skip: u8,
    pub standby: u8,
}

// The machine's record.
#[repr(C)]
#[derive(Clone, Copy)]
pub struct Machine {
    pub memory: Memory,
    pub peripherals: Peripherals,
    pub control: Control,
}

// Why a step is refused: refusals 1 to 8, in their order, with 30 after 4 and 31 after 8.
#[derive(Clone, Copy, PartialEq, Eq)]
pub enum Refusal {
    OutOfRange,
    PastRom,
    NoInstruction,
    Unsupported,
    NoRegister,
    BadTarget,
    StackFull,
    StackEmpty,
    PastTable,
    MissingCell,
}

// Each refusal's number.
impl From<Refusal> for u8 {
    ghost from_gives = { λ refusal number. number ≡ number_of refusal };

    fn from(refusal: Refusal) -> u8
        ensures { result ≡ number_of refusal }
    {
        match refusal {
            Refusal::OutOfRange => 1,
            Refusal::PastRom => 2,
            Refusal::NoInstruction => 3,
            Refusal::Unsupported => 4,
            Refusal::NoRegister => 30,
            Refusal::BadTarget => 5,
            Refusal::StackFull => 6,
            Refusal::StackEmpty => 7,
            Refusal::PastTable => 8,
            Refusal::MissingCell => 31,
        }
    }
}

impl Machine {
    // The standby marks.
    pub const HALT: u8 = 1;

    pub const STOP: u8 = 2;

    pub fn reset() -> Machine
        ensures { result ≡ reset_machine }
    {
        Machine {
            memory: Memory::reset(),
            peripherals: Peripherals::reset(),
            control: Control {
                pc: 0,
                stack: [0u16; 5],
                levels: 0,
                skip: 0,
                standby: 0,
            },
        }
    }
}
