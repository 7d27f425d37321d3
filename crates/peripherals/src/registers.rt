// PEEK and POKE of a control register.
ghost use Rattle.std.specs.Prelude.{◌≡◌, ◌<◌, MatchOption};
ghost use Rattle.peripherals.specs.Table.{stays_at};
ghost use Rattle.peripherals.specs.Registers.{place_of, is_control, in_file, peek_of, cleared_of, poke_of};
ghost use Rattle.peripherals.specs.Parts.{with_timer};

use crate::{Peripherals, Timer};

// The bits that stay at each place.
const MASKS: [u8; 7] = [0b1011, 0b0001, 0b0001, 0b0011, 0b1111, 0b1111, 0b1111];

// Where the register with this address stands.
#[tactic(auto, unfolding(crate::specs::Table::control_registers))]
fn place(rf: u8) -> Option<usize>
    ensures { MatchOption result (place_of rf ≡ 7) (λ at. (at ≡ place_of rf) × (at < 7)) }
{
    match rf {
        0x11 => Some(Peripherals::TM),
        0x12 => Some(Peripherals::TMO),
        0x24 => Some(Peripherals::P0BGIO),
        0x32 => Some(Peripherals::P0EBIO),
        0x33 => Some(Peripherals::P0DBIO),
        0x34 => Some(Peripherals::P0CBIO),
        0x35 => Some(Peripherals::P0ABIO),
        _ => None,
    }
}

#[tactic(auto, unfolding(crate::specs::Table::control_registers))]
pub(crate) fn mask(at: usize) -> u8
    requires { at < 7 }
    ensures { result ≡ stays_at at }
{
    MASKS[at]
}

// Whether there is a control register with this address.
#[tactic(auto, unfolding(crate::specs::Registers::is_control, crate::specs::Table::control_registers))]
fn is_control(rf: u8) -> bool
    ensures { result ≡ is_control rf }
{
    place(rf).is_some()
}

// Whether the register file has this address: data memory, and the control registers.
#[tactic(auto, unfolding(crate::specs::Registers::in_file))]
pub fn in_file(rf: u8) -> bool
    ensures { result ≡ in_file rf }
{
    Peripherals::DATA <= rf || is_control(rf)
}

// The register with this address, or 0 where there is none.
#[tactic(auto, unfolding(crate::specs::Registers::peek_of))]
pub fn peek(registers: [u8; 7], rf: u8) -> u8
    ensures { result ≡ peek_of registers rf }
{
    match place(rf) {
        Some(at) => registers[at],
        None => 0,
    }
}

// The counter after a write: 0 where the write has TMRES.
fn cleared(at: usize, v: u8, counter: u8) -> u8
    ensures { result ≡ cleared_of at v counter }
{
    if at == Peripherals::TM && v & Peripherals::TMRES != 0 {
        0
    } else {
        counter
    }
}

// The register with this address written; where there is none nothing changes.
#[tactic(auto, unfolding(crate::specs::Registers::poke_of))]
fn poked(p: Peripherals, rf: u8, v: u8) -> Peripherals
    ensures { result ≡ poke_of p rf v }
{
    let Some(at) = place(rf) else {
        return p;
    };
    let mut registers = p.registers;
    registers[at] = v & mask(at);
    Peripherals {
        registers,
        counter: cleared(at, v, p.counter),
        ..p
    }
}

// The same on the registers where they stand, with the timer after it.
pub fn poke(registers: &mut [u8; 7], timer: Timer, rf: u8, v: u8) -> Timer
    ensures { (with_timer registers.new result ≡ poke_of (with_timer registers.old timer) rf v) × (result.quiet ≡ 0) }
{
    let p = poked(timer.with(*registers), rf, v);
    let held = p.registers;
    *registers = held;
    Timer::from(p)
}
