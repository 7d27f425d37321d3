// A cell as an instruction reads it, and the register file: PEEK, POKE, GET and PUT.
ghost use Rattle.std.specs.Prelude.{◌≡◌, ℕ};
ghost use Rattle.memory.specs.Chip.{chip_of};
ghost use Rattle.memory.specs.Names.{WR};
ghost use Rattle.memory.specs.Write.{writes_applied, write_of};
ghost use Rattle.peripherals.specs.Pace.{Quiet};
ghost use Rattle.peripherals.specs.Parts.{with_timer};
ghost use Rattle.operations.specs.Data.{data_with, read_at};
ghost use Rattle.operations.specs.Settings.{settings_of};
ghost use Rattle.operations.specs.Writes.{file_at, poke_writes};

use crate::Ports;
use isa::Instruction;
use memory::{Memory, Model};
use peripherals::{Peripherals, Timer};

// A cell, with the ports' directions from the control registers.
pub fn read(model: Model, cells: &[u8; 128], ports: Ports<'_>, at: u8) -> u8
    ensures { result ≡ read_at (chip_of model) (data_with cells.now ports.entry) at }
{
    let directions = peripherals::directions(*ports.registers);
    memory::read(model, cells, ports.pins, &directions, at)
}

// What stands in the register file.
#[tactic(auto, unfolding(crate::specs::Writes::file_at))]
fn held(model: Model, cells: &[u8; 128], ports: Ports<'_>, rf: u8) -> u8
    ensures { result ≡ file_at (chip_of model) (data_with cells.now ports.entry) rf }
{
    if Peripherals::DATA <= rf {
        return read(model, cells, ports, rf);
    }
    peripherals::peek(*ports.registers, rf)
}

// PEEK: it goes to WR.
pub fn peek(model: Model, cells: &mut [u8; 128], ports: Ports<'_>, rf: u8)
    ensures { cells.new ≡ write_of (chip_of model) cells.old WR (file_at (chip_of model) (data_with cells.old ports.entry) rf) }
{
    let v = held(model, cells, ports, rf);
    memory::store(model, cells, Memory::WR, v);
}

// POKE of a data cell; of a control register it writes no cell.
#[tactic(auto, unfolding(crate::specs::Writes::poke_writes, memory::specs::Write::writes_applied))]
pub fn poke(model: Model, cells: &mut [u8; 128], rf: u8)
    ensures { cells.new ≡ writes_applied (chip_of model) cells.old (poke_writes cells.old rf) }
{
    if rf < Peripherals::DATA {
        return;
    }
    let wr = memory::window(cells);
    memory::store(model, cells, rf, wr);
}

// What an instruction makes of the peripherals, the registers where they stand. A timer that is as quiet as it says stays so.
#[tactic(auto, unfolding(crate::specs::Settings::settings_of))]
pub fn set(
    cells: &[u8; 128],
    registers: &mut [u8; 7],
    timer: Timer,
    instruction: Instruction,
) -> Timer
    ensures { (with_timer registers.new result ≡ settings_of cells.now (with_timer registers.old timer) instruction) × ((pulse : ℕ) → Quiet (with_timer registers.old timer) pulse timer.quiet → Quiet (with_timer registers.new result) pulse result.quiet) }
{
    match instruction {
        Instruction::Poke(rf) if rf < Peripherals::DATA => {
            peripherals::poke(registers, timer, rf, memory::window(cells))
        }
        Instruction::Put(_) => timer.with_modulo(memory::low_byte(cells)),
        _ => timer,
    }
}
