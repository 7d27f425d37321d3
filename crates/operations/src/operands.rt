// The effective addresses of operands, found before anything is written.
ghost use Rattle.std.specs.Prelude.{◌≡◌, cond};
ghost use Rattle.memory.specs.Chip.{chip_of};
ghost use Rattle.peripherals.specs.Registers.{is_data};
ghost use Rattle.operations.specs.Data.{data_with};
ghost use Rattle.operations.specs.Operands.{address_in, addresses_of, indirect, lacks_at, no_cell};

use crate::file::read;
use crate::{Addresses, Ports};
use isa::Instruction;
use memory::Model;
use peripherals::Peripherals;

// An address that no cell has. No Option stands for it: the definition `addresses_of` has this number.
const NO_CELL: u8 = 128;

// The address of @r.
#[tactic(auto, unfolding(crate::specs::Operands::address_in))]
fn pointer(model: Model, cells: &[u8; 128], ports: Ports<'_>, m: u8, r: u8) -> u8
    ensures { result ≡ address_in (chip_of model) (data_with cells.now ports.entry) (indirect m r) }
{
    let from = memory::register(cells, r);
    let column = read(model, cells, ports, from);
    memory::indirect(cells, m, column)
}

fn both(to: u8, from: u8) -> Addresses
    ensures { result ≡ record { to = to; from = from; pointer = no_cell } }
{
    Addresses {
        to,
        from,
        pointer: NO_CELL,
    }
}

// The address of rf, where that is a cell.
fn file(rf: u8) -> u8
    ensures { result ≡ cond (is_data rf) rf no_cell }
{
    if Peripherals::DATA <= rf {
        return rf;
    }
    NO_CELL
}

#[tactic(auto, unfolding(crate::specs::Operands::address_in, crate::specs::Operands::addresses_of))]
pub fn locate(
    model: Model,
    cells: &[u8; 128],
    ports: Ports<'_>,
    instruction: Instruction,
) -> Addresses
    ensures { result ≡ addresses_of (chip_of model) (data_with cells.now ports.entry) instruction }
{
    match instruction {
        Instruction::AluRegister { r, m, .. } => {
            both(memory::register(cells, r), memory::address(cells, m))
        }
        Instruction::AluImmediate { m, .. } => both(memory::address(cells, m), NO_CELL),
        Instruction::Skip { m, .. } => both(NO_CELL, memory::address(cells, m)),
        Instruction::Rorc(r) => both(memory::register(cells, r), NO_CELL),
        Instruction::Ld { r, m } => both(memory::register(cells, r), memory::address(cells, m)),
        Instruction::St { m, r } => both(memory::address(cells, m), memory::register(cells, r)),
        Instruction::MovToIndirect { r, m } => {
            Addresses {
                to: pointer(model, cells, ports, m, r),
                from: memory::address(cells, m),
                pointer: memory::register(cells, r),
            }
        }
        Instruction::MovFromIndirect { m, r } => {
            Addresses {
                to: memory::address(cells, m),
                from: pointer(model, cells, ports, m, r),
                pointer: memory::register(cells, r),
            }
        }
        Instruction::MovImmediate { m, .. } => both(memory::address(cells, m), NO_CELL),
        Instruction::Peek(rf) => both(NO_CELL, file(rf)),
        Instruction::Poke(rf) => both(file(rf), NO_CELL),
        _ => both(NO_CELL, NO_CELL),
    }
}

// Whether the chip lacks a cell that an operand reads or writes.
#[tactic(auto, using(memory::proofs::Numbers::none_lacking), unfolding(crate::specs::Operands::lacks_at))]
pub fn lacks(model: Model, a: Addresses) -> bool
    ensures { result ≡ lacks_at (chip_of model) a }
{
    !model.is_whole()
        && (model.is_missing(a.to) || model.is_missing(a.from) || model.is_missing(a.pointer))
}
