// Whether an instruction writes a cell, on these cells: document 02, E7. A write of an equal value is one.
ghost use Rattle.std.specs.Prelude.{◌≡◌, ◌||◌, List, ℕ, eqb};
ghost use Rattle.alu.specs.declared.Outcome.{Outcome};
ghost use Rattle.memory.specs.Chip.{Chip, chip_of};
ghost use Rattle.memory.specs.Names.{PSW};
ghost use Rattle.memory.specs.Write.{touches};
ghost use Rattle.operations.specs.Data.{Data, Sources, data_with};
ghost use Rattle.operations.specs.Writes.{arithmetic_writes, from_to, poke_writes, result_writes, skip_writes, writes_at, writes_of};

use crate::operands::locate;
use crate::{Addresses, Ports};
use isa::{AluOp, FixedOp, Instruction, SkipOp};
use memory::{Memory, Model};
use peripherals::Peripherals;

// The cells from one to another.
fn is_within(cell: u8, first: u8, last: u8) -> bool
    ensures { result ≡ from_to first last cell }
{
    first <= cell && cell <= last
}

// The cell of a result, and 7FH.
fn is_result_or_flags(cell: u8, to: u8) -> bool
    ensures { result ≡ (eqb cell to || eqb cell PSW) }
{
    cell == to || cell == Memory::PSW
}

// The flags always, the result unless CMP is set.
#[tactic(auto, using(crate::proofs::Touched::one_write, crate::proofs::Touched::with_flags), unfolding(crate::specs::Writes::arithmetic_writes))]
fn arithmetic_writes(cells: &[u8; 128], to: u8, cell: u8) -> bool
    ensures { (o : Outcome) → result ≡ touches (arithmetic_writes cells.now to o) cell }
{
    if memory::is_set(cells, Memory::PSW, Memory::CMP) {
        return cell == Memory::PSW;
    }
    is_result_or_flags(cell, to)
}

// The seven operations: logic writes its result alone.
#[tactic(auto, using(crate::proofs::Touched::one_write), unfolding(crate::specs::Writes::result_writes))]
fn result_writes(cells: &[u8; 128], op: AluOp, to: u8, cell: u8) -> bool
    ensures { (o : Outcome) → result ≡ touches (result_writes cells.now op to o) cell }
{
    match op {
        AluOp::Or | AluOp::And | AluOp::Xor => cell == to,
        _ => arithmetic_writes(cells, to, cell),
    }
}

// SKT and SKF clear CMP, set or not.
#[tactic(auto, using(crate::proofs::Touched::one_write), unfolding(crate::specs::Writes::skip_writes))]
fn skip_writes(op: SkipOp, cell: u8) -> bool
    ensures { (cells : List ℕ) → result ≡ touches (skip_writes cells op) cell }
{
    match op {
        SkipOp::Skt | SkipOp::Skf => cell == Memory::PSW,
        _ => false,
    }
}

#[tactic(auto, using(crate::proofs::Touched::one_write), unfolding(crate::specs::Writes::poke_writes))]
fn poke_writes(rf: u8, cell: u8) -> bool
    ensures { (cells : List ℕ) → result ≡ touches (poke_writes cells rf) cell }
{
    Peripherals::DATA <= rf && cell == rf
}

#[tactic(auto, using(crate::proofs::Touched::ar_touched, crate::proofs::Touched::ix_touched, crate::proofs::Touched::buffer_touched), unfolding(crate::specs::Writes::writes_at))]
fn fixed_writes(op: FixedOp, cell: u8) -> bool
    ensures { (chip : Chip) (d : Data) (a : Addresses) (src : Sources) → result ≡ touches (writes_at chip d a (Instruction.Fixed op) src) cell }
{
    match op {
        FixedOp::IncAr | FixedOp::PopAr => is_within(cell, Memory::AR3, Memory::AR0),
        FixedOp::IncIx => is_within(cell, Memory::IXH, Memory::IXL),
        FixedOp::Movt => is_within(cell, Memory::DBF3, Memory::DBF0),
        _ => false,
    }
}

#[tactic(auto, using(crate::proofs::Touched::one_write, crate::proofs::Touched::with_flags, crate::proofs::Touched::low_byte_touched), unfolding(crate::specs::Writes::alu_writes, crate::specs::Writes::rotate_writes, crate::specs::Writes::transfer_writes, crate::specs::Writes::writes_at, crate::specs::Writes::writes_of))]
pub fn writes(
    model: Model,
    cells: &[u8; 128],
    ports: Ports<'_>,
    instruction: Instruction,
    cell: u8,
) -> bool
    ensures { (src : Sources) → result ≡ touches (writes_of (chip_of model) (data_with cells.now ports.entry) instruction src) cell }
{
    let a = locate(model, cells, ports, instruction);
    match instruction {
        Instruction::AluRegister { op, .. } | Instruction::AluImmediate { op, .. } => {
            result_writes(cells, op, a.to, cell)
        }
        Instruction::Skip { op, .. } => skip_writes(op, cell),
        Instruction::Rorc(_) => is_result_or_flags(cell, a.to),
        Instruction::Ld { .. }
        | Instruction::St { .. }
        | Instruction::MovToIndirect { .. }
        | Instruction::MovFromIndirect { .. }
        | Instruction::MovImmediate { .. } => cell == a.to,
        Instruction::Peek(_) => cell == Memory::WR,
        Instruction::Poke(rf) => poke_writes(rf, cell),
        Instruction::Get(_) => is_within(cell, Memory::DBF1, Memory::DBF0),
        Instruction::Fixed(op) => fixed_writes(op, cell),
        _ => false,
    }
}
