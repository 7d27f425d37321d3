// The seven operations that have a form r,m and a form m,#n4.
ghost use Rattle.std.specs.Prelude.{◌≡◌};
ghost use Rattle.memory.specs.Cells.{is_set};
ghost use Rattle.memory.specs.Chip.{chip_of};
ghost use Rattle.memory.specs.Names.{BCD, CY, RPL};
ghost use Rattle.memory.specs.Write.{writes_applied};
ghost use Rattle.operations.specs.Data.{data_with};
ghost use Rattle.operations.specs.Writes.{flag, flags_after, arithmetic_writes, alu_writes};

use crate::Ports;
use crate::file::read;
use alu::Outcome;
use isa::AluOp;
use memory::{Memory, Model};

// PSW after an arithmetic result.
#[tactic(auto, unfolding(crate::specs::Writes::flags_after))]
fn flags_after(cells: &[u8; 128], o: Outcome) -> u8
    ensures { result ≡ flags_after cells.now o }
{
    let cmp = memory::is_set(cells, Memory::PSW, Memory::CMP);
    let z = memory::is_set(cells, Memory::PSW, Memory::Z);
    let zero = alu::zero(cmp, z, o.result);
    let carried = memory::with_flag(cells[Memory::PSW as usize], Memory::CY, o.carry);
    memory::with_flag(carried, Memory::Z, zero)
}

// An arithmetic result.
#[tactic(auto, unfolding(crate::specs::Writes::arithmetic_writes, memory::specs::Write::writes_applied))]
fn store_arithmetic(model: Model, cells: &mut [u8; 128], at: u8, o: Outcome)
    ensures { cells.new ≡ writes_applied (chip_of model) cells.old (arithmetic_writes cells.old at o) }
{
    let psw = flags_after(cells, o);
    if memory::is_set(cells, Memory::PSW, Memory::CMP) {
        memory::store(model, cells, Memory::PSW, psw);
        return;
    }
    if at == Memory::PSW {
        memory::store(model, cells, Memory::PSW, o.result);
        return;
    }
    memory::store(model, cells, at, o.result);
    memory::store(model, cells, Memory::PSW, psw);
}

// CY.
pub(crate) fn carry(cells: &[u8; 128]) -> bool
    ensures { result ≡ flag cells.now CY }
{
    memory::is_set(cells, Memory::PSW, Memory::CY)
}

fn bcd(cells: &[u8; 128]) -> bool
    ensures { result ≡ is_set cells.now RPL BCD }
{
    memory::is_set(cells, Memory::RPL, Memory::BCD)
}

// An operation on what stands at an address and a second operand. Arithmetic sets flags, logic does not.
#[tactic(auto, unfolding(crate::specs::Writes::alu_writes, crate::specs::Writes::result_writes, alu::specs::Results::operate_of, memory::specs::Write::writes_applied))]
pub fn operate(model: Model, cells: &mut [u8; 128], ports: Ports<'_>, op: AluOp, at: u8, b: u8)
    ensures { cells.new ≡ writes_applied (chip_of model) cells.old (alu_writes (chip_of model) (data_with cells.old ports.entry) op at b) }
{
    let a = read(model, cells, ports, at);
    match op {
        AluOp::Add => store_arithmetic(model, cells, at, alu::add(bcd(cells), a, b, false)),
        AluOp::AddC => store_arithmetic(model, cells, at, alu::add(bcd(cells), a, b, carry(cells))),
        AluOp::Sub => store_arithmetic(model, cells, at, alu::subtract(bcd(cells), a, b, false)),
        AluOp::SubC => {
            store_arithmetic(
                model,
                cells,
                at,
                alu::subtract(bcd(cells), a, b, carry(cells)),
            )
        }
        AluOp::Or => memory::store(model, cells, at, a | b),
        AluOp::And => memory::store(model, cells, at, a & b),
        AluOp::Xor => memory::store(model, cells, at, a ^ b),
    }
}
