// The skips, RORC, and LD, ST and MOV.
ghost use Rattle.std.specs.Prelude.{◌≡◌};
ghost use Rattle.alu.specs.Results.{condition_of, rotate_of};
ghost use Rattle.memory.specs.Chip.{chip_of};
ghost use Rattle.memory.specs.Names.{CY};
ghost use Rattle.memory.specs.Write.{writes_applied};
ghost use Rattle.operations.specs.Data.{data_with, read_at};
ghost use Rattle.operations.specs.Writes.{flag, rotate_writes, skip_writes, transfer_writes};

use crate::arithmetic::carry;
use crate::file::read;
use crate::{Addresses, Ports};
use isa::SkipOp;
use memory::{Memory, Model};

// SKT and SKF clear CMP. Each has an arm: with one for both, a run takes up to 1.06 times as long.
#[tactic(auto, unfolding(crate::specs::Writes::skip_writes, memory::specs::Write::writes_applied))]
fn clear_cmp(model: Model, cells: &mut [u8; 128], op: SkipOp)
    ensures { cells.new ≡ writes_applied (chip_of model) cells.old (skip_writes cells.old op) }
{
    let psw = memory::with_flag(cells[Memory::PSW as usize], Memory::CMP, false);
    match op {
        SkipOp::Skt => memory::store(model, cells, Memory::PSW, psw),
        SkipOp::Skf => memory::store(model, cells, Memory::PSW, psw),
        _ => {}
    }
}

// A skip's writes, and whether its condition holds of what stands at an address.
pub fn skip(
    model: Model,
    cells: &mut [u8; 128],
    ports: Ports<'_>,
    op: SkipOp,
    from: u8,
    n4: u8,
) -> bool
    ensures { (cells.new ≡ writes_applied (chip_of model) cells.old (skip_writes cells.old op)) × (result ≡ condition_of op (read_at (chip_of model) (data_with cells.old ports.entry) from) n4) }
{
    let x = read(model, cells, ports, from);
    clear_cmp(model, cells, op);
    alu::skips(op, x, n4)
}

// RORC on what stands at an address.
#[tactic(auto, unfolding(crate::specs::Writes::rotate_writes, memory::specs::Write::writes_applied))]
pub fn rorc(model: Model, cells: &mut [u8; 128], ports: Ports<'_>, to: u8)
    ensures { cells.new ≡ writes_applied (chip_of model) cells.old (rotate_writes cells.old to (rotate_of (read_at (chip_of model) (data_with cells.old ports.entry) to) (flag cells.old CY))) }
{
    let x = read(model, cells, ports, to);
    let o = alu::rotate(x, carry(cells));
    if to == Memory::PSW {
        memory::store(model, cells, Memory::PSW, o.result);
        return;
    }
    let psw = memory::with_flag(cells[Memory::PSW as usize], Memory::CY, o.carry);
    memory::store(model, cells, to, o.result);
    memory::store(model, cells, Memory::PSW, psw);
}

// LD, ST and MOV: what stands at one address goes to the other.
#[tactic(auto, unfolding(crate::specs::Writes::transfer_writes, memory::specs::Write::writes_applied))]
pub fn transfer(model: Model, cells: &mut [u8; 128], ports: Ports<'_>, a: Addresses)
    ensures { cells.new ≡ writes_applied (chip_of model) cells.old (transfer_writes (chip_of model) (data_with cells.old ports.entry) a) }
{
    let moved = read(model, cells, ports, a.from);
    memory::store(model, cells, a.to, moved);
}
