// One instruction, on the cells and the stack where they stand. The parts of the machine go one by one, each as it is quickest: the
// cells and the stack behind references, the small ones by value.
ghost use Rattle.std.specs.Prelude.{◌≡◌, List, ℕ, cond, Ok, Err};
ghost use Rattle.memory.specs.Chip.{chip_of};
ghost use Rattle.machine.specs.Signals.{Signals};
ghost use Rattle.machine.specs.declared.Refusal.TheVariants.{MissingCell};
ghost use Rattle.peripherals.specs.Parts.{with_timer};
ghost use Rattle.peripherals.specs.declared.Peripherals.{Peripherals as Parts};
ghost use Rattle.operations.specs.Operands.{lacks_at};
ghost use Rattle.operations.specs.Settings.{settings_of};
ghost use Rattle.cpu.specs.Joined.{executed_of, signals_at, whole_of};
ghost use Rattle.cpu.specs.Execute.{execute_of};

use crate::stepping::fetch;
use control::Regs;
use isa::{FixedOp, Instruction};
use machine::{Machine, Refusal};
use memory::Model;
use operations::{Addresses, Ports};
use peripherals::{Peripherals, Timer};

// MOVT: refusal 6 comes before 8.
fn movt(model: Model, rom: &[u16], cells: &mut [u8; 128], regs: Regs) -> Result<Regs, Refusal>
    ensures { (signals : Signals) (p : Parts) (stack : List ℕ) → executed_of cells.new stack p p regs result ≡ execute_of (chip_of model) rom.now signals (Instruction.Fixed FixedOp.Movt) (whole_of cells.old stack p regs) }
{
    let next = regs.table(model)?;
    let Some(word) = fetch(rom, memory::ar(&*cells)) else {
        return Err(Refusal::PastTable);
    };
    *cells = memory::write_buffer(model, *cells, word);
    Ok(next)
}

// POP AR: the address on the highest open level goes to AR.
fn pop_ar(
    model: Model,
    cells: &mut [u8; 128],
    stack: &mut [u16; 5],
    regs: Regs,
) -> Result<Regs, Refusal>
    ensures { (rom : List ℕ) (signals : Signals) (p : Parts) → executed_of cells.new stack.new p p regs result ≡ execute_of (chip_of model) rom signals (Instruction.Fixed FixedOp.PopAr) (whole_of cells.old stack.old p regs) }
{
    let top = regs.top(&*stack);
    let next = regs.pop(model, stack)?;
    *cells = memory::write_ar(model, *cells, top);
    Ok(next)
}

// An instruction without operand.
fn fixed(
    model: Model,
    rom: &[u16],
    op: FixedOp,
    cells: &mut [u8; 128],
    stack: &mut [u16; 5],
    regs: Regs,
) -> Result<Regs, Refusal>
    ensures { (signals : Signals) (p : Parts) → executed_of cells.new stack.new p p regs result ≡ execute_of (chip_of model) rom.now signals (Instruction.Fixed op) (whole_of cells.old stack.old p regs) }
{
    match op {
        FixedOp::IncAr => {
            *cells = memory::increment_ar(model, *cells);
            return Ok(regs.onward(model, false));
        }
        FixedOp::IncIx => {
            *cells = memory::increment_ix(model, *cells);
            return Ok(regs.onward(model, false));
        }
        FixedOp::Movt => return movt(model, rom, cells, regs),
        FixedOp::PushAr => return regs.push(model, stack, memory::ar(&*cells)),
        FixedOp::PopAr => return pop_ar(model, cells, stack, regs),
        FixedOp::BrAr => return Ok(regs.jump(memory::ar(&*cells))),
        FixedOp::CallAr => return regs.call(model, stack, memory::ar(&*cells)),
        FixedOp::Ret => return regs.ret(stack, false),
        FixedOp::Retsk => return regs.ret(stack, true),
        FixedOp::Reti => return Err(Refusal::Unsupported),
        FixedOp::Ei => return Err(Refusal::Unsupported),
        FixedOp::Di => return Err(Refusal::Unsupported),
        FixedOp::Nop => return Ok(regs.onward(model, false)),
    }
}

// Refusal 31: the chip lacks a cell at one of the addresses.
fn present(model: Model, a: Addresses) -> Result<(), Refusal>
    ensures { result ≡ cond (lacks_at (chip_of model) a) (Err MissingCell) (Ok tt) }
{
    if operations::lacks(model, a) {
        return Err(Refusal::MissingCell);
    }
    Ok(())
}

// An instruction, but for what it sets of the peripherals. Nothing is written before the test for missing cells. That stands in each
// arm with operands: once, between `locate` and `match`, it keeps the compiler from joining the two by the instruction. Arms of one body
// stay apart too, one an opcode, so that the operation is told before its operands are read.
// Each arm returns: the value of the `match` was packed into a word and taken apart again.
pub(crate) fn execute(
    model: Model,
    rom: &[u16],
    instruction: Instruction,
    cells: &mut [u8; 128],
    stack: &mut [u16; 5],
    regs: Regs,
    ports: Ports<'_>,
    timer: Timer,
) -> Result<Regs, Refusal>
    ensures { (directions : List ℕ) (release pulse : ℕ) → executed_of cells.new stack.new (settings_of cells.old (with_timer ports.entry.registers.now timer) instruction) (with_timer ports.entry.registers.now timer) regs result ≡ execute_of (chip_of model) rom.now (signals_at ports.entry.pins.now directions release pulse) instruction (whole_of cells.old stack.old (with_timer ports.entry.registers.now timer) regs) }
{
    let a = operations::locate(model, &*cells, ports, instruction);
    match instruction {
        Instruction::AluRegister { op, r: _, m: _ } => {
            present(model, a)?;
            let b = operations::read(model, &*cells, ports, a.from);
            operations::operate(model, cells, ports, op, a.to, b);
            return Ok(regs.onward(model, false));
        }
        Instruction::AluImmediate { op, m: _, n4 } => {
            present(model, a)?;
            operations::operate(model, cells, ports, op, a.to, n4);
            return Ok(regs.onward(model, false));
        }
        Instruction::Skip { op, m: _, n4 } => {
            present(model, a)?;
            let holds = operations::skip(model, cells, ports, op, a.from, n4);
            return Ok(regs.onward(model, holds));
        }
        Instruction::Rorc(_) => {
            present(model, a)?;
            operations::rorc(model, cells, ports, a.to);
            return Ok(regs.onward(model, false));
        }
        Instruction::Ld { r: _, m: _ } => {
            present(model, a)?;
            operations::transfer(model, cells, ports, a);
            return Ok(regs.onward(model, false));
        }
        Instruction::St { m: _, r: _ } => {
            present(model, a)?;
            operations::transfer(model, cells, ports, a);
            return Ok(regs.onward(model, false));
        }
        Instruction::MovToIndirect { r: _, m: _ } => {
            present(model, a)?;
            operations::transfer(model, cells, ports, a);
            return Ok(regs.onward(model, false));
        }
        Instruction::MovFromIndirect { m: _, r: _ } => {
            present(model, a)?;
            operations::transfer(model, cells, ports, a);
            return Ok(regs.onward(model, false));
        }
        Instruction::MovImmediate { m: _, n4 } => {
            present(model, a)?;
            memory::store(model, cells, a.to, n4);
            return Ok(regs.onward(model, false));
        }
        Instruction::Peek(rf) => {
            present(model, a)?;
            if !peripherals::in_file(rf) {
                return Err(Refusal::NoRegister);
            }
            operations::peek(model, cells, ports, rf);
            return Ok(regs.onward(model, false));
        }
        Instruction::Poke(to) => {
            present(model, a)?;
            if !peripherals::in_file(to) {
                return Err(Refusal::NoRegister);
            }
            operations::poke(model, cells, to);
            return Ok(regs.onward(model, false));
        }
        Instruction::Get(p) => {
            if p != Peripherals::TMC {
                return Err(Refusal::NoRegister);
            }
            *cells = memory::write_low_byte(model, *cells, timer.counter);
            return Ok(regs.onward(model, false));
        }
        Instruction::Put(p) => {
            if p != Peripherals::TMM {
                return Err(Refusal::NoRegister);
            }
            return Ok(regs.onward(model, false));
        }
        Instruction::Br(addr) => return regs.branch(model, addr),
        Instruction::Call(addr) => return regs.call_in_reach(model, stack, addr),
        Instruction::Stop(_) => return Ok(regs.stand(model, Machine::STOP)),
        Instruction::Halt(_) => return Ok(regs.stand(model, Machine::HALT)),
        Instruction::Fixed(op) => return fixed(model, rom, op, cells, stack, regs),
    }
}
