// A step of a machine in range, from refusal 2 on; refusal 1 and staying in standby are told in running.rt.
ghost use Rattle.std.specs.Prelude.{◌≡◌, List, cond, false, ◌&&◌, ℕ, eqb, get_or};
ghost use Rattle.memory.specs.Chip.{chip_of};
ghost use Rattle.machine.specs.Parts.{HALT, is_marked, machine_of};
ghost use Rattle.peripherals.specs.Pace.{Quiet};
ghost use Rattle.peripherals.specs.Parts.{with_timer};
ghost use Rattle.peripherals.specs.Timer.{tick_of};
ghost use Rattle.control.specs.Control.{with_standby};
ghost use Rattle.control.specs.Flow.{reads_table, word_flow};
ghost use Rattle.cpu.specs.Cycles.{cycles_of};
ghost use Rattle.cpu.specs.Joined.{StaysQuiet, TakesCycles, advanced_of, fetched_of, signals_at, whole_of};
ghost use Rattle.control.specs.Transfers.{with_stack};
ghost use Rattle.cpu.specs.Step.{advance_of};

use crate::Advanced;
use crate::execution::execute;
use control::Regs;
use machine::{Control, Machine, Refusal};
use memory::{Memory, Model};
use operations::Ports;
use peripherals::{Peripherals, Timer};

// The word at an address, or none past the ROM.
pub(crate) fn fetch(rom: &[u16], at: u16) -> Option<u16>
    ensures { result ≡ fetched_of rom.now at }
{
    rom.get(at as usize).copied()
}

// MOVT takes two cycles, every other word one.
fn word_cycles(word: u16) -> u8
    ensures { result ≡ cond (reads_table (word_flow word)) 2 1 }
{
    if control::reads_table(word) { 2 } else { 1 }
}

// Whether the machine stays in standby. This and the next are no methods, since `Regs` is another crate's.
pub(crate) fn stays_standing(regs: Regs, release: u8) -> bool
    ensures { result ≡ (is_marked regs.standby && eqb release 0) }
{
    regs.standby != 0 && release == 0
}

// Without the standby mark.
fn woken(regs: Regs) -> Regs
    ensures { (stack : List ℕ) → with_stack stack result ≡ with_standby 0 (with_stack stack regs) }
{
    Regs { standby: 0, ..regs }
}

// A step of a machine in range that does not stay in standby, up to its last phase, the timer's. A skipped word is fetched and not
// decoded.
pub(crate) fn advance(
    model: Model,
    rom: &[u16],
    cells: &mut [u8; 128],
    stack: &mut [u16; 5],
    regs: Regs,
    pins: &[u8; 5],
    registers: &mut [u8; 7],
    timer: Timer,
) -> Result<Advanced, Refusal>
    ensures advanced { (directions : List ℕ) (release pulse : ℕ) → (is_marked regs.standby && eqb release 0) ≡ false → advanced_of pulse cells.new stack.new registers.new timer regs result ≡ advance_of (chip_of model) rom.now (signals_at pins.now directions release pulse) (whole_of cells.old stack.old (with_timer registers.old timer) regs) }
    ensures cost { TakesCycles (cycles_of (get_or rom.now regs.pc 0) regs.skip) result }
    ensures quiet { (pulse : ℕ) → Quiet (with_timer registers.old timer) pulse timer.quiet → StaysQuiet registers.new pulse result }
{
    let Some(word) = fetch(rom, regs.pc) else {
        return Err(Refusal::PastRom);
    };
    let awake = woken(regs);
    if regs.skip != 0 {
        return Ok(Advanced {
            regs: awake.onward(model, false),
            timer,
            cycles: 1,
        });
    }
    let Some(instruction) = isa::decode(word) else {
        return Err(Refusal::NoInstruction);
    };
    let next = execute(
        model,
        rom,
        instruction,
        cells,
        stack,
        awake,
        Ports {
            pins,
            registers: &*registers,
        },
        timer,
    )?;
    let set = operations::set(&*cells, registers, timer, instruction);
    Ok(Advanced {
        regs: next,
        timer: set,
        cycles: word_cycles(word),
    })
}

// A step that stays in standby: HALT's moves the timer by one cycle.
pub(crate) fn stood(standby: u8, p: Peripherals, pulse: u8) -> Peripherals
    ensures { result ≡ cond (eqb standby HALT) (tick_of p 1 pulse) p }
{
    if standby != Machine::HALT {
        return p;
    }
    let registers = p.registers;
    let timer = Timer::from(p).tick(&registers, 1, pulse);
    timer.with(registers)
}

// The control in its two parts, and put together: no `From`, since both types are other crates'.
pub(crate) fn regs_of(c: Control) -> Regs
    ensures { with_stack c.stack result ≡ c }
{
    Regs {
        pc: c.pc,
        levels: c.levels,
        skip: c.skip,
        standby: c.standby,
    }
}

pub(crate) fn control_of(stack: [u16; 5], r: Regs) -> Control
    ensures { result ≡ with_stack stack r }
{
    Control {
        pc: r.pc,
        stack,
        levels: r.levels,
        skip: r.skip,
        standby: r.standby,
    }
}

pub(crate) fn join(cells: [u8; 128], peripherals: Peripherals, control: Control) -> Machine
    ensures { result ≡ machine_of cells peripherals control }
{
    Machine {
        memory: Memory { cells },
        peripherals,
        control,
    }
}
