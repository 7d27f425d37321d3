// The counted run, and the step as its run of one. Inputs, pulse and budget come one by one, as a host gives them, and so do the record's
// parts where the cells stand in the host's record.
ghost use Rattle.std.specs.Prelude.{◌≡◌};
ghost use Rattle.memory.specs.Chip.{chip_of};
ghost use Rattle.machine.specs.Parts.{machine_of};
ghost use Rattle.machine.specs.Signals.{signals};
ghost use Rattle.cpu.specs.Answers.{end_of, reached_step, reply_of, run_of_ran, step_of_stepped};
ghost use Rattle.cpu.specs.Cost.{step_cost};
ghost use Rattle.cpu.specs.Reply.{refusal_of};
ghost use Rattle.cpu.specs.Run.{run_of, ended};
ghost use Rattle.cpu.specs.Step.{step_of};

use crate::stepping::{advance, control_of, join, regs_of, stays_standing, stood};
use crate::{Completion, Count, Ran, Reached, Stepped};
use machine::{Control, Input, Machine, Refusal, ranges};
use memory::Model;
use peripherals::{Peripherals, Timer};

// How a run ends, by the answer that it stopped with.
pub fn end_of(answer: Result<Completion, Refusal>) -> Result<(), Refusal>
    ensures { end_of result ≡ refusal_of (reply_of answer) }
{
    answer.map(|_| ())
}

// Steps up to a refusal, standby or the budget, on the cells where they stand. The range is tested once; each step keeps it. It
// serves the run and the step, so that `advance` has one caller and is inlined there.
fn go(
    model: Model,
    rom: &[u16],
    cells: &mut [u8; 128],
    peripherals: Peripherals,
    control: Control,
    input: Input,
    pulse: u8,
    budget: u32,
) -> Reached
    ensures ran { ended result.count (refusal_of (reply_of result.answer)) (machine_of cells.new result.peripherals result.control) ≡ run_of (chip_of model) rom.now (signals input pulse) budget (machine_of cells.old peripherals control) }
    ensures stepped { budget ≡ 1 → reached_step cells.new result ≡ step_of (chip_of model) rom.now (signals input pulse) (machine_of cells.old peripherals control) }
{
    let came = Reached {
        peripherals,
        control,
        count: Count {
            steps: 0,
            cycles: 0,
        },
        answer: Ok(Completion::Done),
    };
    if 65535 < budget {
        return Reached {
            answer: Err(Refusal::OutOfRange),
            ..came
        };
    }
    if !ranges::all(model, rom, join(*cells, peripherals, control), input, pulse) {
        return Reached {
            answer: Err(Refusal::OutOfRange),
            ..came
        };
    }
    if budget == 0 {
        return came;
    }
    let mut stack = control.stack;
    let mut regs = regs_of(control);
    if stays_standing(regs, input.release) {
        return Reached {
            peripherals: stood(regs.standby, peripherals, pulse),
            answer: Ok(Completion::Standby),
            ..came
        };
    }
    let pins = input.pins;
    let mut registers = peripherals.registers;
    let mut timer = Timer::from(peripherals);
    let mut cycles: u32 = 0;
    // A `while`: of a `for` the compiler keeps two counters, and a branch took 1.6 to 1.9 times as long (docs/DESIGN-PASS.md).
    let mut steps: u32 = 0;
    while steps < budget {
        match advance(
            model,
            rom,
            cells,
            &mut stack,
            regs,
            &pins,
            &mut registers,
            timer,
        ) {
            Ok(step) => {
                steps += 1;
                cycles += step.cycles as u32;
                regs = step.regs;
                timer = step.timer.pace(&registers, step.cycles, pulse);
                if regs.standby != 0 {
                    return Reached {
                        peripherals: timer.with(registers),
                        control: control_of(stack, regs),
                        count: Count { steps, cycles },
                        answer: Ok(Completion::Done),
                    };
                }
            }
            Err(refusal) => {
                return Reached {
                    peripherals: timer.with(registers),
                    control: control_of(stack, regs),
                    count: Count { steps, cycles },
                    answer: Err(refusal),
                };
            }
        }
    }
    Reached {
        peripherals: timer.with(registers),
        control: control_of(stack, regs),
        count: Count {
            steps: budget,
            cycles,
        },
        answer: Ok(Completion::Done),
    }
}

// The counted run.
pub fn run(model: Model, rom: &[u16], machine: Machine, input: Input, pulse: u8, budget: u32) -> Ran
    ensures { run_of_ran result ≡ run_of (chip_of model) rom.now (signals input pulse) budget machine }
{
    let mut cells = machine.memory.cells;
    let last = go(
        model,
        rom,
        &mut cells,
        machine.peripherals,
        machine.control,
        input,
        pulse,
        budget,
    );
    Ran {
        machine: join(cells, last.peripherals, last.control),
        count: last.count,
        end: end_of(last.answer),
    }
}

// The counted run on the cells where they stand.
pub fn run_in_place(
    model: Model,
    rom: &[u16],
    cells: &mut [u8; 128],
    peripherals: Peripherals,
    control: Control,
    input: Input,
    pulse: u8,
    limit: u32,
) -> Reached
    ensures { ended result.count (refusal_of (reply_of result.answer)) (machine_of cells.new result.peripherals result.control) ≡ run_of (chip_of model) rom.now (signals input pulse) limit (machine_of cells.old peripherals control) }
{
    go(model, rom, cells, peripherals, control, input, pulse, limit)
}

// One step: the run of one, with its answer.
pub fn step(model: Model, rom: &[u16], machine: Machine, input: Input, pulse: u8) -> Stepped
    ensures stepped { step_of_stepped result ≡ step_of (chip_of model) rom.now (signals input pulse) machine }
    ensures cost { result.count ≡ step_cost (chip_of model) rom.now (signals input pulse) machine }
{
    let mut cells = machine.memory.cells;
    let one = go(
        model,
        rom,
        &mut cells,
        machine.peripherals,
        machine.control,
        input,
        pulse,
        1,
    );
    Stepped {
        machine: join(cells, one.peripherals, one.control),
        count: one.count,
        answer: one.answer,
    }
}

// One step on the cells where they stand.
pub fn step_in_place(
    model: Model,
    rom: &[u16],
    cells: &mut [u8; 128],
    peripherals: Peripherals,
    control: Control,
    input: Input,
    pulse: u8,
) -> Reached
    ensures stepped { reached_step cells.new result ≡ step_of (chip_of model) rom.now (signals input pulse) (machine_of cells.old peripherals control) }
    ensures cost { result.count ≡ step_cost (chip_of model) rom.now (signals input pulse) (machine_of cells.old peripherals control) }
{
    go(model, rom, cells, peripherals, control, input, pulse, 1)
}
