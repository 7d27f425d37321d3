// The single step and the counted run.

#![tactic(auto)]

mod execution;
mod running;
mod stepping;

ghost use Rattle.std.specs.Prelude.{◌≡◌};
ghost use Rattle.cpu.specs.Answers.{end_of, reply_number, reply_of};

use control::Regs;
use machine::{Control, Machine, Refusal};
use peripherals::{Peripherals, Timer};
pub use running::{end_of, run, run_in_place, step, step_in_place};

// How a step ends that is not refused.
#[derive(Clone, Copy, PartialEq, Eq)]
pub enum Completion {
    Done,
    // The machine stays in standby: in STOP nothing has changed, in HALT the timer has moved.
    Standby,
}

// What a step answers, as a number: 0 for a completed step, 255 for one that stays in standby, else the refusal.
pub fn reply_number(answer: Result<Completion, Refusal>) -> u8
    ensures { result ≡ reply_number (reply_of answer) }
{
    match answer {
        Ok(Completion::Done) => 0,
        Ok(Completion::Standby) => 255,
        Err(refusal) => u8::from(refusal),
    }
}

// Steps completed, and the instruction cycles that they took.
#[repr(C)]
#[derive(Clone, Copy)]
pub struct Count {
    pub steps: u32,
    pub cycles: u32,
}

// What steps up to a refusal, standby or the budget leave beside the cells; how many of them were completed, with their cycles; and
// the last one's answer.
#[derive(Clone, Copy)]
pub struct Reached {
    pub peripherals: Peripherals,
    pub control: Control,
    pub count: Count,
    pub answer: Result<Completion, Refusal>,
}

// The machine after a step, what the step counts for, and its answer. `Ran` below is another struct, since the two answers differ and
// are read apart.
#[derive(Clone, Copy)]
pub struct Stepped {
    pub machine: Machine,
    pub count: Count,
    pub answer: Result<Completion, Refusal>,
}

// How a run ended, as a number: the refusal, 0 for none.
pub fn end_number(end: Result<(), Refusal>) -> u8
    ensures { result ≡ end_of end }
{
    match end {
        Ok(()) => 0,
        Err(refusal) => u8::from(refusal),
    }
}

// The machine after a run, the steps that it completed with their cycles, and how it ended: at its budget or in standby, or refused.
#[derive(Clone, Copy)]
pub struct Ran {
    pub machine: Machine,
    pub count: Count,
    pub end: Result<(), Refusal>,
}

// A completed step of a machine that does not stay in standby: where control goes, the timer before its cycles and how many these are.
#[derive(Clone, Copy)]
struct Advanced {
    regs: Regs,
    timer: Timer,
    cycles: u8,
}
