// The models by their numbers, and the record's parts copied place by place.
ghost use Rattle.std.specs.Prelude.{◌≡◌};
ghost use Rattle.cpu.specs.Cost.{none};
ghost use Rattle.pollwezen.specs.Models.{model_of};

use crate::RunReply;
use cpu::Count;
use machine::{Control, Refusal};
use memory::Model;
use peripherals::Peripherals;

// The same control part. What is copied as a whole, as bytes, waits for the stores of its single fields and places; that counts in a
// single step and in a short run.
pub(crate) fn by_fields(control: Control) -> Control
    ensures { result ≡ control }
{
    let held = control.stack;
    let stack = [held[0], held[1], held[2], held[3], held[4]];
    Control {
        pc: control.pc,
        stack: stack,
        levels: control.levels,
        skip: control.skip,
        standby: control.standby,
    }
}

// The same peripherals, for the same reason.
pub(crate) fn by_registers(p: Peripherals) -> Peripherals
    ensures { result ≡ p }
{
    let held = p.registers;
    let registers = [
        held[0], held[1], held[2], held[3], held[4], held[5], held[6],
    ];
    Peripherals {
        registers: registers,
        modulo: p.modulo,
        counter: p.counter,
        divider: p.divider,
    }
}

// The model with a number. No `TryFrom`: number and model are both of other crates.
pub(crate) fn selected(number: u8) -> Option<Model>
    ensures { result ≡ model_of number }
{
    match number {
        0 => Some(Model::Upd17132),
        1 => Some(Model::Upd17120),
        _ => None,
    }
}

// The reply of a run that was not begun: the number is no model's.
pub(crate) fn not_run() -> RunReply
    ensures { result ≡ record { count = none; number = 1 } }
{
    RunReply {
        count: Count {
            steps: 0,
            cycles: 0,
        },
        number: u8::from(Refusal::OutOfRange),
    }
}
