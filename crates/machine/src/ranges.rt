// What is in range: refusal 1.
ghost use Rattle.std.specs.Prelude.{◌≡◌, cond, ◌^◌, eqb, leb, ltb};
ghost use Rattle.laws.specs.Every.{every};
ghost use Rattle.memory.specs.Chip.{chip_of};
ghost use Rattle.machine.specs.Ranges.{five_nibbles, places, level_in_range, control_in_range, marks_in_range, machine_in_range, input_in_range, signals_in_range, rom_in_range, all_in_range};
ghost use Rattle.machine.specs.Signals.{signals};

use crate::{Control, Input, Machine, cells};
use memory::Model;

// Five nibbles.
fn are_nibbles(xs: [u8; 5]) -> bool
    ensures { result ≡ five_nibbles xs }
{
    xs.iter().all(|x| *x < 16)
}

fn is_address(model: Model, address: u16) -> bool
    ensures { result ≡ ltb address (2 ^ (chip_of model).pc_bits) }
{
    address < model.addresses()
}

// Not more levels than the chip has.
fn can_be_open(model: Model, levels: u8) -> bool
    ensures { result ≡ leb levels (chip_of model).levels }
{
    levels <= model.levels()
}

// An open level holds an address, and a closed one 0.
fn level(model: Model, k: usize, levels: u8, address: u16) -> bool
    ensures { result ≡ cond (ltb k levels) (ltb address (2 ^ (chip_of model).pc_bits)) (eqb address 0) }
{
    if k < levels as usize {
        is_address(model, address)
    } else {
        address == 0
    }
}

// The five places of the stack, by a `for`: of `all` over `enumerate` the proof did not close.
fn stack(model: Model, c: Control) -> bool
    ensures { result ≡ every (level_in_range (chip_of model) c) places }
{
    let held = c.stack;
    for (k, address) in held.iter().enumerate() {
        if !level(model, k, c.levels, *address) {
            return false;
        }
    }
    true
}

#[tactic(auto, unfolding(crate::specs::Ranges::control_in_range))]
fn control(model: Model, c: Control) -> bool
    ensures { result ≡ control_in_range (chip_of model) c }
{
    is_address(model, c.pc) && can_be_open(model, c.levels) && stack(model, c)
}

// The skip mark is 0 or 1, and the standby mark 0, 1 or 2.
#[tactic(auto, unfolding(crate::specs::Ranges::marks_in_range))]
fn marks(c: Control) -> bool
    ensures { result ≡ marks_in_range c }
{
    c.skip <= 1 && c.standby <= 2
}

#[tactic(auto, unfolding(crate::specs::Ranges::machine_in_range))]
fn machine(model: Model, m: Machine) -> bool
    ensures { result ≡ machine_in_range (chip_of model) m }
{
    cells::in_range(model, &m.memory.cells)
        && control(model, m.control)
        && marks(m.control)
        && peripherals::in_range(m.peripherals)
}

#[tactic(auto, unfolding(crate::specs::Ranges::input_in_range))]
fn input(i: Input) -> bool
    ensures { result ≡ input_in_range i }
{
    are_nibbles(i.pins) && are_nibbles(i.directions) && i.release < 2
}

#[tactic(auto, unfolding(crate::specs::Ranges::rom_in_range))]
fn rom(model: Model, words: &[u16]) -> bool
    ensures { result ≡ rom_in_range (chip_of model) words.now }
{
    !words.is_empty() && words.len() <= model.words()
}

// The input record, and the pulse bit beside it.
#[tactic(auto, unfolding(crate::specs::Ranges::signals_in_range))]
fn given(i: Input, pulse: u8) -> bool
    ensures { result ≡ signals_in_range (signals i pulse) }
{
    input(i) && pulse < 2
}

// All that a step tests for refusal 1.
#[tactic(auto, unfolding(crate::specs::Ranges::all_in_range))]
pub fn all(model: Model, words: &[u16], m: Machine, i: Input, pulse: u8) -> bool
    ensures { result ≡ all_in_range (chip_of model) words.now m (signals i pulse) }
{
    machine(model, m) && given(i, pulse) && rom(model, words)
}
