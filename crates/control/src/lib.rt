// What an instruction does to the PC, the stack and the marks: a function of its flow. The control stands in two parts while the
// machine steps: the stack where it is, and the rest in a small struct; with both behind references every loop was slower. The model,
// which no record has, goes beside them.

#![tactic(auto)]

mod stack;
mod words;

ghost use Rattle.std.specs.Prelude.{◌≡◌, ℕ, List};
ghost use Rattle.memory.specs.Chip.{chip_of};
ghost use Rattle.control.specs.Control.{goes, next_of, jump_to, pushed, popped, unless_full, unless_empty, branch_of, call_of, return_of, push_of, pop_of, table_of, standby_of, onward_of, in_reach, top_of};
ghost use Rattle.control.specs.Transfers.{transfer_of, with_stack};

use machine::Refusal;
use memory::Model;
use stack::{address_on, clear};
pub use words::{of_word, reads_table};

// The instructions that go by AR: BR @AR, CALL @AR, PUSH AR and POP AR.
#[derive(Clone, Copy)]
pub enum ArOp {
    Br,
    Call,
    Push,
    Pop,
}

// HALT and STOP.
#[derive(Clone, Copy)]
pub enum Rest {
    Halt,
    Stop,
}

// Where control goes after an instruction, whatever the data.
#[derive(Clone, Copy)]
pub enum Flow {
    // To the next word.
    Onward,
    // To the next word, or the one after it.
    Skips,
    Branches(u16),
    Calls(u16),
    // RET, and RETSK, which skips.
    Returns(bool),
    // A table reference, then the next word.
    ReadsTable,
    // To the next word, and in standby.
    StandsBy(Rest),
    ByAr(ArOp),
    // The word is no instruction, or one that is not supported, or there is no such register. A flow beside the others, since the rules of
    // the check tell it from them.
    Refused(Refusal),
}

// One more, and 0 after the last address: the PC, a counter of the chip's bits.
pub fn next(model: Model, pc: u16) -> u16
    ensures { result ≡ next_of (chip_of model) pc }
{
    pc.wrapping_add(1) % model.addresses()
}

// The control without its stack, its marks as in the record that C holds.
#[derive(Clone, Copy)]
pub struct Regs {
    pub pc: u16,
    pub levels: u8,
    pub skip: u8,
    pub standby: u8,
}

impl Regs {
    // To the next word, with the skip mark set or not.
    #[tactic(auto, unfolding(crate::specs::Control::onward_of))]
    pub fn onward(self, model: Model, skips: bool) -> Regs
        ensures { (stack : List ℕ) → goes (with_stack stack result) ≡ onward_of (chip_of model) skips (with_stack stack self) }
    {
        Regs {
            pc: next(model, self.pc),
            skip: skips as u8,
            ..self
        }
    }

    // HALT and STOP, each with its mark: a number, as the record has it, since the promise is of any.
    #[tactic(auto, unfolding(crate::specs::Control::standby_of))]
    pub fn stand(self, model: Model, mark: u8) -> Regs
        ensures { (stack : List ℕ) → goes (with_stack stack result) ≡ standby_of (chip_of model) mark (with_stack stack self) }
    {
        Regs {
            pc: next(model, self.pc),
            standby: mark,
            ..self
        }
    }

    // BR @AR, and BR once its target is known to be in reach.
    pub fn jump(self, to: u16) -> Regs
        ensures { (stack : List ℕ) → with_stack stack result ≡ jump_to to (with_stack stack self) }
    {
        Regs { pc: to, ..self }
    }

    // BR.
    #[tactic(auto, unfolding(crate::specs::Control::branch_of))]
    pub fn branch(self, model: Model, to: u16) -> Result<Regs, Refusal>
        ensures { (stack : List ℕ) → transfer_of stack self result ≡ branch_of (chip_of model) to (with_stack stack self) }
    {
        if model.addresses() <= to {
            return Err(Refusal::BadTarget);
        }
        Ok(self.jump(to))
    }

    // One level more, with an address on it, and then to another.
    fn open(
        self,
        model: Model,
        stack: &mut [u16; 5],
        address: u16,
        to: u16,
    ) -> Result<Regs, Refusal>
        ensures { transfer_of stack.new self result ≡ unless_full (chip_of model) (with_stack stack.old self) (jump_to to (pushed address (with_stack stack.old self))) }
    {
        let levels = self.levels;
        if model.levels() <= levels {
            return Err(Refusal::StackFull);
        }
        stack[levels as usize] = address;
        Ok(Regs {
            pc: to,
            levels: levels + 1,
            ..self
        })
    }

    // One level less, and to the address that stood on it.
    fn close(self, stack: &mut [u16; 5]) -> Result<Regs, Refusal>
        ensures { transfer_of stack.new self result ≡ unless_empty (with_stack stack.old self) (jump_to (top_of (with_stack stack.old self)) (popped (with_stack stack.old self))) }
    {
        if self.levels == 0 {
            return Err(Refusal::StackEmpty);
        }
        let below = self.levels - 1;
        let back = address_on(&*stack, below);
        clear(stack, below);
        Ok(Regs {
            pc: back,
            levels: below,
            ..self
        })
    }

    // CALL @AR, and CALL once its target is known to be in reach.
    #[tactic(auto, unfolding(crate::specs::Control::call_of))]
    pub fn call(self, model: Model, stack: &mut [u16; 5], target: u16) -> Result<Regs, Refusal>
        ensures { transfer_of stack.new self result ≡ call_of (chip_of model) target (with_stack stack.old self) }
    {
        self.open(model, stack, next(model, self.pc), target)
    }

    // CALL: the target is tried before the stack.
    pub fn call_in_reach(
        self,
        model: Model,
        stack: &mut [u16; 5],
        target: u16,
    ) -> Result<Regs, Refusal>
        ensures { transfer_of stack.new self result ≡ in_reach (chip_of model) target (with_stack stack.old self) (call_of (chip_of model) target (with_stack stack.old self)) }
    {
        if model.addresses() <= target {
            return Err(Refusal::BadTarget);
        }
        self.call(model, stack, target)
    }

    // RET, and RETSK, which sets the skip mark.
    pub fn ret(self, stack: &mut [u16; 5], skip: bool) -> Result<Regs, Refusal>
        ensures { transfer_of stack.new self result ≡ return_of skip (with_stack stack.old self) }
    {
        let back = self.close(stack)?;
        Ok(Regs {
            skip: skip as u8,
            ..back
        })
    }

    // PUSH AR.
    #[tactic(auto, unfolding(crate::specs::Control::push_of))]
    pub fn push(self, model: Model, stack: &mut [u16; 5], ar: u16) -> Result<Regs, Refusal>
        ensures { transfer_of stack.new self result ≡ push_of (chip_of model) ar (with_stack stack.old self) }
    {
        self.open(model, stack, ar, next(model, self.pc))
    }

    // The address on the highest open level; with none open the one on the lowest place, and past the fifth 0.
    pub fn top(self, stack: &[u16; 5]) -> u16
        ensures { result ≡ top_of (with_stack stack.now self) }
    {
        address_on(stack, self.levels.saturating_sub(1))
    }

    // POP AR, whose value the caller has read.
    pub fn pop(self, model: Model, stack: &mut [u16; 5]) -> Result<Regs, Refusal>
        ensures { transfer_of stack.new self result ≡ pop_of (chip_of model) (with_stack stack.old self) }
    {
        let below = self.close(stack)?;
        Ok(below.jump(next(model, self.pc)))
    }

    // MOVT: one free level is needed, and given back at once.
    #[tactic(auto, unfolding(crate::specs::Control::table_of))]
    pub fn table(self, model: Model) -> Result<Regs, Refusal>
        ensures { (stack : List ℕ) → transfer_of stack self result ≡ table_of (chip_of model) (with_stack stack self) }
    {
        if model.levels() <= self.levels {
            return Err(Refusal::StackFull);
        }
        Ok(self.jump(next(model, self.pc)))
    }
}
