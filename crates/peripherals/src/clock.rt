// The timer: the divider, its pulses, the counter.
ghost use Rattle.std.specs.Prelude.{◌≡◌, ℕ, ◌+◌, ◌%◌, List, MatchOption, true, false};
ghost use Rattle.peripherals.specs.Clock.{clock_number};
ghost use Rattle.peripherals.specs.Registers.{is_on, with_modulo};
ghost use Rattle.peripherals.specs.Table.{TM, TMEN};
ghost use Rattle.peripherals.specs.Timer.{clock_of, comes_of, count_of, counter_of, tick_of};
ghost use Rattle.peripherals.specs.Pace.{left_of, paced_of, rest_of};
ghost use Rattle.peripherals.specs.Parts.{with_timer};

use crate::{Peripherals, Timer};

// The clocks of the counter, in the order of TMCK: three of the divider's, by their cycles, and the INT pin.
#[derive(Clone, Copy)]
enum Clock {
    Cycles16,
    Cycles2,
    Cycles128,
    Pin,
}

// TMCK: the two low bits of the timer's mode.
impl From<u8> for Clock {
    ghost from_gives = { λ mode clock. clock_number clock ≡ mode % 4 };

    fn from(mode: u8) -> Clock
        ensures { clock_number result ≡ mode % 4 }
    {
        match mode % 4 {
            0 => Clock::Cycles16,
            1 => Clock::Cycles2,
            2 => Clock::Cycles128,
            _ => Clock::Pin,
        }
    }
}

// The clock that the counter counts by; none where the timer is stopped.
fn running(registers: &[u8; 7]) -> Option<Clock>
    ensures { MatchOption result (is_on registers.now TM TMEN ≡ false) (λ clock. (is_on registers.now TM TMEN ≡ true) × (clock_number clock ≡ clock_of registers.now)) }
{
    let mode = registers[Peripherals::TM];
    if mode & Peripherals::TMEN == 0 {
        return None;
    }
    Some(Clock::from(mode))
}

// Whether a pulse comes in so many cycles.
#[tactic(auto, using(crate::proofs::Crossing::crossing), unfolding(crate::specs::Timer::comes_of, crate::specs::Timer::period_of))]
fn comes(clock: Clock, divider: u8, cycles: u8, pulse: u8) -> bool
    ensures { result ≡ comes_of (clock_number clock) divider cycles pulse }
{
    let from = divider as u16;
    let to = from + cycles as u16;
    match clock {
        Clock::Cycles16 => from / 16 < to / 16,
        Clock::Cycles2 => from / 2 < to / 2,
        Clock::Cycles128 => from / 128 < to / 128,
        Clock::Pin => pulse != 0,
    }
}

// The counter at a pulse.
#[tactic(auto, unfolding(crate::specs::Timer::count_of))]
fn count(modulo: u8, counter: u8) -> u8
    ensures { result ≡ count_of modulo counter }
{
    let next = counter.wrapping_add(1);
    if counter == modulo { 0 } else { next }
}

// Seven bits, whatever TMEN and TMCK are.
fn moved(divider: u8, cycles: u8) -> u8
    ensures { result ≡ (divider + cycles) % 128 }
{
    divider.wrapping_add(cycles) % 128
}

// How many cycles from a divider bring no pulse that counts.
#[tactic(auto, unfolding(crate::specs::Pace::rest_of, crate::specs::Pace::rest_in, crate::specs::Timer::period_of))]
fn rest(registers: &[u8; 7], divider: u8, pulse: u8) -> u16
    ensures { result ≡ rest_of registers.now divider pulse }
{
    match running(registers) {
        None => 127,
        Some(Clock::Cycles16) => 15 - (divider % 16) as u16,
        Some(Clock::Cycles2) => 1 - (divider % 2) as u16,
        Some(Clock::Cycles128) => 127 - (divider % 128) as u16,
        Some(Clock::Pin) => if pulse == 0 { 127 } else { 0 },
    }
}

impl Timer {
    // The counter after so many cycles.
    fn counted(self, registers: &[u8; 7], cycles: u8, pulse: u8) -> u8
        ensures { result ≡ counter_of (with_timer registers.now self) cycles pulse }
    {
        match running(registers) {
            Some(clock) if comes(clock, self.divider, cycles, pulse) => {
                count(self.modulo, self.counter)
            }
            _ => self.counter,
        }
    }

    // A step's cycles, at most two, after its writes; with TMCK 11 its pulse is the one given.
    #[tactic(auto, unfolding(crate::specs::Timer::tick_of))]
    pub fn tick(self, registers: &[u8; 7], cycles: u8, pulse: u8) -> Timer
        ensures { (with_timer registers.now result ≡ tick_of (with_timer registers.now self) cycles pulse) × (result.quiet ≡ 0) }
    {
        let divider = moved(self.divider, cycles);
        Timer {
            counter: self.counted(registers, cycles, pulse),
            divider,
            quiet: 0,
            ..self
        }
    }

    // The same as a tick where the timer is as quiet as it says: the clock is looked at only where a pulse can come.
    pub fn pace(self, registers: &[u8; 7], cycles: u8, pulse: u8) -> Timer
        ensures { (with_timer registers.now result ≡ paced_of (with_timer registers.now self) self.quiet cycles pulse) × (result.quiet ≡ left_of (with_timer registers.now self) self.quiet cycles pulse) }
    {
        if cycles as u16 <= self.quiet {
            return Timer {
                divider: moved(self.divider, cycles),
                quiet: self.quiet - cycles as u16,
                ..self
            };
        }
        let after = self.tick(registers, cycles, pulse);
        Timer {
            quiet: rest(registers, after.divider, pulse),
            ..after
        }
    }

    // PUT to the modulo register.
    pub fn with_modulo(self, v: u8) -> Timer
        ensures { ((registers : List ℕ) → with_timer registers result ≡ with_modulo (with_timer registers self) v) × (result.quiet ≡ 0) }
    {
        Timer {
            modulo: v,
            quiet: 0,
            ..self
        }
    }
}
