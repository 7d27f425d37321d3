// The peripherals in two parts, the registers and the timer, and put together.
ghost use Rattle.std.specs.Prelude.{◌≡◌};
ghost use Rattle.peripherals.specs.Parts.{with_timer};

use crate::{Peripherals, Timer};

impl From<Peripherals> for Timer {
    ghost from_gives = { λ p timer. (with_timer p.registers timer ≡ p) × (timer.quiet ≡ 0) };

    fn from(p: Peripherals) -> Timer
        ensures { (with_timer p.registers result ≡ p) × (result.quiet ≡ 0) }
    {
        Timer {
            modulo: p.modulo,
            counter: p.counter,
            divider: p.divider,
            quiet: 0,
        }
    }
}

impl Timer {
    pub fn with(self, registers: [u8; 7]) -> Peripherals
        ensures { result ≡ with_timer registers self }
    {
        Peripherals {
            registers,
            modulo: self.modulo,
            counter: self.counter,
            divider: self.divider,
        }
    }
}
