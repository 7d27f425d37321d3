// What is in range: refusal 1.
ghost use Rattle.std.specs.Prelude.{◌≡◌};
ghost use Rattle.peripherals.specs.Range.{peripherals_in_range};

use crate::Peripherals;
use crate::registers::mask;

// No bit that does not stay, and a divider of seven bits; counter and modulo are whole bytes. By a `for`: of `all` over `zip` the proof
// did not close.
pub fn in_range(p: Peripherals) -> bool
    ensures { result ≡ peripherals_in_range p }
{
    let registers = p.registers;
    for (at, held) in registers.iter().enumerate() {
        if *held & mask(at) != *held {
            return false;
        }
    }
    p.divider < 128
}
