// Port directions from the control registers, 1 for output.
ghost use Rattle.std.specs.Prelude.{◌≡◌};
ghost use Rattle.peripherals.specs.Directions.{group_direction, timer_direction, directions_of};

use crate::Peripherals;

// P0B: one bit for all four pins.
fn group(registers: [u8; 7]) -> u8
    ensures { result ≡ group_direction registers }
{
    if registers[Peripherals::P0BGIO] & Peripherals::GROUP != 0 {
        0b1111
    } else {
        0b0000
    }
}

// P0D: bit 3 is the timer's output where TMOSEL is 1.
fn with_timer(registers: [u8; 7]) -> u8
    ensures { result ≡ timer_direction registers }
{
    let own = registers[Peripherals::P0DBIO];
    if registers[Peripherals::TMO] & Peripherals::TMOSEL != 0 {
        own | 0b1000
    } else {
        own
    }
}

// Of P0A to P0E, as the input record has its pins.
#[tactic(auto, unfolding(crate::specs::Directions::directions_of))]
pub fn directions(registers: [u8; 7]) -> [u8; 5]
    ensures { result ≡ directions_of registers }
{
    [
        registers[Peripherals::P0ABIO],
        group(registers),
        registers[Peripherals::P0CBIO],
        with_timer(registers),
        registers[Peripherals::P0EBIO],
    ]
}
