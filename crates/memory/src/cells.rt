// The cell write and the cell read.
ghost use Rattle.std.specs.Prelude.{◌≡◌};
ghost use Rattle.memory.specs.Cells.{is_set, with_flag};
ghost use Rattle.memory.specs.Chip.{chip_of};
ghost use Rattle.memory.specs.Read.{read_of, mix_of};
ghost use Rattle.memory.specs.Write.{kept_of, write_of};

use crate::masks::mask;
use crate::{Memory, Model};

// One cell written, its fixed bits 0; the rest equal. Past 7FH there is no cell. It passes over all places, so that the compiler
// does it in vector registers: a store at a variable place of a copy makes the loads that copy it back wait. The places that are
// left are counted in a byte: by `enumerate` it took four times as long, and of a loop over `zip` no proof knows what it wrote.
pub fn write(model: Model, cells: [u8; 128], at: u8, v: u8) -> [u8; 128]
    ensures { result ≡ write_of (chip_of model) cells at v }
{
    let kept = v & mask(model, at);
    let mut next = cells;
    let mut left = at;
    for cell in next.iter_mut() {
        *cell = if left == 0 { kept } else { *cell };
        left = left.wrapping_sub(1);
    }
    next
}

// The same for cells behind a reference: they become the whole array that `write` returned.
pub fn store(model: Model, cells: &mut [u8; 128], at: u8, v: u8)
    ensures { cells.new ≡ write_of (chip_of model) cells.old at v }
{
    *cells = write(model, *cells, at, v);
}

// Bit by bit the pin where the direction is 0 and the stored bit where it is 1.
#[tactic(auto, unfolding(crate::specs::Read::mix_of))]
fn mix(pin: u8, direction: u8, stored: u8) -> u8
    ensures { result ≡ mix_of pin direction stored }
{
    (pin & (direction ^ 0b1111)) | (stored & direction)
}

// A port as it is read; a bit that is always 0 reads 0.
#[tactic(auto, unfolding(crate::specs::Write::kept_of))]
fn port(model: Model, at: u8, pin: u8, direction: u8, stored: u8) -> u8
    ensures { result ≡ kept_of (chip_of model) at (mix_of pin direction stored) }
{
    mix(pin, direction, stored) & mask(model, at)
}

// A cell as an instruction reads it. Pins and directions are those of P0A to P0E. The ports lie side by side, so that most cells
// are told by two tests.
#[tactic(auto, unfolding(crate::specs::Read::read_of, crate::specs::Read::port_of))]
pub fn read(model: Model, cells: &[u8; 128], pins: &[u8; 5], directions: &[u8; 5], at: u8) -> u8
    ensures { result ≡ read_of (chip_of model) cells.now pins.now directions.now at }
{
    if 128 <= at {
        return 0;
    }
    let stored = cells[at as usize];
    match at {
        Memory::P0A => port(model, at, pins[0], directions[0], stored),
        Memory::P0B => port(model, at, pins[1], directions[1], stored),
        Memory::P0C => port(model, at, pins[2], directions[2], stored),
        Memory::P0D => port(model, at, pins[3], directions[3], stored),
        Memory::P0E => port(model, at, pins[4], directions[4], stored),
        _ => stored,
    }
}

// Whether a flag bit of a cell is 1.
#[tactic(auto, unfolding(crate::specs::Cells::is_set))]
pub fn is_set(cells: &[u8; 128], at: u8, flag: u8) -> bool
    ensures { result ≡ is_set cells.now at flag }
{
    at < 128 && cells[at as usize] & flag != 0
}

// A nibble with a flag bit set or cleared.
#[tactic(auto, unfolding(crate::specs::Cells::with_flag))]
pub fn with_flag(x: u8, flag: u8, on: bool) -> u8
    ensures { result ≡ with_flag x flag on }
{
    if on { x | flag } else { x & (flag ^ 0b1111) }
}
