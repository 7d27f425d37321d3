// Which cells are in range. Model and cells go side by side, as in `memory`.
ghost use Rattle.std.specs.Prelude.{◌≡◌, cond, ◌<◌};
ghost use Rattle.laws.specs.Every.{every};
ghost use Rattle.memory.specs.Chip.{chip_of};
ghost use Rattle.memory.specs.Range.{cell_in_range, cells_in_range};
ghost use Rattle.machine.specs.FixedBits.{empty_if_missing, fixed_in_range};
ghost use Rattle.machine.specs.Ranges.{is_nibble};

use memory::{Memory, Model};

// Whether every cell holds a nibble: no bit of any is above the lowest four. The bits are joined and tested once, here and in
// `missing_empty`, which the compiler does in vector registers: by `all` it took four times as long, and there twenty times.
fn all_nibbles(cells: &[u8; 128]) -> bool
    ensures { result ≡ every (is_nibble cells.now) 128 }
{
    cells.iter().fold(0, |bits, cell| bits | *cell) < 16
}

// Whether a cell holds only bits that stay.
#[tactic(auto, unfolding(memory::specs::Write::kept_of))]
fn stays(model: Model, cells: &[u8; 128], at: u8) -> bool
    requires { at < 128 }
    ensures { result ≡ cell_in_range (chip_of model) cells.now at }
{
    let v = cells[at as usize];
    v & memory::mask(model, at) == v
}

// The seven cells where not every bit of a nibble stays.
fn fixed_bits(model: Model, cells: &[u8; 128]) -> bool
    ensures { result ≡ fixed_in_range (chip_of model) cells.now }
{
    stays(model, cells, Memory::AR3)
        && stays(model, cells, Memory::BANK)
        && stays(model, cells, Memory::RPH)
        && stays(model, cells, Memory::AR2)
        && stays(model, cells, Memory::IXH)
        && stays(model, cells, Memory::IXM)
        && stays(model, cells, Memory::P0E)
}

// What a cell must not hold: anything, where it is not installed.
fn surplus(model: Model, at: u8, v: u8) -> u8
    ensures { result ≡ cond ((chip_of model).installed at) 0 v }
{
    if model.is_installed(at) { 0 } else { v }
}

// Whether every cell that the chip lacks is 0.
fn missing_empty(model: Model, cells: &[u8; 128]) -> bool
    ensures { result ≡ every (empty_if_missing (chip_of model) cells.now) 128 }
{
    if model.is_whole() {
        return true;
    }
    let mut bits = 0;
    for (at, cell) in cells.iter().enumerate() {
        bits |= surplus(model, at as u8, *cell);
    }
    bits == 0
}

// The missing cells come first: with the nibbles before them the run's loop, in which this is inlined, was slower.
pub fn in_range(model: Model, cells: &[u8; 128]) -> bool
    ensures { result ≡ cells_in_range (chip_of model) cells.now }
{
    if !missing_empty(model, cells) {
        return false;
    }
    all_nibbles(cells) && fixed_bits(model, cells)
}
