// The bits that stay at each address; the others are always 0.
ghost use Rattle.std.specs.Prelude.{◌≡◌, slice_index};
ghost use Rattle.memory.specs.Chip.{chip_of, subseries_masks};
ghost use Rattle.memory.specs.Write.{mask_at};

use crate::{Memory, Model};

// All bits of a nibble stay, but at seven cells, which come in document 01's order. Past 7FH there is no cell.
fn subseries(at: u8) -> u8
    ensures { result ≡ slice_index subseries_masks at }
{
    match at {
        Memory::AR3 => 0b0000,
        Memory::BANK => 0b0000,
        Memory::RPH => 0b0000,
        Memory::AR2 => 0b0011,
        Memory::IXH => 0b1000,
        Memory::IXM => 0b0111,
        Memory::P0E => 0b0011,
        128.. => 0,
        _ => 0b1111,
    }
}

// The bits that stay at an address; none of a cell that is not installed.
pub fn mask(model: Model, at: u8) -> u8
    ensures { result ≡ mask_at (chip_of model) at }
{
    if model.is_installed(at) {
        subseries(at)
    } else {
        0
    }
}
