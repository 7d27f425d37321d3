// The lamps: all ports in one number.
ghost use Rattle.std.specs.Prelude.{◌≡◌, ◌+◌, ◌*◌, ◌^◌};
ghost use Rattle.memory.specs.Image.{image_of};

use crate::Memory;

// Five nibbles in one number, the first in its lowest four bits.
fn packed(a: u8, b: u8, c: u8, d: u8, e: u8) -> u32
    ensures { result ≡ a + b * 2 ^ 4 + c * 2 ^ 8 + d * 2 ^ 12 + e * 2 ^ 16 }
{
    a as u32 + b as u32 * 16 + c as u32 * 256 + d as u32 * 4096 + e as u32 * 65536
}

// The port image: what is stored in P0A, P0B, P0C, P0D and P0E, from the lowest bits up.
#[tactic(auto, unfolding(crate::specs::Image::image_of))]
pub fn image(cells: &[u8; 128]) -> u32
    ensures { result ≡ image_of cells.now }
{
    packed(
        cells[Memory::P0A as usize],
        cells[Memory::P0B as usize],
        cells[Memory::P0C as usize],
        cells[Memory::P0D as usize],
        cells[Memory::P0E as usize],
    )
}
