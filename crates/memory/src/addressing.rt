// Effective addresses: document 01, "Addresses".
ghost use Rattle.std.specs.Prelude.{◌≡◌};
ghost use Rattle.memory.specs.Address.{ix_of, address_of, register_of, indirect_of};

use crate::Memory;
use crate::cells::is_set;

// IX, seven bits.
#[tactic(auto, unfolding(crate::specs::Address::ix_of))]
pub fn ix(cells: &[u8; 128]) -> u8
    ensures { result ≡ ix_of cells.now }
{
    cells[Memory::IXM as usize] % 8 * 16 + cells[Memory::IXL as usize] % 16
}

// The address of m: ORed with IX where IXE is set.
#[tactic(auto, unfolding(crate::specs::Address::address_of))]
pub fn address(cells: &[u8; 128], m: u8) -> u8
    ensures { result ≡ address_of cells.now m }
{
    if is_set(cells, Memory::PSW, Memory::IXE) {
        m | ix(cells)
    } else {
        m
    }
}

// The address of the general register r, which is never ORed.
#[tactic(auto, unfolding(crate::specs::Address::register_of))]
pub fn register(cells: &[u8; 128], r: u8) -> u8
    ensures { result ≡ register_of cells.now r }
{
    cells[Memory::RPL as usize] % 16 / 2 * 16 + r % 16
}

// The address of @r, given the content of r.
#[tactic(auto, unfolding(crate::specs::Address::indirect_of))]
pub fn indirect(cells: &[u8; 128], m: u8, content: u8) -> u8
    ensures { result ≡ indirect_of cells.now m content }
{
    if is_set(cells, Memory::IXH, Memory::MPE) {
        cells[Memory::IXM as usize] % 8 * 16 + content % 16
    } else {
        address(cells, m) / 16 * 16 + content % 16
    }
}
