// The registers of several cells, AR and the data buffer of four nibbles and IX of three; and the window register.
ghost use Rattle.std.specs.Prelude.{◌≡◌, ◌%◌, ◌<◌, slice_index};
ghost use Rattle.laws.specs.Wrap.{wrap_next};
ghost use Rattle.memory.specs.Chip.{chip_of};
ghost use Rattle.memory.specs.Cells.{number};
ghost use Rattle.memory.specs.Registers.{window_of, ar_of, buffer_of, low_byte_of, low_byte_writes, number_writes, ar_writes, buffer_writes, increment_ar, increment_ix};
ghost use Rattle.memory.specs.Write.{writes_applied};

use crate::addressing::ix;
use crate::cells::write;
use crate::{Memory, Model};

// One more, and 0 after the last of so many bits.
fn next<const BITS: u32>(x: u16) -> u16
    requires { BITS < 16 }
    ensures { result ≡ wrap_next BITS x }
{
    x.wrapping_add(1) % (1 << BITS)
}

// The addresses of the four cells of a number of 16 bits, by nibble.
#[derive(Clone, Copy)]
struct Word {
    nibble3: u8,
    nibble2: u8,
    nibble1: u8,
    nibble0: u8,
}

impl Word {
    const AR: Word = Word {
        nibble3: Memory::AR3,
        nibble2: Memory::AR2,
        nibble1: Memory::AR1,
        nibble0: Memory::AR0,
    };

    const BUFFER: Word = Word {
        nibble3: Memory::DBF3,
        nibble2: Memory::DBF2,
        nibble1: Memory::DBF1,
        nibble0: Memory::DBF0,
    };

    fn read(self, cells: &[u8; 128]) -> u16
        requires { (self.nibble3 < 128) × (self.nibble2 < 128) × (self.nibble1 < 128) × (self.nibble0 < 128) }
        ensures { result ≡ number (slice_index cells.now self.nibble3 % 16) (slice_index cells.now self.nibble2 % 16) (slice_index cells.now self.nibble1 % 16) (slice_index cells.now self.nibble0 % 16) }
    {
        (cells[self.nibble3 as usize] % 16) as u16 * 4096
            + (cells[self.nibble2 as usize] % 16) as u16 * 256
            + (cells[self.nibble1 as usize] % 16) as u16 * 16
            + (cells[self.nibble0 as usize] % 16) as u16
    }

    // In each caller the four addresses are known: apart from it, the run's loop holds the cells four times.
    #[inline(always)]
    #[tactic(auto, unfolding(crate::specs::Write::writes_applied))]
    fn write(self, model: Model, cells: [u8; 128], v: u16) -> [u8; 128]
        ensures { result ≡ writes_applied (chip_of model) cells (number_writes self.nibble3 self.nibble2 self.nibble1 self.nibble0 v) }
    {
        let first = write(model, cells, self.nibble3, (v / 4096) as u8);
        let second = write(model, first, self.nibble2, (v / 256 % 16) as u8);
        let third = write(model, second, self.nibble1, (v / 16 % 16) as u8);
        write(model, third, self.nibble0, (v % 16) as u8)
    }
}

// WR.
pub fn window(cells: &[u8; 128]) -> u8
    ensures { result ≡ window_of cells.now }
{
    cells[Memory::WR as usize]
}

// AR.
#[tactic(auto, unfolding(crate::specs::Registers::ar_of))]
pub fn ar(cells: &[u8; 128]) -> u16
    ensures { result ≡ ar_of cells.now }
{
    Word::AR.read(cells)
}

pub fn write_ar(model: Model, cells: [u8; 128], v: u16) -> [u8; 128]
    ensures { result ≡ writes_applied (chip_of model) cells (ar_writes v) }
{
    Word::AR.write(model, cells, v)
}

// INC AR: after 3FFH comes 000H.
pub fn increment_ar(model: Model, cells: [u8; 128]) -> [u8; 128]
    ensures { result ≡ writes_applied (chip_of model) cells (increment_ar cells) }
{
    let v = next::<10>(ar(&cells));
    write_ar(model, cells, v)
}

// The data buffer.
pub fn buffer(cells: &[u8; 128]) -> u16
    ensures { result ≡ buffer_of cells.now }
{
    Word::BUFFER.read(cells)
}

pub fn write_buffer(model: Model, cells: [u8; 128], v: u16) -> [u8; 128]
    ensures { result ≡ writes_applied (chip_of model) cells (buffer_writes v) }
{
    Word::BUFFER.write(model, cells, v)
}

// The lower eight bits of the data buffer.
pub fn low_byte(cells: &[u8; 128]) -> u8
    ensures { result ≡ low_byte_of cells.now }
{
    cells[Memory::DBF1 as usize] % 16 * 16 + cells[Memory::DBF0 as usize] % 16
}

// The lower eight bits of the data buffer written, and its upper eight kept.
#[tactic(auto, unfolding(crate::specs::Write::writes_applied))]
pub fn write_low_byte(model: Model, cells: [u8; 128], v: u8) -> [u8; 128]
    ensures { result ≡ writes_applied (chip_of model) cells (low_byte_writes v) }
{
    let high = write(model, cells, Memory::DBF1, v / 16);
    write(model, high, Memory::DBF0, v % 16)
}

// INC IX: after 7FH comes 00H, and MPE stays.
#[tactic(auto, unfolding(crate::specs::Write::writes_applied))]
pub fn increment_ix(model: Model, cells: [u8; 128]) -> [u8; 128]
    ensures { result ≡ writes_applied (chip_of model) cells (increment_ix cells) }
{
    let x = next::<7>(ix(&cells) as u16) as u8;
    let high = cells[Memory::IXH as usize];
    let first = write(model, cells, Memory::IXH, high);
    let second = write(model, first, Memory::IXM, x / 16);
    write(model, second, Memory::IXL, x % 16)
}
