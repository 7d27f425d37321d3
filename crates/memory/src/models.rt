// What differs from model to model.
ghost use Rattle.std.specs.Prelude.{◌≡◌, ◌^◌};
ghost use Rattle.memory.specs.Chip.{chip_of, is_missing, is_whole};

use crate::Model;

impl Model {
    // The most words a ROM may have.
    pub fn words(self) -> usize
        ensures { result ≡ (chip_of self).words }
    {
        match self {
            Model::Upd17132 => 1024,
            Model::Upd17120 => 768,
        }
    }

    // The addresses that the PC can hold: 2 to the power of its bits.
    pub fn addresses(self) -> u16
        ensures { result ≡ 2 ^ (chip_of self).pc_bits }
    {
        match self {
            Model::Upd17132 => 1024,
            Model::Upd17120 => 1024,
        }
    }

    // The levels of the address stack.
    pub fn levels(self) -> u8
        ensures { result ≡ (chip_of self).levels }
    {
        match self {
            Model::Upd17132 => 5,
            Model::Upd17120 => 5,
        }
    }

    // Whether a cell is installed.
    pub fn is_installed(self, at: u8) -> bool
        ensures { result ≡ (chip_of self).installed at }
    {
        match self {
            Model::Upd17132 => true,
            Model::Upd17120 => !matches!(at, 0x40..=0x6E),
        }
    }

    // Whether there is such a cell, and the chip lacks it.
    pub fn is_missing(self, at: u8) -> bool
        ensures { result ≡ is_missing (chip_of self) at }
    {
        at < 128 && !self.is_installed(at)
    }

    // Whether every cell is installed.
    #[tactic(auto, unfolding(crate::specs::Chip::is_whole))]
    pub fn is_whole(self) -> bool
        ensures { result ≡ is_whole (chip_of self) }
    {
        matches!(self, Model::Upd17132)
    }
}
