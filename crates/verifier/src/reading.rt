// A ROM and its sheet as the rules read them.
ghost use Rattle.std.specs.Prelude.{◌≡◌, ◌≤◌, length};
ghost use Rattle.memory.specs.Chip.{chip_of};
ghost use Rattle.control.specs.Flow.{word_flow};
ghost use Rattle.clearance.specs.Rules.{is_return_skip, flow_at, met};
ghost use Rattle.verifier.specs.ReturnDepths.{ReturnDepths};

use control::Flow;
use machine::Refusal;
use memory::Model;
use sheet::{Entry, UNREACHED, entry_at, with_depths};

// What the rules read, for one model.
#[derive(Clone, Copy)]
pub(crate) struct Check<'a> {
    pub(crate) model: Model,
    pub(crate) rom: &'a [u16],
    pub(crate) sheet: &'a [u8],
    // The depths that some reached RETSK holds.
    pub(crate) depths: [u8; 6],
    ghost returned: { ReturnDepths (chip_of model) rom.now sheet.now depths },
}

// A word by its number, its flow and its entry.
#[derive(Clone, Copy)]
pub(crate) struct Word {
    pub(crate) number: u16,
    pub(crate) flow: Flow,
    pub(crate) entry: Entry,
}

impl Check<'_> {
    // Whether a word that a rule names lies in the ROM and its entry covers what is asked.
    #[tactic(auto, unfolding(clearance::specs::Rules::met))]
    pub(crate) fn is_met(&self, word: u16, asked: Entry) -> bool
        ensures { result ≡ met (chip_of self.now.model) self.now.rom.now self.now.sheet.now (record { word = word; entry = asked }) }
    {
        (word as usize) < self.rom.len()
            && entry_at(self.sheet, word).has_all_of(self.model.levels(), asked)
    }
}

// The flow of a word; past the ROM there is no instruction.
pub(crate) fn flow_at(rom: &[u16], word: u16) -> Flow
    ensures { result ≡ flow_at rom.now word }
{
    let Some(code) = rom.get(word as usize) else {
        return Flow::Refused(Refusal::NoInstruction);
    };
    control::of_word(*code)
}

// RETSK's word.
const RETSK: u16 = 0b00111_001_1110_0000;

// Whether a word returns with a skip. RETSK alone does, and it has one word, so nothing is decoded.
fn is_return_skip(word: u16) -> bool
    ensures { result ≡ is_return_skip (word_flow word) }
{
    word == RETSK
}

// The depths that some reached RETSK holds, in one pass over the ROM.
pub(crate) fn return_depths(model: Model, rom: &[u16], sheet: &[u8]) -> [u8; 6]
    requires { length rom.now ≤ 1024 }
    ensures { ReturnDepths (chip_of model) rom.now sheet.now result }
{
    let mut depths = [UNREACHED; 6];
    for (word, code) in rom.iter().enumerate() {
        if is_return_skip(*code) {
            let more = with_depths(model.levels(), depths, entry_at(sheet, word as u16));
            depths = more;
        }
    }
    depths
}
