// The check.
ghost use Rattle.std.specs.Prelude.{◌≡◌, ◌↔◌};
ghost use Rattle.memory.specs.Chip.{chip_of};
ghost use Rattle.clearance.specs.Safe.{Safe};
ghost use Rattle.verifier.specs.Verdict.{answer_of, pass, verify_of, Clear};

use crate::reading::{Check, Word, flow_at, return_depths};
use crate::{CheckRefusal, Verdict};
use memory::Model;
use sheet::entry_at;

// The first word that breaks a rule, with its first rule, for one model. The last promise is demand 3 on that model.
pub fn verify(model: Model, rom: &[u16], sheet: &[u8]) -> Result<Verdict, CheckRefusal>
    ensures verdict { answer_of result ≡ verify_of (chip_of model) rom.now sheet.now }
    ensures clear { (answer_of result ≡ pass) ↔ Clear (chip_of model) rom.now sheet.now }
    ensures safe { answer_of result ≡ pass → Safe (chip_of model) rom.now sheet.now }
{
    if rom.len() == 0 {
        return Err(CheckRefusal::RomLength);
    }
    if model.words() < rom.len() {
        return Err(CheckRefusal::RomLength);
    }
    if sheet.len() != 2 * rom.len() {
        return Err(CheckRefusal::SheetLength);
    }
    let check = Check {
        model,
        rom,
        sheet,
        depths: return_depths(model, rom, sheet),
    };
    // Labelled loops that yield the first word and rule by `break`, as the scope paper has them; a `for` yields no value.
    let mut word: u16 = 0;
    'words: loop {
        if rom.len() <= word as usize {
            break 'words Ok(Verdict::Pass);
        }
        let at = Word {
            number: word,
            flow: flow_at(rom, word),
            entry: entry_at(sheet, word),
        };
        'rules: for rule in 1..=6 {
            if !check.rule_holds(at, rule) {
                break 'words Ok(Verdict::Fail { word, rule });
            }
        }
        word += 1;
    }
}
