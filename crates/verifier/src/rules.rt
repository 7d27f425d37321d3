// The clearance rules, each of a word.
ghost use Rattle.std.specs.Prelude.{◌≡◌, true, [], ◌∷◌, ◌≤◌, ◌-◌};
ghost use Rattle.memory.specs.Chip.{chip_of};
ghost use Rattle.control.specs.Control.{next_of};
ghost use Rattle.sheet.specs.Entry.{at_most, reached};
ghost use Rattle.clearance.specs.Rules.{all_met, met, rule1, rule2, rule3, rule4, rule5, rule6, rule_of};

use crate::reading::{Check, Word};
use control::{Flow, next};
use sheet::{Entry, shares_any};

impl Check<'_> {
    // Rule 1, of word 0 only.
    #[tactic(auto, unfolding(clearance::specs::Rules::rule1))]
    fn rule_1(&self, at: Word) -> bool
        ensures { result ≡ rule1 (chip_of self.now.model) at.number at.entry }
    {
        at.number != 0 || at.entry.has_depth(self.model.levels(), 0)
    }

    // Rule 2.
    #[tactic(auto, unfolding(clearance::specs::Rules::rule2))]
    fn rule_2(&self, at: Word) -> bool
        ensures { result ≡ rule2 (chip_of self.now.model) at.entry }
    {
        at.entry.is_proper(self.model.levels())
    }

    // Whether one level is free, whatever the depth.
    fn leaves_room(&self, entry: Entry) -> bool
        ensures { result ≡ at_most ((chip_of self.now.model).levels - 1) entry }
    {
        entry.at_most(self.model.levels() - 1)
    }

    // MOVT.
    fn table_allowed(&self, entry: Entry) -> bool
        ensures { result ≡ rule3 (chip_of self.now.model) self.now.rom.now Flow.ReadsTable entry }
    {
        self.rom.len() == 1024 && self.leaves_room(entry)
    }

    // Rule 3.
    fn rule_3(&self, at: Word) -> bool
        ensures { result ≡ rule3 (chip_of self.now.model) self.now.rom.now at.flow at.entry }
    {
        match at.flow {
            Flow::Onward => true,
            Flow::Skips => true,
            Flow::Branches(_) => true,
            Flow::Calls(_) => true,
            Flow::Returns(_) => true,
            Flow::ReadsTable => self.table_allowed(at.entry),
            Flow::StandsBy(_) => true,
            Flow::ByAr(_) => false,
            Flow::Refused(_) => false,
        }
    }

    // The two words that a skip may go to.
    fn skip_met(&self, after: u16, entry: Entry) -> bool
        ensures { result ≡ all_met (chip_of self.now.model) self.now.rom.now self.now.sheet.now (record { word = after; entry = entry } ∷ record { word = next_of (chip_of self.now.model) after; entry = entry } ∷ []) }
    {
        self.is_met(after, entry) && self.is_met(next(self.model, after), entry)
    }

    // Rule 4.
    fn rule_4(&self, at: Word) -> bool
        ensures { result ≡ rule4 (chip_of self.now.model) self.now.rom.now self.now.sheet.now at.number at.flow at.entry }
    {
        let after = next(self.model, at.number);
        match at.flow {
            Flow::Onward => self.is_met(after, at.entry),
            Flow::Skips => self.skip_met(after, at.entry),
            Flow::Branches(to) => self.is_met(to, at.entry),
            Flow::Calls(_) => self.is_met(after, at.entry),
            Flow::Returns(_) => true,
            Flow::ReadsTable => self.is_met(after, at.entry),
            Flow::StandsBy(_) => self.is_met(after, at.entry),
            Flow::ByAr(_) => true,
            Flow::Refused(_) => true,
        }
    }

    // The word after next, to which a RETSK comes back.
    fn skipped_met(&self, word: u16, entry: Entry) -> bool
        ensures { result ≡ met (chip_of self.now.model) self.now.rom.now self.now.sheet.now (record { word = next_of (chip_of self.now.model) (next_of (chip_of self.now.model) word); entry = entry }) }
    {
        let back = next(self.model, word);
        self.is_met(next(self.model, back), entry)
    }

    // CALL, at a word that is reached.
    fn call_allowed(&self, word: u16, to: u16, entry: Entry) -> bool
        requires { reached (chip_of self.now.model).levels entry ≡ true }
        ensures { result ≡ rule5 (chip_of self.now.model) self.now.rom.now self.now.sheet.now word (Flow.Calls to) entry }
    {
        if !self.leaves_room(entry) {
            return false;
        }
        let higher = entry.raised();
        self.is_met(to, higher)
            && (!shares_any(self.model.levels(), self.depths, higher)
                || self.skipped_met(word, entry))
    }

    // Rule 5, of a word that is reached.
    fn rule_5(&self, at: Word) -> bool
        requires { reached (chip_of self.now.model).levels at.entry ≡ true }
        ensures { result ≡ rule5 (chip_of self.now.model) self.now.rom.now self.now.sheet.now at.number at.flow at.entry }
    {
        let Flow::Calls(to) = at.flow else {
            return true;
        };
        self.call_allowed(at.number, to, at.entry)
    }

    // Whether a rule holds; rules 3 to 6 are those of reached words. A rule goes by its number, since the paper numbers the rules and
    // `verify` counts and names them so: an enum would need its numbers and its order besides.
    #[tactic(auto, unfolding(clearance::specs::Rules::rule_of))]
    pub(crate) fn rule_holds(&self, at: Word, rule: u8) -> bool
        requires { (1 ≤ rule) × (rule ≤ 6) }
        ensures { result ≡ rule_of (chip_of self.now.model) self.now.rom.now self.now.sheet.now at.number at.flow at.entry rule }
    {
        let reached = at.entry.is_reached(self.model.levels());
        match rule {
            1 => self.rule_1(at),
            2 => self.rule_2(at),
            3 => !reached || self.rule_3(at),
            4 => !reached || self.rule_4(at),
            5 => !reached || self.rule_5(at),
            _ => !reached || rule_6(at),
        }
    }
}

// Rule 6.
fn rule_6(at: Word) -> bool
    ensures { result ≡ rule6 at.flow at.entry }
{
    let Flow::Returns(_) = at.flow else {
        return true;
    };
    at.entry.at_least(1)
}
