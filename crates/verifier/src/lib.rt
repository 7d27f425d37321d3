// The level sheet check. A ROM that passes it with its sheet never runs into a refusal of its own.

#![tactic(auto)]

mod reading;
mod rules;
mod verification;

ghost use Rattle.std.specs.Prelude.{◌≡◌};
ghost use Rattle.verifier.specs.Verdict.{answer_of, check_number, verdict_number};

pub use verification::verify;

// What the check says of a ROM and a sheet that fit each other. A broken rule is its answer, and no error.
#[derive(Clone, Copy, Debug, PartialEq, Eq)]
pub enum Verdict {
    Pass,
    // The lowest word that breaks a clearance rule, and its lowest rule.
    Fail { word: u16, rule: u8 },
}

// Why the check tries no rule.
#[derive(Clone, Copy, Debug, PartialEq, Eq)]
pub enum CheckRefusal {
    // The ROM has no word, or more than the model allows.
    RomLength,
    // The sheet has not two bytes for each word of the ROM.
    SheetLength,
}

impl From<CheckRefusal> for u8 {
    ghost from_gives = { λ refusal number. number ≡ check_number refusal };

    fn from(refusal: CheckRefusal) -> u8 {
        match refusal {
            CheckRefusal::RomLength => 1,
            CheckRefusal::SheetLength => 9,
        }
    }
}

// 0 for a pass and 254 for a fail, which no refusal is.
pub fn verdict_number(answer: Result<Verdict, CheckRefusal>) -> u8
    ensures { result ≡ verdict_number (answer_of answer) }
{
    match answer {
        Ok(Verdict::Pass) => 0,
        Ok(Verdict::Fail { word: _, rule: _ }) => 254,
        Err(refusal) => u8::from(refusal),
    }
}
