// The forms of a file, and which one a file or a station has.
ghost use Rattle.std.specs.Prelude.{◌≡◌, cond};
ghost use Rattle.station_file.specs.Station.{form1, form2};
ghost use Rattle.station_file.specs.Forms.{form_for, all_equal};
ghost use Rattle.station_file.specs.Places.{form_of};

use crate::two_bytes::read_number;

// Each form with its number. They differ in the bytes of a sheet's entry.
#[derive(Clone, Copy)]
pub(crate) enum Form {
    One = 1,
    Two = 2,
}

impl Form {
    // The number in the first two bytes of a file.
    pub(crate) fn number(self) -> u16
        ensures { result ≡ (form_of self).number }
    {
        self as u16
    }

    // The bytes of an entry.
    pub(crate) fn entry_bytes(self) -> usize
        ensures { result ≡ (form_of self).entry_bytes }
    {
        match self {
            Form::One => 1,
            Form::Two => 2,
        }
    }
}

// The form of a file. One with another number is then refused by form 1.
#[tactic(auto, unfolding(crate::specs::Forms::form_for))]
pub(crate) fn form_of(file: &[u8]) -> Form
    ensures { form_of result ≡ form_for file.now }
{
    match read_number(file) {
        Ok((2, _)) => Form::Two,
        _ => Form::One,
    }
}

// Whether each entry is one level.
fn all_equal(sheet: &[u8]) -> bool
    ensures { result ≡ all_equal sheet.now }
{
    let mut left = sheet;
    while let [lowest, highest, rest @ ..] = left {
        if lowest != highest {
            return false;
        }
        left = rest;
    }
    true
}

// The form that a sheet is written in.
pub(crate) fn lowest_form(sheet: &[u8]) -> Form
    ensures { form_of result ≡ cond (all_equal sheet.now) form1 form2 }
{
    if all_equal(sheet) {
        Form::One
    } else {
        Form::Two
    }
}
