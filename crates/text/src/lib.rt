// Numbers as hexadecimal text in ASCII, upper case, into arrays: `write!` promises its bytes only where it answers Ok.

#![tactic(auto)]

ghost use Rattle.std.specs.Prelude.{◌≡◌};
ghost use Rattle.text.specs.Hex.{hex_digit_of, hex_digits_of};

const DIGITS: [u8; 16] = *b"0123456789ABCDEF";

// The digit of the low four bits.
#[tactic(auto, unfolding(crate::specs::Hex::hex_digit_of, crate::specs::Hex::codes))]
pub fn hex_digit(n: u8) -> u8
    ensures { result ≡ hex_digit_of n }
{
    DIGITS[usize::from(n % 16)]
}

// Four digits, the highest first.
pub fn hex4(n: u16) -> [u8; 4]
    ensures { result ≡ hex_digits_of n }
{
    let [high, low] = n.to_be_bytes();
    [
        hex_digit(high / 16),
        hex_digit(high),
        hex_digit(low / 16),
        hex_digit(low),
    ]
}
