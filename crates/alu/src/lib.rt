// Operations on nibbles: document 01, "Results". What a flag or a cell is, the memory knows; here are numbers and bits.

#![tactic(auto)]

ghost use Rattle.std.specs.Prelude.{◌≡◌};
ghost use Rattle.alu.specs.Results.{add_of, subtract_of, rotate_of, zero_of, condition_of};
ghost use Rattle.alu.specs.Rows.{row_outcome};

use crate::table::{difference, sum};
use isa::SkipOp;

mod table;

// A result and CY. The result has four bits, unless it is that of logic on bytes that have more.
#[derive(Clone, Copy)]
pub struct Outcome {
    pub result: u8,
    pub carry: bool,
}

// The decimal correction, by what a row of the table prints.
fn decimal(printed: u8) -> Outcome
    ensures { result ≡ row_outcome printed }
{
    Outcome {
        result: printed % 16,
        carry: printed / 16 == 1,
    }
}

#[tactic(auto, using(laws::proofs::Bits::byte_bit, crate::proofs::Rows::sum_rule), unfolding(crate::specs::Results::add_of, crate::specs::Results::binary_sum))]
pub fn add(bcd: bool, a: u8, b: u8, carry: bool) -> Outcome
    ensures { result ≡ add_of bcd a b carry }
{
    let n = a % 16 + b % 16 + carry as u8;
    if bcd {
        return decimal(sum(n));
    }
    Outcome {
        result: n % 16,
        carry: 15 < n,
    }
}

pub fn subtract(bcd: bool, a: u8, b: u8, carry: bool) -> Outcome
    ensures { result ≡ subtract_of bcd a b carry }
{
    let row = (32 + a % 16 - b % 16 - carry as u8) % 32;
    if bcd {
        return decimal(difference(row));
    }
    Outcome {
        result: row % 16,
        carry: 15 < row,
    }
}

// RORC: CY to bit 3, bit 0 to CY.
#[tactic(auto, using(laws::proofs::Bits::byte_bit), unfolding(crate::specs::Results::rotate_of))]
pub fn rotate(x: u8, carry: bool) -> Outcome
    ensures { result ≡ rotate_of x carry }
{
    Outcome {
        result: carry as u8 * 8 + x % 16 / 2,
        carry: x % 2 == 1,
    }
}

// Z after an arithmetic result.
#[tactic(auto, unfolding(crate::specs::Results::zero_of))]
pub fn zero(cmp: bool, z: bool, res: u8) -> bool
    ensures { result ≡ zero_of cmp z res }
{
    if res != 0 {
        return false;
    }
    if cmp {
        return z;
    }
    true
}

// Whether a skip's condition holds of the cell's nibble x.
#[tactic(auto, unfolding(crate::specs::Results::condition_of))]
pub fn skips(op: SkipOp, x: u8, n4: u8) -> bool
    ensures { result ≡ condition_of op x n4 }
{
    match op {
        SkipOp::Skt => x & n4 == n4,
        SkipOp::Skf => x & n4 == 0,
        SkipOp::Ske => x == n4,
        SkipOp::Skne => x != n4,
        SkipOp::Skge => n4 <= x,
        SkipOp::Sklt => x < n4,
    }
}
