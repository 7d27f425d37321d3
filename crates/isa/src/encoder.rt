// From an instruction to its word.
ghost use Rattle.std.specs.Prelude.{◌≡◌, ◌&&◌, ◌+◌, ◌*◌, ◌<◌, ltb, cond, Ok, Err};
ghost use Rattle.isa.specs.Answers.{encoding_of};
ghost use Rattle.isa.specs.Encode.{encode_of, word_of, alu_code, skip_code, addressed, jump, filed, fitted};

use crate::{AluOp, FixedOp, Instruction, SkipOp, TooLarge};

#[tactic(auto, unfolding(crate::specs::Encode::word_of))]
// The codes are the manual's, and no discriminants: here they stand beside each other, as its table has them.
fn alu_code(op: AluOp) -> u16
    ensures { (result ≡ alu_code op) × (result < 7) }
{
    match op {
        AluOp::Add => 0b00000,
        AluOp::AddC => 0b00010,
        AluOp::Sub => 0b00001,
        AluOp::SubC => 0b00011,
        AluOp::Or => 0b00110,
        AluOp::And => 0b00100,
        AluOp::Xor => 0b00101,
    }
}

#[tactic(auto, unfolding(crate::specs::Encode::word_of))]
fn skip_code(op: SkipOp) -> u16
    ensures { (result ≡ skip_code op) × (result < 32) }
{
    match op {
        SkipOp::Skt => 0b11110,
        SkipOp::Skf => 0b11111,
        SkipOp::Ske => 0b01001,
        SkipOp::Skne => 0b01011,
        SkipOp::Skge => 0b11001,
        SkipOp::Sklt => 0b11011,
    }
}

// The word of an instruction that has no operand.
#[tactic(auto, unfolding(crate::specs::Encode::word_of))]
fn fixed(op: FixedOp) -> u16
    ensures { result ≡ word_of (Instruction.Fixed op) }
{
    match op {
        FixedOp::IncAr => 0b00111_000_1001_0000,
        FixedOp::IncIx => 0b00111_000_1000_0000,
        FixedOp::Movt => 0b00111_000_0001_0000,
        FixedOp::PushAr => 0b00111_000_1101_0000,
        FixedOp::PopAr => 0b00111_000_1100_0000,
        FixedOp::BrAr => 0b00111_000_0100_0000,
        FixedOp::CallAr => 0b00111_000_0101_0000,
        FixedOp::Ret => 0b00111_000_1110_0000,
        FixedOp::Retsk => 0b00111_001_1110_0000,
        FixedOp::Reti => 0b00111_100_1110_0000,
        FixedOp::Ei => 0b00111_000_1111_0000,
        FixedOp::Di => 0b00111_001_1111_0000,
        FixedOp::Nop => 0b00111_100_1111_0000,
    }
}

// A value for a field that has `size` values.
fn field(value: u16, size: u16) -> Result<u16, TooLarge>
    ensures { result ≡ cond (ltb value size) (Ok value) (Err (record {})) }
{
    if value < size {
        Ok(value)
    } else {
        Err(TooLarge)
    }
}

// An opcode, an address and a nibble.
fn with_address(op: u16, m: u8, x: u8) -> Result<u16, TooLarge>
    requires { op < 32 }
    ensures { encoding_of result ≡ fitted (ltb m 128 && ltb x 16) (addressed op m x) }
{
    let m = field(u16::from(m), 128)?;
    let x = field(u16::from(x), 16)?;
    Ok(op * 2048 + m * 16 + x)
}

// An opcode and an 11-bit program address.
fn with_target(op: u16, addr: u16) -> Result<u16, TooLarge>
    requires { op < 32 }
    ensures { encoding_of result ≡ fitted (ltb addr 2048) (jump op addr) }
{
    let addr = field(addr, 2048)?;
    Ok(op * 2048 + addr)
}

// Opcode 7, a column, and a 7-bit operand around it.
fn around(column: u16, p: u8) -> Result<u16, TooLarge>
    requires { column < 16 }
    ensures { encoding_of result ≡ fitted (ltb p 128) (filed column p) }
{
    let p = field(u16::from(p), 128)?;
    Ok(0b00111 * 2048 + p / 16 * 256 + column * 16 + p % 16)
}

// The word of an instruction.
#[tactic(auto, unfolding(crate::specs::Encode::word_of, crate::specs::Encode::fits, crate::specs::Encode::encode_of))]
pub fn encode(instruction: Instruction) -> Result<u16, TooLarge>
    ensures { encoding_of result ≡ encode_of instruction }
{
    match instruction {
        Instruction::AluRegister { op, r, m } => with_address(alu_code(op), m, r),
        Instruction::AluImmediate { op, m, n4 } => with_address(0b10000 + alu_code(op), m, n4),
        Instruction::Skip { op, m, n4 } => with_address(skip_code(op), m, n4),
        Instruction::Rorc(r) => with_address(0b00111, 0b000_0111, r),
        Instruction::Ld { r, m } => with_address(0b01000, m, r),
        Instruction::St { m, r } => with_address(0b11000, m, r),
        Instruction::MovToIndirect { r, m } => with_address(0b01010, m, r),
        Instruction::MovFromIndirect { m, r } => with_address(0b11010, m, r),
        Instruction::MovImmediate { m, n4 } => with_address(0b11101, m, n4),
        Instruction::Peek(rf) => around(0b0011, rf),
        Instruction::Poke(rf) => around(0b0010, rf),
        Instruction::Get(p) => around(0b1011, p),
        Instruction::Put(p) => around(0b1010, p),
        Instruction::Br(addr) => with_target(0b01100, addr),
        Instruction::Call(addr) => with_target(0b11100, addr),
        Instruction::Stop(s) => with_address(0b00111, 0b010_1111, s),
        Instruction::Halt(h) => with_address(0b00111, 0b011_1111, h),
        Instruction::Fixed(op) => Ok(fixed(op)),
    }
}
