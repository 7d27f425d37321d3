// From a word to its instruction: a decision over the 32 opcodes and over the sub-words of opcode 7.
ghost use Rattle.std.specs.Prelude.{◌≡◌, ◌/◌, ◌%◌};
ghost use Rattle.isa.specs.Answers.{decoding_of, is};
ghost use Rattle.isa.specs.Decode.{decode_of, group_of};

use crate::{AluOp, FixedOp, Instruction, SkipOp};

// An operation on a register and a cell.
fn register(op: AluOp, m: u8, r: u8) -> Option<Instruction>
    ensures { decoding_of result ≡ is (Instruction.AluRegister op r m) }
{
    Some(Instruction::AluRegister { op, r, m })
}

// An operation on a cell and an immediate.
fn immediate(op: AluOp, m: u8, n4: u8) -> Option<Instruction>
    ensures { decoding_of result ≡ is (Instruction.AluImmediate op m n4) }
{
    Some(Instruction::AluImmediate { op, m, n4 })
}

// A test or compare of a cell against an immediate.
fn skip(op: SkipOp, m: u8, n4: u8) -> Option<Instruction>
    ensures { decoding_of result ≡ is (Instruction.Skip op m n4) }
{
    Some(Instruction::Skip { op, m, n4 })
}

// An instruction without operand.
fn fixed(op: FixedOp) -> Option<Instruction>
    ensures { decoding_of result ≡ is (Instruction.Fixed op) }
{
    Some(Instruction::Fixed(op))
}

// The words of opcode 7. PEEK, POKE, GET and PUT have their column alone fixed; of the others the whole sub-word, the
// low eleven bits, but for the operand of RORC, STOP and HALT.
fn group_word(word: u16) -> Option<Instruction>
    ensures { decoding_of result ≡ group_of (word / 16 % 128) (word % 16) }
{
    let p = (word / 256 % 8 * 16 + word % 16) as u8;
    let x = (word % 16) as u8;
    match word / 16 % 16 {
        0b0010 => Some(Instruction::Poke(p)),
        0b0011 => Some(Instruction::Peek(p)),
        0b1010 => Some(Instruction::Put(p)),
        0b1011 => Some(Instruction::Get(p)),
        _ => match word % 2048 {
            0b000_0001_0000 => fixed(FixedOp::Movt),
            0b000_0100_0000 => fixed(FixedOp::BrAr),
            0b000_0101_0000 => fixed(FixedOp::CallAr),
            0b000_0111_0000..=0b000_0111_1111 => Some(Instruction::Rorc(x)),
            0b000_1000_0000 => fixed(FixedOp::IncIx),
            0b000_1001_0000 => fixed(FixedOp::IncAr),
            0b000_1100_0000 => fixed(FixedOp::PopAr),
            0b000_1101_0000 => fixed(FixedOp::PushAr),
            0b000_1110_0000 => fixed(FixedOp::Ret),
            0b001_1110_0000 => fixed(FixedOp::Retsk),
            0b100_1110_0000 => fixed(FixedOp::Reti),
            0b000_1111_0000 => fixed(FixedOp::Ei),
            0b001_1111_0000 => fixed(FixedOp::Di),
            0b010_1111_0000..=0b010_1111_1111 => Some(Instruction::Stop(x)),
            0b011_1111_0000..=0b011_1111_1111 => Some(Instruction::Halt(x)),
            0b100_1111_0000 => fixed(FixedOp::Nop),
            _ => None,
        },
    }
}

// The instruction that a word is.
pub fn decode(word: u16) -> Option<Instruction>
    ensures { decoding_of result ≡ decode_of word }
{
    let m = (word / 16 % 128) as u8;
    let x = (word % 16) as u8;
    match word / 2048 {
        0 => register(AluOp::Add, m, x),
        1 => register(AluOp::Sub, m, x),
        2 => register(AluOp::AddC, m, x),
        3 => register(AluOp::SubC, m, x),
        4 => register(AluOp::And, m, x),
        5 => register(AluOp::Xor, m, x),
        6 => register(AluOp::Or, m, x),
        7 => group_word(word),
        8 => Some(Instruction::Ld { r: x, m }),
        9 => skip(SkipOp::Ske, m, x),
        10 => Some(Instruction::MovToIndirect { r: x, m }),
        11 => skip(SkipOp::Skne, m, x),
        12 => Some(Instruction::Br(word % 2048)),
        16 => immediate(AluOp::Add, m, x),
        17 => immediate(AluOp::Sub, m, x),
        18 => immediate(AluOp::AddC, m, x),
        19 => immediate(AluOp::SubC, m, x),
        20 => immediate(AluOp::And, m, x),
        21 => immediate(AluOp::Xor, m, x),
        22 => immediate(AluOp::Or, m, x),
        24 => Some(Instruction::St { m, r: x }),
        25 => skip(SkipOp::Skge, m, x),
        26 => Some(Instruction::MovFromIndirect { m, r: x }),
        27 => skip(SkipOp::Sklt, m, x),
        28 => Some(Instruction::Call(word % 2048)),
        29 => Some(Instruction::MovImmediate { m, n4: x }),
        30 => skip(SkipOp::Skt, m, x),
        31 => skip(SkipOp::Skf, m, x),
        _ => None,
    }
}
