// The instruction words of the uPD17132: the instructions of the manual's list (18.3), the decoder and the encoder.

#![tactic(auto)]

mod decoder;
mod encoder;

pub use decoder::decode;
pub use encoder::encode;

// The operations that have both a form r,m and a form m,#n4.
#[derive(Clone, Copy)]
pub enum AluOp {
    Add,
    AddC,
    Sub,
    SubC,
    Or,
    And,
    Xor,
}

// The tests and compares of a cell against an immediate, each of which may skip the next word.
#[derive(Clone, Copy)]
pub enum SkipOp {
    Skt,
    Skf,
    Ske,
    Skne,
    Skge,
    Sklt,
}

// The instructions of opcode 7 that have no operand field.
#[derive(Clone, Copy)]
pub enum FixedOp {
    IncAr,
    IncIx,
    Movt,
    PushAr,
    PopAr,
    BrAr,
    CallAr,
    Ret,
    Retsk,
    Reti,
    Ei,
    Di,
    Nop,
}

// All 47 instructions. Operands are named as in the manual's legend (18.2): m is a data memory address, row and column;
// r the column of a general register; n4 an immediate or a mask of bits; addr a program memory address; rf and p an
// address in the register file or of a peripheral.
#[derive(Clone, Copy)]
pub enum Instruction {
    AluRegister { op: AluOp, r: u8, m: u8 },
    AluImmediate { op: AluOp, m: u8, n4: u8 },
    Skip { op: SkipOp, m: u8, n4: u8 },
    Rorc(u8),
    Ld { r: u8, m: u8 },
    St { m: u8, r: u8 },
    MovToIndirect { r: u8, m: u8 },
    MovFromIndirect { m: u8, r: u8 },
    MovImmediate { m: u8, n4: u8 },
    Peek(u8),
    Poke(u8),
    Get(u8),
    Put(u8),
    Br(u16),
    Call(u16),
    Stop(u8),
    Halt(u8),
    Fixed(FixedOp),
}

// The refusal of the encoder: an operand is too large for its field.
#[derive(Clone, Copy, Debug, PartialEq, Eq)]
pub struct TooLarge;
