// The flow of a word: a decision on its opcode and, for opcode 7, on its row and column and its low nibble. Nothing is decoded, so
// that the decoder has one caller, the step, and is compiled into the run's loop. No arm has two numbers that follow each other,
// which would be a range.
ghost use Rattle.std.specs.Prelude.{◌≡◌, ◌/◌, ◌%◌};
ghost use Rattle.isa.specs.Decode.{group_of};
ghost use Rattle.control.specs.Flow.{decoded_flow, onward_if, reads_table, word_flow};

use crate::{ArOp, Flow, Rest};
use machine::Refusal;
use peripherals::Peripherals;

// PEEK, POKE, GET and PUT, where there is such a register.
fn onward_if(there: bool) -> Flow
    ensures { result ≡ onward_if there }
{
    if there {
        Flow::Onward
    } else {
        Flow::Refused(Refusal::NoRegister)
    }
}

// The words of opcode 7. POKE, PUT, PEEK and GET have their column alone fixed; RORC, STOP and HALT leave the low nibble to their
// operand, and of the others it is 0.
#[tactic(auto, unfolding(isa::specs::Decode::columns))]
fn of_group(word: u16) -> Flow
    ensures { result ≡ decoded_flow (group_of (word / 16 % 128) (word % 16)) }
{
    let m = word / 16 % 128;
    let operand = (m / 16 * 16 + word % 16) as u8;
    match m % 16 {
        // POKE, PEEK
        0b0010 => onward_if(peripherals::in_file(operand)),
        0b0011 => onward_if(peripherals::in_file(operand)),
        // PUT, GET
        0b1010 => onward_if(operand == Peripherals::TMM),
        0b1011 => onward_if(operand == Peripherals::TMC),
        _ => match m {
            // RORC
            0b000_0111 => Flow::Onward,
            // STOP, HALT
            0b010_1111 => Flow::StandsBy(Rest::Stop),
            0b011_1111 => Flow::StandsBy(Rest::Halt),
            _ => {
                if word % 16 != 0 {
                    return Flow::Refused(Refusal::NoInstruction);
                }
                match m {
                    // MOVT
                    0b000_0001 => Flow::ReadsTable,
                    // BR @AR, CALL @AR
                    0b000_0100 => Flow::ByAr(ArOp::Br),
                    0b000_0101 => Flow::ByAr(ArOp::Call),
                    // INC IX, INC AR
                    0b000_1000 => Flow::Onward,
                    0b000_1001 => Flow::Onward,
                    // POP AR, PUSH AR
                    0b000_1100 => Flow::ByAr(ArOp::Pop),
                    0b000_1101 => Flow::ByAr(ArOp::Push),
                    // RET, RETSK
                    0b000_1110 => Flow::Returns(false),
                    0b001_1110 => Flow::Returns(true),
                    // EI, DI, RETI
                    0b000_1111 | 0b001_1111 | 0b100_1110 => Flow::Refused(Refusal::Unsupported),
                    // NOP
                    0b100_1111 => Flow::Onward,
                    _ => Flow::Refused(Refusal::NoInstruction),
                }
            }
        },
    }
}

// The flow of a word.
#[tactic(auto, unfolding(isa::specs::Decode::decode_of, isa::specs::Decode::entry_of, isa::specs::Decode::overview))]
pub fn of_word(word: u16) -> Flow
    ensures { result ≡ word_flow word }
{
    let op = word / 2048;
    // ADD, SUB, ADDC, SUBC, AND, XOR, OR, on r and m or on m and n4
    if op % 16 < 7 {
        return Flow::Onward;
    }
    match op {
        7 => of_group(word),
        // LD, ST, MOV
        8 | 10 | 24 | 26 | 29 => Flow::Onward,
        // SKE, SKNE, SKGE, SKLT, SKT, and SKF
        9 | 11 | 25 | 27 | 30 => Flow::Skips,
        31 => Flow::Skips,
        // BR, CALL
        12 => Flow::Branches(word % 2048),
        28 => Flow::Calls(word % 2048),
        _ => Flow::Refused(Refusal::NoInstruction),
    }
}

// MOVT's word.
const MOVT: u16 = 0b00111_000_0001_0000;

// Whether a word reads the table. MOVT alone does, and it has one word, so nothing is decoded.
pub fn reads_table(word: u16) -> bool
    ensures { result ≡ reads_table (word_flow word) }
{
    word == MOVT
}
