// Where the library puts the fields of the structs of include/pollwezen.h: numbers that tell the fields apart, for
// tests/layout.c and compare/ to find.

#![tactic(auto)]

ghost use Rattle.std.specs.Prelude.{◌≡◌, ◌≤◌};
ghost use Rattle.layout.specs.Laid.{filled_decoded_row, filled_encoded_row, filled_input, laid_of, filled_machine, filled_output_reply, filled_read_reply, filled_run_reply, filled_verdict_reply};

use cpu::Count;
use listing::{DecodedRow, EncodedRow};
use machine::{Control, Input, Machine};
use memory::Memory;
use peripherals::Peripherals;
use pollwezen::{OutputReply, ReadReply, RunReply, VerdictReply};

// Two of each struct, so that the second lies where the first ends.
#[repr(C)]
#[derive(Clone, Copy)]
pub struct Laid {
    pub machines: [Machine; 2],
    pub inputs: [Input; 2],
    pub runs: [RunReply; 2],
    pub verdicts: [VerdictReply; 2],
    pub reads: [ReadReply; 2],
    pub outputs: [OutputReply; 2],
    pub decoded: [DecodedRow; 2],
    pub encoded: [EncodedRow; 2],
}

// The numbers from which the fields of each width count down; the longest count takes 22 bytes, 9 words, 2 longs and 4 sizes.
#[derive(Clone, Copy)]
struct Most {
    byte: u8,
    word: u16,
    long: u32,
    size: usize,
    ghost enough: { (22 ≤ byte) × (9 ≤ word) × (2 ≤ long) × (4 ≤ size) },
}

// The largest of each width, and half of them.
const WHOLE: Most = Most {
    byte: u8::MAX,
    word: u16::MAX,
    long: u32::MAX,
    size: usize::MAX,
};

const HALF: Most = Most {
    byte: u8::MAX / 2,
    word: u16::MAX / 2,
    long: u32::MAX / 2,
    size: usize::MAX / 2,
};

fn machine_with(most: Most) -> Machine
    ensures { result ≡ filled_machine most.byte most.word }
{
    let mut cells = [most.byte - 1; 128];
    cells[0] = most.byte - 2;
    cells[127] = most.byte - 3;
    let registers = [
        most.byte - 13,
        most.byte - 14,
        most.byte - 15,
        most.byte - 16,
        most.byte - 17,
        most.byte - 18,
        most.byte - 19,
    ];
    let stack = [
        most.word - 5,
        most.word - 6,
        most.word - 7,
        most.word - 8,
        most.word - 9,
    ];
    Machine {
        memory: Memory { cells: cells },
        peripherals: Peripherals {
            registers: registers,
            modulo: most.byte - 20,
            counter: most.byte - 21,
            divider: most.byte - 22,
        },
        control: Control {
            pc: most.word - 4,
            stack: stack,
            levels: most.byte - 10,
            skip: most.byte - 11,
            standby: most.byte - 12,
        },
    }
}

fn input_with(most: Most) -> Input
    ensures { result ≡ filled_input most.byte }
{
    let pins = [
        most.byte - 1,
        most.byte - 2,
        most.byte - 3,
        most.byte - 4,
        most.byte - 5,
    ];
    let directions = [
        most.byte - 6,
        most.byte - 7,
        most.byte - 8,
        most.byte - 9,
        most.byte - 10,
    ];
    Input {
        pins: pins,
        directions: directions,
        release: most.byte - 11,
    }
}

fn run_reply_with(most: Most) -> RunReply
    ensures { result ≡ filled_run_reply most.byte most.long }
{
    RunReply {
        count: Count {
            steps: most.long - 1,
            cycles: most.long - 2,
        },
        number: most.byte - 3,
    }
}

fn verdict_reply_with(most: Most) -> VerdictReply
    ensures { result ≡ filled_verdict_reply most.byte most.word }
{
    VerdictReply {
        number: most.byte - 1,
        word: most.word - 2,
        rule: most.byte - 3,
    }
}

fn read_reply_with(most: Most) -> ReadReply
    ensures { result ≡ filled_read_reply most.byte most.size }
{
    ReadReply {
        number: most.byte - 1,
        words: most.size - 2,
        entries: most.size - 3,
        records: most.size - 4,
    }
}

fn output_reply_with(most: Most) -> OutputReply
    ensures { result ≡ filled_output_reply most.byte most.size }
{
    OutputReply {
        number: most.byte - 1,
        length: most.size - 2,
    }
}

fn decoded_row_with(most: Most) -> DecodedRow
    ensures { result ≡ filled_decoded_row most.byte most.word }
{
    DecodedRow {
        number: most.byte - 1,
        row: most.byte - 2,
        first: most.byte - 3,
        second: most.byte - 4,
        addr: most.word - 5,
    }
}

fn encoded_row_with(most: Most) -> EncodedRow
    ensures { result ≡ filled_encoded_row most.byte most.word }
{
    EncodedRow {
        number: most.byte - 1,
        word: most.word - 2,
    }
}

// Fills the lent structs: in the first of each two the fields count down from the largest number of their width, in the second from
// half of it.
#[tactic(auto, unfolding(crate::specs::Laid::laid_of))]
pub fn layout_fill(lent: &mut Laid)
    ensures { lent.new ≡ laid_of }
{
    *lent = Laid {
        machines: [machine_with(WHOLE), machine_with(HALF)],
        inputs: [input_with(WHOLE), input_with(HALF)],
        runs: [run_reply_with(WHOLE), run_reply_with(HALF)],
        verdicts: [verdict_reply_with(WHOLE), verdict_reply_with(HALF)],
        reads: [read_reply_with(WHOLE), read_reply_with(HALF)],
        outputs: [output_reply_with(WHOLE), output_reply_with(HALF)],
        decoded: [decoded_row_with(WHOLE), decoded_row_with(HALF)],
        encoded: [encoded_row_with(WHOLE), encoded_row_with(HALF)],
    };
}
