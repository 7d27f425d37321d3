// The lines.
ghost use Rattle.std.specs.Prelude.{◌≡◌, ◌++◌};
ghost use Rattle.verifier.specs.Verdict.{fail};
ghost use Rattle.transcript.specs.Printing.{refusal_in};
ghost use Rattle.transcript.specs.Printing.{Wrote, fields_of};
ghost use Rattle.transcript.specs.Text.{newline, decimal};
ghost use Rattle.transcript.specs.Transcript.{end_line, verdict_text};
ghost use Rattle.transcript.specs.Why.{refusal_line};

use crate::Sink;
use cpu::Count;
use machine::{Machine, Refusal};
use memory::Memory;

// What follows a record's number: PC before, the word, PC after, open levels and PSW.
fn fields(pc: u16, word: [u8; 4], after: &Machine) -> [u8; 18]
    ensures { result ≡ fields_of pc word after.now }
{
    let control = after.control;
    let from = text::hex4(pc);
    let to = text::hex4(control.pc);
    let levels = text::hex_digit(control.levels);
    let psw = text::hex_digit(after.memory.cells[Memory::PSW as usize]);
    [
        b' ', from[1], from[2], from[3], b' ', word[0], word[1], word[2], word[3], b' ', to[1],
        to[2], to[3], b' ', levels, b' ', psw, b'\n',
    ]
}

// The line of a record.
pub(crate) fn put_line(sink: &mut Sink, number: u16, pc: u16, word: [u8; 4], after: &Machine)
    ensures { Wrote 23 (decimal number ++ fields_of pc word after.now) sink.old sink.new }
{
    sink.put_decimal(number);
    sink.put(&fields(pc, word, after));
}

// A failed check, and the line's end.
pub(crate) fn put_failure(sink: &mut Sink, word: u16, rule: u8)
    ensures { Wrote 13 (verdict_text (fail word rule) ++ newline) sink.old sink.new }
{
    let d = text::hex4(word);
    sink.put(&[b'F', b'A', b'I', b'L', b' ', d[1], d[2], d[3], b' ']);
    sink.put_decimal(rule);
    sink.put(b"\n");
}

// The last line.
pub(crate) fn put_end(sink: &mut Sink, count: Count, refusal: Option<Refusal>)
    ensures { Wrote 30 (end_line count (refusal_in refusal)) sink.old sink.new }
{
    sink.put(b"END ");
    sink.put_decimal(count.steps);
    sink.put(b" ");
    sink.put_decimal(count.cycles);
    sink.put(b" ");
    sink.put_decimal(refusal.map_or(0, u8::from));
    sink.put(b"\n");
}

// The one line of a bad file.
pub(crate) fn put_bad_file(sink: &mut Sink, refusal: u8)
    ensures { Wrote 9 (refusal_line refusal) sink.old sink.new }
{
    sink.put(b"FILE ");
    sink.put_decimal(refusal);
    sink.put(b"\n");
}
