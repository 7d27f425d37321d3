// The last record whose step wrote a cell: document 02, E7.
ghost use Rattle.std.specs.Prelude.{◌≡◌, ◌*◌, ◌<◌, ◌≤◌, length};
ghost use Rattle.transcript.specs.Answers.{printed_by};
ghost use Rattle.transcript.specs.Finding.{found_text, told_by, told_text, wrote_by};
ghost use Rattle.transcript.specs.Printing.{Wrote};
ghost use Rattle.transcript.specs.Put.{put_of};
ghost use Rattle.transcript.specs.Why.{after_number, answer_text, last_writer, why_of, written_line};

use crate::file::Buffers;
use crate::inputs::input_of;
use crate::line::put_bad_file;
use crate::put::put_whole;
use crate::steps::{begun, word_at};
use crate::{Progress, Sink, Station, WhyRefusal, Writer};
use machine::Input;
use memory::Model;
use operations::Ports;
use station_file::FileRefusal;

// A record that was run: its number, and how far the records had come before it and after it.
#[derive(Clone, Copy)]
struct Turn<'a> {
    rom: &'a [u16],
    number: u16,
    input: Input,
    before: Progress,
    after: Progress,
}

impl Turn<'_> {
    // Whether its step wrote the cell: it was completed, its word not skipped, and its instruction writes there.
    fn wrote(&self, cell: u8) -> bool
        ensures { result ≡ wrote_by self.now cell }
    {
        let before = &self.before.machine;
        let control = before.control;
        if self.after.count.steps == self.before.count.steps {
            return false;
        }
        if control.skip != 0 {
            return false;
        }
        let Some(instruction) = isa::decode(word_at(self.rom, control.pc)) else {
            return false;
        };
        operations::writes(
            Model::Upd17132,
            &before.memory.cells,
            Ports {
                pins: &self.input.pins,
                registers: &before.peripherals.registers,
            },
            instruction,
            cell,
        )
    }

    // What is told of its step.
    fn writer(&self, cell: u8) -> Writer
        requires { cell < 128 }
        ensures { result ≡ told_by self.now cell }
    {
        let control = self.before.machine.control;
        let after = &self.after.machine;
        Writer {
            number: self.number,
            pc: control.pc,
            word: word_at(self.rom, control.pc),
            nibble: after.memory.cells[cell as usize],
        }
    }
}

impl Station<'_> {
    // The last of so many records, as the request asks: the definition counts in the whole station, so it is not cut before. They are
    // run by the function that prints them, into a buffer that takes nothing.
    fn last_writer(&self, count: usize, cell: u8) -> Option<Writer>
        requires { (11 * count ≤ length self.now.inputs.now) × (cell < 128) }
        ensures { found_text result ≡ answer_text self.now.rom.now self.now.inputs.now cell (last_writer self.now.rom.now self.now.inputs.now cell count) }
    {
        let mut found = None;
        let mut before = begun();
        let mut nowhere = Sink::new(&mut []);
        let (records, _) = self.inputs.as_chunks::<11>();
        for (k, record) in records[..count].iter().enumerate() {
            let number = k as u16 + 1;
            let input = input_of(record);
            let after = self.put_record(number, input, before, &mut nowhere);
            let turn = Turn {
                rom: self.rom,
                number,
                input,
                before,
                after,
            };
            if turn.wrote(cell) {
                found = Some(turn.writer(cell));
            }
            before = after;
        }
        found
    }
}

// PC, word and nibble, as they follow the number.
fn after_number(pc: u16, word: u16, nibble: u8) -> [u8; 12]
    ensures { result ≡ after_number pc word nibble }
{
    let from = text::hex4(pc);
    let there = text::hex4(word);
    let held = text::hex_digit(nibble);
    [
        b' ', from[1], from[2], from[3], b' ', there[0], there[1], there[2], there[3], b' ', held,
        b'\n',
    ]
}

// The step that a request asks for.
fn explained(request: &[u8]) -> Result<Option<Writer>, WhyRefusal>
    ensures { told_text result ≡ why_of request.now }
{
    let Some((&[cell, a, b, c, d], file)) = request.split_first_chunk::<5>() else {
        return Err(WhyRefusal::File(FileRefusal::Early));
    };
    let mut buffers = Buffers::new();
    let station = buffers.read(file)?;
    if 127 < cell {
        return Err(WhyRefusal::Cell);
    }
    let count = u32::from_be_bytes([a, b, c, d]) as usize;
    if station.inputs.len() / 11 < count {
        return Err(WhyRefusal::Count);
    }
    Ok(station.last_writer(count, cell))
}

// The line of the step that was found.
fn put_found(sink: &mut Sink, found: Writer)
    ensures { Wrote 17 (written_line found.number found.pc found.word found.nibble) sink.old sink.new }
{
    sink.put_decimal(found.number);
    sink.put(&after_number(found.pc, found.word, found.nibble));
}

// That line, that there is none, or the refusal's.
fn put_told(told: Result<Option<Writer>, WhyRefusal>, sink: &mut Sink)
    ensures { Wrote 17 (told_text told) sink.old sink.new }
{
    match told {
        Ok(Some(found)) => put_found(sink, found),
        Ok(None) => sink.put(b"NEVER WRITTEN\n"),
        Err(refusal) => put_bad_file(sink, u8::from(refusal)),
    }
}

// What `why` prints for a request, put into a lent buffer. One of 17 bytes is never too short; a shorter one may be, and then
// it stays as it is.
pub fn why(request: &[u8], out: &mut [u8]) -> Result<usize, FileRefusal>
    ensures printed { printed_by result out.new ≡ put_of (why_of request.now) out.old }
    ensures never_longer { length (why_of request.now) ≤ 17 }
{
    let told = explained(request);
    put_whole(out, 17, |sink| put_told(told, sink))
}
