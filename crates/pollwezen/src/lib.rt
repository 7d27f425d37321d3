// What the C interface, include/pollwezen.h, offers: all its entries, which `pollwezen_c` exports. Records and inputs are plain structs
// of unsigned integers, answers are numbers, and arguments come one by one, as C passes them. The entries on a lent record are the forms
// in place of the step and the run.

#![tactic(auto)]

mod calls;
mod replies;

ghost use Rattle.std.specs.Prelude.{◌≡◌, ◌↔◌, ◌≤◌, length};
ghost use Rattle.machine.specs.Signals.{signals};
ghost use Rattle.listing.specs.Rows.{decoded_row_of, encoded_row_of};
ghost use Rattle.listing.specs.Table.{fields};
ghost use Rattle.station_file.specs.Answers.{buffers_of, station_of};
ghost use Rattle.station_file.specs.Read.{read_of};
ghost use Rattle.station_file.specs.Write.{widen_of, write_of};
ghost use Rattle.transcript.specs.Print.{print_of};
ghost use Rattle.transcript.specs.Transcript.{transcript_of};
ghost use Rattle.pollwezen.specs.Lent.{lent_run, lent_run_of, lent_step, lent_step_of};
ghost use Rattle.pollwezen.specs.Models.{model_of, ClearOn, SafeOn, reset_on, run_on, step_on, verify_on};
ghost use Rattle.pollwezen.specs.Replies.{print_reply_of, read_reply_of, verdict_reply_of, write_reply_of};

use calls::{by_fields, by_registers, not_run, selected};
use cpu::Count;
use listing::{DecodedRow, EncodedRow};
use machine::{Input, Machine, Refusal};
use replies::unnamed;

// A run's steps with their cycles, and its refusal or 0.
#[repr(C)]
#[derive(Clone, Copy)]
pub struct RunReply {
    pub count: Count,
    pub number: u8,
}

// What the check answers: 0 for a sheet that passes, else the refusal, or 254 with the lowest word that breaks a rule and
// its lowest rule.
#[repr(C)]
#[derive(Clone, Copy)]
pub struct VerdictReply {
    pub number: u8,
    pub word: u16,
    pub rule: u8,
}

// What the reader answers: 0 and how much it wrote to each lent buffer, or the refusal.
#[repr(C)]
#[derive(Clone, Copy)]
pub struct ReadReply {
    pub number: u8,
    pub words: usize,
    pub entries: usize,
    pub records: usize,
}

// What the writer, the widening and the transcript answer: 0 and how many bytes they wrote, or the refusal.
#[repr(C)]
#[derive(Clone, Copy)]
pub struct OutputReply {
    pub number: u8,
    pub length: usize,
}

// The reset record of a model, written over the lent one: 0, or 1 for a number that is no model's, and then the record stays.
pub fn pollwezen_reset(model: u8, machine: &mut Machine) -> u8
    ensures { lent_step machine.new result ≡ lent_step_of (reset_on (model_of model) machine.old) }
{
    if selected(model).is_none() {
        return u8::from(Refusal::OutOfRange);
    }
    *machine = Machine::reset();
    0
}

// One step of a model on the lent record, with the pulse bit beside its inputs: 0 for a completed step, 255 for one that stays in standby, else
// the refusal.
pub fn pollwezen_step(model: u8, rom: &[u16], machine: &mut Machine, input: Input, pulse: u8) -> u8
    ensures value { lent_step machine.new result ≡ lent_step_of (step_on (model_of model) rom.now (signals input pulse) machine.old) }
    ensures kept { (result ≡ 0 → ⊥) → (result ≡ 255 → ⊥) → machine.new ≡ machine.old }
{
    let Some(known) = selected(model) else {
        return u8::from(Refusal::OutOfRange);
    };
    let s = cpu::step_in_place(
        known,
        rom,
        &mut machine.memory.cells,
        machine.peripherals,
        by_fields(machine.control),
        input,
        pulse,
    );
    machine.peripherals = by_registers(s.peripherals);
    machine.control = by_fields(s.control);
    cpu::reply_number(s.answer)
}

// The counted run of a model on the lent record.
pub fn pollwezen_run(
    model: u8,
    rom: &[u16],
    machine: &mut Machine,
    input: Input,
    pulse: u8,
    budget: u32,
) -> RunReply
    ensures { lent_run machine.new result ≡ lent_run_of (run_on (model_of model) rom.now (signals input pulse) budget machine.old) }
{
    let Some(known) = selected(model) else {
        return not_run();
    };
    let r = cpu::run_in_place(
        known,
        rom,
        &mut machine.memory.cells,
        machine.peripherals,
        by_fields(machine.control),
        input,
        pulse,
        budget,
    );
    machine.peripherals = by_registers(r.peripherals);
    machine.control = by_fields(r.control);
    RunReply {
        count: r.count,
        number: cpu::end_number(cpu::end_of(r.answer)),
    }
}

// The check of a ROM and its sheet, two bytes a word, for a model. The last promise is demand 3 on that model, of these entries too.
pub fn pollwezen_verify(model: u8, rom: &[u16], sheet: &[u8]) -> VerdictReply
    ensures verdict { result ≡ verdict_reply_of (verify_on (model_of model) rom.now sheet.now) }
    ensures clear { (result.number ≡ 0) ↔ ClearOn (model_of model) rom.now sheet.now }
    ensures safe { result.number ≡ 0 → SafeOn (model_of model) rom.now sheet.now }
{
    let Some(known) = selected(model) else {
        return unnamed(u8::from(Refusal::OutOfRange));
    };
    VerdictReply::from(verifier::verify(known, rom, sheet))
}

// A word's row in the manual's list and its operands, or 3.
pub fn pollwezen_decode(word: u16) -> DecodedRow
    ensures { result ≡ decoded_row_of word }
{
    listing::decode(word)
}

// The word of a row with its operands, or 1 or 10.
pub fn pollwezen_encode(row: u8, first: u8, second: u8, addr: u16) -> EncodedRow
    ensures { result ≡ encoded_row_of row (fields first second addr) }
{
    listing::encode(row, first, second, addr)
}

// Reads a station file into the lent buffers. A refused file writes nothing.
pub fn pollwezen_read(
    file: &[u8],
    rom: &mut [u16],
    sheet: &mut [u8],
    inputs: &mut [u8],
) -> ReadReply
    ensures reply { result ≡ read_reply_of (read_of file.now (buffers_of rom.old sheet.old inputs.old)).reply }
    ensures buffers { buffers_of rom.new sheet.new inputs.new
        ≡ (read_of file.now (buffers_of rom.old sheet.old inputs.old)).buffers }
{
    ReadReply::from(station_file::read(file, rom, sheet, inputs))
}

// Writes a station's file to the front of the lent buffer. A refused station writes nothing.
pub fn pollwezen_write(rom: &[u16], sheet: &[u8], inputs: &[u8], out: &mut [u8]) -> OutputReply
    ensures reply { result ≡ write_reply_of (write_of (station_of rom.now sheet.now inputs.now) out.old).reply }
    ensures written { out.new ≡ (write_of (station_of rom.now sheet.now inputs.now) out.old).out }
{
    OutputReply::from(station_file::write(rom, sheet, inputs, out))
}

// Makes a sheet of single levels into one of ranges, at the front of the lent buffer. One that is too short stays as it is.
pub fn pollwezen_widen(levels: &[u8], out: &mut [u8]) -> OutputReply
    ensures reply { result ≡ write_reply_of (widen_of levels.now out.old).reply }
    ensures written { out.new ≡ (widen_of levels.now out.old).out }
{
    OutputReply::from(station_file::widen(levels, out))
}

// Puts what `station` prints for a file to the front of the lent buffer. One that is too short stays as it is; one of
// 100,000 bytes never is.
pub fn pollwezen_transcript(file: &[u8], out: &mut [u8]) -> OutputReply
    ensures reply { result ≡ print_reply_of (print_of file.now out.old).reply }
    ensures written { out.new ≡ (print_of file.now out.old).out }
    ensures never_longer { length (transcript_of file.now) ≤ 100000 }
{
    OutputReply::from(transcript::transcript(file, out))
}
