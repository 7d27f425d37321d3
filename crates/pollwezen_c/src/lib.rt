// The C interface, include/pollwezen.h: the entries of `pollwezen`, exported under their names. Each promises what the library's does.
// A slice here is a pointer and a length in C; that the two fit is tested by tests/. Arguments come one by one, as C passes them.

#![tactic(auto)]

ghost use Rattle.std.specs.Prelude.{◌≡◌, ◌↔◌, ◌≤◌, length};
ghost use Rattle.machine.specs.Signals.{signals};
ghost use Rattle.listing.specs.Rows.{decoded_row_of, encoded_row_of};
ghost use Rattle.listing.specs.Table.{fields};
ghost use Rattle.station_file.specs.Answers.{buffers_of, station_of};
ghost use Rattle.station_file.specs.Read.{read_of};
ghost use Rattle.station_file.specs.Write.{widen_of, write_of};
ghost use Rattle.transcript.specs.Print.{print_of};
ghost use Rattle.transcript.specs.Transcript.{transcript_of};
ghost use Rattle.pollwezen.specs.Lent.{lent_run, lent_run_of, lent_step, lent_step_of};
ghost use Rattle.pollwezen.specs.Models.{model_of, ClearOn, SafeOn, reset_on, run_on, step_on, verify_on};
ghost use Rattle.pollwezen.specs.Replies.{print_reply_of, read_reply_of, verdict_reply_of, write_reply_of};

use listing::{DecodedRow, EncodedRow};
use machine::{Input, Machine};
use pollwezen::{OutputReply, ReadReply, RunReply, VerdictReply};

// The reset record of a model, written over the lent one: 0, or 1 for a number that is no model's, and then the record stays.
#[unsafe(no_mangle)]
pub extern "C" fn pollwezen_reset(model: u8, machine: &mut Machine) -> u8
    ensures { lent_step machine.new result ≡ lent_step_of (reset_on (model_of model) machine.old) }
{
    pollwezen::pollwezen_reset(model, machine)
}

// One step of a model on the lent record, with the pulse bit beside its inputs: 0 for a completed step, 255 for one that stays in standby, else
// the refusal.
#[unsafe(no_mangle)]
pub extern "C" fn pollwezen_step(
    model: u8,
    rom: &[u16],
    machine: &mut Machine,
    input: Input,
    pulse: u8,
) -> u8
    ensures value { lent_step machine.new result ≡ lent_step_of (step_on (model_of model) rom.now (signals input pulse) machine.old) }
    ensures kept { (result ≡ 0 → ⊥) → (result ≡ 255 → ⊥) → machine.new ≡ machine.old }
{
    pollwezen::pollwezen_step(model, rom, machine, input, pulse)
}

// The counted run of a model on the lent record.
#[unsafe(no_mangle)]
pub extern "C" fn pollwezen_run(
    model: u8,
    rom: &[u16],
    machine: &mut Machine,
    input: Input,
    pulse: u8,
    budget: u32,
) -> RunReply
    ensures { lent_run machine.new result ≡ lent_run_of (run_on (model_of model) rom.now (signals input pulse) budget machine.old) }
{
    pollwezen::pollwezen_run(model, rom, machine, input, pulse, budget)
}

// The check of a ROM and its sheet, two bytes a word, for a model. The last promise is demand 3 on that model, of these entries too.
#[unsafe(no_mangle)]
pub extern "C" fn pollwezen_verify(model: u8, rom: &[u16], sheet: &[u8]) -> VerdictReply
    ensures verdict { result ≡ verdict_reply_of (verify_on (model_of model) rom.now sheet.now) }
    ensures clear { (result.number ≡ 0) ↔ ClearOn (model_of model) rom.now sheet.now }
    ensures safe { result.number ≡ 0 → SafeOn (model_of model) rom.now sheet.now }
{
    pollwezen::pollwezen_verify(model, rom, sheet)
}

// A word's row in the manual's list and its operands, or 3.
#[unsafe(no_mangle)]
pub extern "C" fn pollwezen_decode(word: u16) -> DecodedRow
    ensures { result ≡ decoded_row_of word }
{
    pollwezen::pollwezen_decode(word)
}

// The word of a row with its operands, or 1 or 10.
#[unsafe(no_mangle)]
pub extern "C" fn pollwezen_encode(row: u8, first: u8, second: u8, addr: u16) -> EncodedRow
    ensures { result ≡ encoded_row_of row (fields first second addr) }
{
    pollwezen::pollwezen_encode(row, first, second, addr)
}

// Reads a station file into the lent buffers. A refused file writes nothing.
#[unsafe(no_mangle)]
pub extern "C" fn pollwezen_read(
    file: &[u8],
    rom: &mut [u16],
    sheet: &mut [u8],
    inputs: &mut [u8],
) -> ReadReply
    ensures reply { result ≡ read_reply_of (read_of file.now (buffers_of rom.old sheet.old inputs.old)).reply }
    ensures buffers { buffers_of rom.new sheet.new inputs.new
        ≡ (read_of file.now (buffers_of rom.old sheet.old inputs.old)).buffers }
{
    pollwezen::pollwezen_read(file, rom, sheet, inputs)
}

// Writes a station's file to the front of the lent buffer. A refused station writes nothing.
#[unsafe(no_mangle)]
pub extern "C" fn pollwezen_write(
    rom: &[u16],
    sheet: &[u8],
    inputs: &[u8],
    out: &mut [u8],
) -> OutputReply
    ensures reply { result ≡ write_reply_of (write_of (station_of rom.now sheet.now inputs.now) out.old).reply }
    ensures written { out.new ≡ (write_of (station_of rom.now sheet.now inputs.now) out.old).out }
{
    pollwezen::pollwezen_write(rom, sheet, inputs, out)
}

// Makes a sheet of single levels into one of ranges, at the front of the lent buffer. One that is too short stays as it is.
#[unsafe(no_mangle)]
pub extern "C" fn pollwezen_widen(levels: &[u8], out: &mut [u8]) -> OutputReply
    ensures reply { result ≡ write_reply_of (widen_of levels.now out.old).reply }
    ensures written { out.new ≡ (widen_of levels.now out.old).out }
{
    pollwezen::pollwezen_widen(levels, out)
}

// Puts what `station` prints for a file to the front of the lent buffer. One that is too short stays as it is; one of
// 100,000 bytes never is.
#[unsafe(no_mangle)]
pub extern "C" fn pollwezen_transcript(file: &[u8], out: &mut [u8]) -> OutputReply
    ensures reply { result ≡ print_reply_of (print_of file.now out.old).reply }
    ensures written { out.new ≡ (print_of file.now out.old).out }
    ensures never_longer { length (transcript_of file.now) ≤ 100000 }
{
    pollwezen::pollwezen_transcript(file, out)
}
