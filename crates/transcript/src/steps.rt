// The steps, one for each input record, from reset.
ghost use Rattle.std.specs.Prelude.{◌≡◌, ◌/◌, ◌≤◌, get_or, length, None};
ghost use Rattle.machine.specs.Parts.{reset_machine};
ghost use Rattle.cpu.specs.Cost.{none, plus};
ghost use Rattle.station_file.specs.Station.{record_bytes};
ghost use Rattle.transcript.specs.Printing.{Recorded, RecordedTo};

use crate::inputs::input_of;
use crate::line::put_line;
use crate::{Progress, Sink, Station};
use cpu::{Completion, Count};
use machine::{Input, Machine};
use memory::Model;

// The word at an address, 0 past the ROM.
pub(crate) fn word_at(rom: &[u16], pc: u16) -> u16
    ensures { result ≡ get_or rom.now pc 0 }
{
    rom.get(usize::from(pc)).copied().unwrap_or(0)
}

// What was counted, and a step more.
fn total(before: Count, cost: Count) -> Count
    requires steps_bound { before.steps ≤ 60000 }
    requires cycles_bound { before.cycles ≤ 120000 }
    requires steps_bound_2 { cost.steps ≤ 1 }
    requires cycles_bound_2 { cost.cycles ≤ 2 }
    ensures { result ≡ plus before cost }
{
    Count {
        steps: before.steps + cost.steps,
        cycles: before.cycles + cost.cycles,
    }
}

// Before the first record.
pub(crate) fn begun() -> Progress
    ensures { result ≡ record { machine = reset_machine; count = none; refusal = None } }
{
    Progress {
        machine: Machine::reset(),
        count: Count {
            steps: 0,
            cycles: 0,
        },
        refusal: None,
    }
}

impl Station<'_> {
    // One record. A refusal prints no line, and after one nothing changes.
    pub(crate) fn put_record(
        &self,
        number: u16,
        input: Input,
        progress: Progress,
        sink: &mut Sink,
    ) -> Progress
        requires steps_bound { progress.count.steps ≤ 60000 }
        requires cycles_bound { progress.count.cycles ≤ 120000 }
        ensures { Recorded self.now.rom.now number input progress sink.old sink.new result }
    {
        if progress.refusal.is_some() {
            return progress;
        }
        let before = progress.machine;
        let pc = before.control.pc;
        let stepped = cpu::step(Model::Upd17132, self.rom, before, input, 0);
        let machine = stepped.machine;
        let count = total(progress.count, stepped.count);
        let refusal = match stepped.answer {
            Ok(Completion::Done) => {
                put_line(
                    sink,
                    number,
                    pc,
                    text::hex4(word_at(self.rom, pc)),
                    &machine,
                );
                None
            }
            Ok(Completion::Standby) => {
                put_line(sink, number, pc, *b"----", &machine);
                None
            }
            Err(refusal) => Some(refusal),
        };
        Progress {
            machine,
            count,
            refusal,
        }
    }

    // The records in turn, numbered from 1.
    pub(crate) fn put_records(&self, sink: &mut Sink) -> Progress
        ensures { RecordedTo self.now.rom.now self.now.inputs.now (length self.now.inputs.now / record_bytes) sink.old sink.new result }
    {
        let mut progress = begun();
        let (records, _) = self.inputs.as_chunks::<11>();
        for (k, record) in records.iter().enumerate() {
            progress = self.put_record(k as u16 + 1, input_of(record), progress, sink);
        }
        progress
    }
}
