// The text of a file.
ghost use Rattle.std.specs.Prelude.{◌≡◌, ◌≤◌, length};
ghost use Rattle.station_file.specs.Forms.{load_of};
ghost use Rattle.transcript.specs.Answers.{printed_by};
ghost use Rattle.transcript.specs.Printing.{Wrote};
ghost use Rattle.transcript.specs.Print.{print_of};
ghost use Rattle.transcript.specs.Stations.{Told};
ghost use Rattle.transcript.specs.Transcript.{transcript_of};

use crate::line::put_bad_file;
use crate::put::put_whole;
use crate::{Sink, Station};
use station_file::FileRefusal;

// The buffers that a file is read into, each with room for what a file may hold.
#[derive(Drop)]
pub(crate) struct Buffers {
    rom: [u16; 1024],
    sheet: [u8; 2048],
    inputs: [u8; 45045],
}

impl Buffers {
    pub(crate) fn new() -> Buffers {
        Buffers {
            rom: [0; 1024],
            sheet: [0; 2048],
            inputs: [0; 45045],
        }
    }

    // The station of a file, in these buffers.
    pub(crate) fn read(&mut self, file: &[u8]) -> Result<Station<'_>, FileRefusal>
        ensures { Told result (load_of file.now) }
    {
        let loaded = station_file::read(file, &mut self.rom, &mut self.sheet, &mut self.inputs)?;
        Ok(Station {
            rom: &self.rom[..loaded.words],
            sheet: &self.sheet[..2 * loaded.entries],
            inputs: &self.inputs[..11 * loaded.records],
        })
    }
}

// The whole text of a file.
fn put_file(file: &[u8], sink: &mut Sink)
    ensures { Wrote 100000 (transcript_of file.now) sink.old sink.new }
{
    let mut buffers = Buffers::new();
    match buffers.read(file) {
        Ok(station) => station.put_text(sink),
        Err(refusal) => put_bad_file(sink, u8::from(refusal)),
    }
}

// What `station` prints for a file, put into a lent buffer. One of 100,000 bytes is never too short; a shorter one may be, and
// then it stays as it is.
pub fn transcript(file: &[u8], out: &mut [u8]) -> Result<usize, FileRefusal>
    ensures printed { printed_by result out.new ≡ print_of file.now out.old }
    ensures never_longer { length (transcript_of file.now) ≤ 100000 }
{
    put_whole(out, 100000, |sink| put_file(file, sink))
}
