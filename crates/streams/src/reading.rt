// An input, into a buffer.
ghost use Rattle.std.specs.Prelude.{◌≡◌, ◌+◌, ◌<◌, length, slice_range, take};
ghost use Rattle.std.specs.Io.KnownBytes.{Consumes};
ghost use Rattle.station_file.specs.Station.{longest};
ghost use Rattle.streams.specs.Meaning.{HasEnded, InRoom, IsRead, Means, place_of};

use crate::Meaning;
use crate::answer::interpret;
use std::io;
use std::io::Read;

const FILE_ROOM: usize = 49150;

// Room for one byte more than the longest station file: so one that is too long is seen.
pub fn file_buffer() -> [u8; FILE_ROOM]
    ensures { length result ≡ longest + 1 }
{
    [0; FILE_ROOM]
}

// One read, of the bytes from a place on. The place goes beside the buffer, since `interpret` answers places.
fn read_some<R: Read>(input: &mut R, buffer: &mut [u8], at: usize) -> Meaning
    requires { at < length buffer.old }
    ensures means { Means at (length buffer.old) result }
    ensures buffer_unchanged { take at buffer.new ≡ take at buffer.old }
    ensures taken { Consumes (R.remaining input.old) (R.remaining input.new) (slice_range buffer.new at (place_of result)) }
    ensures ended { HasEnded (R.remaining input.new) result }
{
    let room = buffer.len();
    let answer = input.read(&mut buffer[at..]);
    interpret(answer, at, room)
}

// Reads until the buffer is full, the input ends or a read fails, and answers how many bytes it read.
pub fn read_all<R: Read>(input: &mut R, buffer: &mut [u8]) -> io::Result<usize>
    ensures in_room { InRoom result (length buffer.new) }
    ensures read { IsRead (R.remaining input.old) (R.remaining input.new) buffer.new result }
{
    let mut at: usize = 0;
    // `interpret` answers the place to go on at.
    while at < buffer.len() {
        match read_some(input, buffer, at) {
            Meaning::Further(next) => at = next,
            Meaning::Full(n) | Meaning::End(n) => return Ok(n),
            Meaning::Failed(_, why) => return Err(why),
        }
    }
    Ok(at)
}
