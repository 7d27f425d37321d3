// Bytes, to an output.
ghost use Rattle.std.specs.Prelude.{◌<◌, ◌≤◌, length, slice_range, take};
ghost use Rattle.std.specs.Io.KnownBytes.{Appends};
ghost use Rattle.streams.specs.Meaning.{Means, place_of};

use crate::Meaning;
use crate::answer::interpret;
use std::io::Write;

// One write, of the bytes from a place on, which goes beside them as in a read.
fn write_some<W: Write>(output: &mut W, bytes: &[u8], at: usize) -> Meaning
    requires { at < length bytes.now }
    ensures means { Means at (length bytes.now) result }
    ensures sent { Appends (W.contents output.old) (W.contents output.new) (slice_range bytes.now at (place_of result)) }
{
    interpret(output.write(&bytes[at..]), at, bytes.len())
}

// Writes until all is written, or a write fails or takes nothing, and answers how many bytes went out.
pub fn write_all<W: Write>(output: &mut W, bytes: &[u8]) -> usize
    ensures within { result ≤ length bytes.now }
    ensures sent { Appends (W.contents output.old) (W.contents output.new) (take result bytes.now) }
{
    let mut at: usize = 0;
    // `interpret` answers the place to go on at.
    while at < bytes.len() {
        match write_some(output, bytes, at) {
            Meaning::Further(next) => at = next,
            Meaning::Full(n) | Meaning::End(n) | Meaning::Failed(n, _) => return n,
        }
    }
    at
}
