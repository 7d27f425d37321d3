// What the system's answer means.
ghost use Rattle.std.specs.Prelude.{◌≡◌};
ghost use Rattle.streams.specs.Meaning.{meaning_of};

use crate::Meaning;
use std::io;

// `answer` is what `read` or `write` answered for the bytes from `at` on of a buffer of `room` bytes: how many it moved.
pub fn interpret(answer: io::Result<usize>, at: usize, room: usize) -> Meaning
    ensures { result ≡ meaning_of answer at room }
{
    let moved = match answer {
        Ok(moved) => moved,
        Err(why) => return Meaning::Failed(at, why),
    };
    if moved == 0 {
        return Meaning::End(at);
    }
    if moved < room.saturating_sub(at) {
        return Meaning::Further(at + moved);
    }
    Meaning::Full(room)
}
