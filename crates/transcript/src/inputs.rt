// The input records of a station's bytes.
ghost use Rattle.std.specs.Prelude.{◌≡◌};
ghost use Rattle.transcript.specs.Printing.{input_at};

use machine::Input;

// A record's five pins, five directions and release.
pub(crate) fn input_of(bytes: &[u8; 11]) -> Input
    ensures { result ≡ input_at 0 bytes.now }
{
    let [p0, p1, p2, p3, p4, d0, d1, d2, d3, d4, release] = *bytes;
    Input {
        pins: [p0, p1, p2, p3, p4],
        directions: [d0, d1, d2, d3, d4],
        release,
    }
}
