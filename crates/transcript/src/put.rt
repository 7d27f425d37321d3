// Texts put into a lent buffer, one after the other.
ghost use Rattle.std.specs.Prelude.{◌≡◌, ◌≤◌, List, ℕ, length, [], ◌∷◌};
ghost use Rattle.std.specs.Borrow.{MutBor};
ghost use Rattle.transcript.specs.Answers.{printed_by};
ghost use Rattle.transcript.specs.Printing.{Wrote};
ghost use Rattle.transcript.specs.Put.{put_of};
ghost use Rattle.transcript.specs.declared.Sink.{Sink as Buffered};

use crate::Sink;
use itoa::{Buffer, Integer};
use station_file::FileRefusal;

impl<'a> Sink<'a> {
    // At the buffer's front.
    pub(crate) fn new(out: &'a mut [u8]) -> Self
        ensures same_buffer { result.out.ghost_name ≡ out.entry.ghost_name }
        ensures untouched { result.out.now ≡ out.old }
        ensures front { result.at ≡ 0 }
    {
        Sink { out, at: 0 }
    }

    // The part of the text that fits, and the place after the whole of it.
    pub(crate) fn put(&mut self, text: &[u8])
        ensures { Wrote (length text.now) text.now self.old self.new }
    {
        let from = self.at.min(self.out.len());
        let fits = text.len().min(self.out.len() - from);
        self.out[from..from + fits].copy_from_slice(&text[..fits]);
        self.at = self.at.saturating_add(text.len());
    }

    // In decimal, with no zero before it. `write!` would promise the bytes only where it answers Ok.
    pub(crate) fn put_decimal<I: Integer>(&mut self, number: I)
        ensures { Wrote I.MAX_STR_LEN (I.text number) self.old self.new }
    {
        self.put(Buffer::new().format(number).as_bytes());
    }
}

// Prints a text of `most` bytes at most into a lent buffer, and answers its length. One that is too long for the buffer leaves it
// as it is, so where that may be the text is measured first.
pub(crate) fn put_whole<F: Fn(&mut Sink)>(
    out: &mut [u8],
    most: usize,
    print: F,
) -> Result<usize, FileRefusal>
    ghost text: { List ℕ }
    requires callable { F.IsAlwaysCallable print }
    requires prints { (sink : MutBor Buffered) (after : MutBor Buffered) → F.post print sink tt after → Wrote most text sink.now after.now }
    ensures printed { printed_by result out.new ≡ put_of text out.old }
    ensures never_longer { length text ≤ most }
{
    if out.len() < most {
        let mut nowhere = Sink::new(&mut []);
        print(&mut nowhere);
        if out.len() < nowhere.at {
            return Err(FileRefusal::Room);
        }
    }
    let mut sink = Sink::new(out);
    print(&mut sink);
    Ok(sink.at)
}
