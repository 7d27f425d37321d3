// What the entries for the check, the station file and its text answer.
ghost use Rattle.std.specs.Prelude.{◌≡◌};
ghost use Rattle.station_file.specs.Answers.{read_reply, write_reply};
ghost use Rattle.transcript.specs.Answers.{print_reply};
ghost use Rattle.verifier.specs.Verdict.{answer_of};
ghost use Rattle.pollwezen.specs.Replies.{print_reply_of, read_reply_of, verdict_reply_of, write_reply_of};

use crate::{OutputReply, ReadReply, VerdictReply};
use station_file::{FileRefusal, Loaded};
use verifier::{CheckRefusal, Verdict, verdict_number};

// A verdict that names no word.
pub(crate) fn unnamed(number: u8) -> VerdictReply
    ensures { result ≡ record { number = number; word = 0; rule = 0 } }
{
    VerdictReply {
        number,
        word: 0,
        rule: 0,
    }
}

impl From<Result<Verdict, CheckRefusal>> for VerdictReply {
    ghost from_gives = { λ answer reply. reply ≡ verdict_reply_of (answer_of answer) };

    fn from(answer: Result<Verdict, CheckRefusal>) -> VerdictReply {
        let number = verdict_number(answer);
        match answer {
            Ok(Verdict::Pass) => unnamed(number),
            Ok(Verdict::Fail { word, rule }) => VerdictReply { number, word, rule },
            Err(_) => unnamed(number),
        }
    }
}

impl From<Result<Loaded, FileRefusal>> for ReadReply {
    ghost from_gives = { λ answer reply. reply ≡ read_reply_of (read_reply answer) };

    fn from(answer: Result<Loaded, FileRefusal>) -> ReadReply {
        match answer {
            Ok(loaded) => ReadReply {
                number: 0,
                words: loaded.words,
                entries: loaded.entries,
                records: loaded.records,
            },
            Err(refusal) => ReadReply {
                number: u8::from(refusal),
                words: 0,
                entries: 0,
                records: 0,
            },
        }
    }
}

// Of the writer, the widening and the transcript alike.
impl From<Result<usize, FileRefusal>> for OutputReply {
    ghost from_gives = { λ answer reply. (reply ≡ write_reply_of (write_reply answer)) × (reply ≡ print_reply_of (print_reply answer)) };

    fn from(answer: Result<usize, FileRefusal>) -> OutputReply {
        match answer {
            Ok(length) => OutputReply { number: 0, length },
            Err(why) => OutputReply {
                number: u8::from(why),
                length: 0,
            },
        }
    }
}
