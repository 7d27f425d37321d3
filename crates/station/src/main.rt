// Reads one station file from standard input, and writes what it prints to standard output.

#![tactic(auto)]

ghost use Rattle.std.specs.Prelude.{◌≡◌, ◌≤◌, length, take};
ghost use Rattle.station.specs.Counts.{IsPrefixLen};
ghost use Rattle.transcript.specs.Transcript.{transcript_of};

use std::io;

// Puts the file's text at the front of a buffer that is never too short, and answers its length.
#[tactic(auto, unfolding(transcript::specs::Print::print_of))]
fn put_text(file: &[u8], text: &mut [u8]) -> usize
    requires { 100000 ≤ length text.old }
    ensures prefix_len { IsPrefixLen result text.new }
    ensures text_after { take result text.new ≡ transcript_of file.now }
{
    transcript::transcript(file, text).unwrap()
}

// Says how much of the text is lost. The exit status stays 0.
fn report_loss(rt: &impl Eprint, taken: usize, length: usize) {
    let _ = eprintln!(rt; "station: standard output took {taken} of {length} bytes");
}

fn show(rt: &(impl Print + Eprint), text: &[u8]) {
    let taken = streams::write_all(&mut io::writer(rt), text);
    if taken < text.len() {
        report_loss(rt, taken, text.len());
    }
}

fn main(rt: HostRuntime) {
    let mut file = streams::file_buffer();
    let Ok(n) = streams::read_all(&mut rt.stdin(), &mut file) else {
        let _ = eprintln!(rt; "station: standard input cannot be read");
        return;
    };
    let mut text = [0u8; 100000];
    let length = put_text(&file[..n], &mut text);
    show(&rt, &text[..length]);
}
