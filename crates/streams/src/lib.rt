// A buffer filled from a reader, and bytes written to a writer, up to the end or the first fault.

#![tactic(auto)]

mod answer;
mod reading;
mod writing;

pub use answer::interpret;
pub use reading::{file_buffer, read_all};
use std::io;
pub use writing::write_all;

// What an answer of `read` or of `write` means, each with the place up to which the bytes are then moved.
#[derive(Clone, Copy, Debug)]
pub enum Meaning {
    // Some moved, and more can.
    Further(usize),
    // All moved.
    Full(usize),
    // None moved: the input has ended there, or the output takes no more.
    End(usize),
    // The call failed, for that reason.
    Failed(usize, io::Error),
}
