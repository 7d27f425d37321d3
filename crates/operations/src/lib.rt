// What an instruction makes of the cells: first where its operands stand, then its writes, at these addresses; and what it makes of the
// peripherals.

#![tactic(auto)]

mod arithmetic;
mod file;
mod operands;
mod others;
mod written;

pub use arithmetic::operate;
pub use file::{peek, poke, read, set};
pub use operands::{lacks, locate};
pub use others::{rorc, skip, transfer};
pub use written::writes;

// What an instruction reads besides the cells: the pins of the ports, and the control registers, which give the ports' directions and are
// what PEEK reads below 40H. The cells are no field, since most operations write them; nor is the model, which goes with the cells, here and
// in `memory`.
#[derive(Clone, Copy)]
pub struct Ports<'a> {
    pub pins: &'a [u8; 5],
    pub registers: &'a [u8; 7],
}

// The effective addresses of an instruction's operands: the cell that the result goes to, the cell that it is taken from, and the
// register that gives @r its column. 128, which no cell has, where there is none.
#[derive(Clone, Copy)]
pub struct Addresses {
    pub to: u8,
    pub from: u8,
    pub pointer: u8,
}
