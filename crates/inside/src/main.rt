// Shows what no step does: the data buffer read as a number of 16 bits; and addresses as numbers. All other cases are in cases/.

#![tactic(auto)]

use memory::{Memory, Model};
use std::io;

fn main(rt: HostRuntime) -> io::Result<()> {
    println!(rt; "P0A {:04X}", Memory::P0A)?;
    println!(rt; "P0B {:04X}", Memory::P0B)?;
    println!(rt; "P0C {:04X}", Memory::P0C)?;
    println!(rt; "WR {:04X}", Memory::WR)?;
    let cells = memory::write_buffer(Model::Upd17132, Memory::reset().cells, 0xABCD);
    println!(rt; "data buffer {:04X}", memory::buffer(&cells))?;
    Ok(())
}
