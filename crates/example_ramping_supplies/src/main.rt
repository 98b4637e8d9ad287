//! A library example: two sessions command supplies, whose type this program defines, while four workers serve.
#![tactic(auto)]

mod fault;
mod supplies;

use std::io;

fn main(rt: HostRuntime) -> io::Result<()> {
    match supplies::run(rt, rt.alloc(), &mut rt.stdout()) {
        Ok(()) => Ok(()),
        Err(fault) => {
            fault.tell(&mut rt.stderr())?;
            Err(io::Error::from(io::ErrorKind::Other))
        }
    }
}
