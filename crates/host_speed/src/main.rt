//! One request over and over on a link in memory, served to its end: the program whose time `checks/speed.sh` takes.
//!
//! Standard input has one number, how often the request comes. It prints how the link ended and how many bytes were
//! written to it.
#![tactic(auto)]

mod asking;
mod versions;

use asking::Asking;
use feed_host::serve_asks;
use std::io;
use versions::Versions;

// The number that a line has, or none of them.
fn number(line: &str) -> u64 {
    line.parse::<u64>().unwrap_or(0)
}

fn main(rt: HostRuntime) -> io::Result<()> {
    let alloc = rt.alloc();
    for line in rt.lines(alloc) {
        let line = line?;
        let mut link = Asking::new(number(line.as_str()));
        let mut service = Versions::new(alloc);
        let end = serve_asks(&rt, alloc, &mut service, &mut link);
        println!(rt; "{end:?} {}", link.written())?;
    }
    Ok(())
}
