//! `dc_session_cases`: plays a live session over objects in memory for each line of its input, and prints how it ended.
#![tactic(auto)]

mod fields;
mod outside;
mod session;

use std::io::{self, BufRead, BufReader, ErrorKind};

fn main(rt: HostRuntime) -> io::Result<()> {
    for line in BufReader::new(rt.alloc(), rt.reader())?.lines(rt.alloc()) {
        let text = session::answer(&rt, line?.as_str()).ok_or(ErrorKind::InvalidData)?;
        println!(rt; "{text}")?;
    }
    Ok(())
}
