//! Runs scripts of live files: each line of standard input has an area and a file, and with it is written what
//! the file says.
//!
//! `stdin` has the cases, among them the database of a real router, and `stdout` what they say, which was
//! worked out outside.
#![tactic(auto)]

mod answer;

use crate::answer::answer;
use std::io;

fn main(rt: HostRuntime) -> io::Result<()> {
    let alloc = rt.alloc();
    for line in rt.lines(alloc) {
        let line = line?;
        let text = answer(alloc, line.as_str())?;
        println!(rt; "{text}")?;
    }
    Ok(())
}
