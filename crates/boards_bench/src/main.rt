//! Times what the words name, one after another: `machine`, steps of the machine; `plain` and `counted`, loads of a root's link
//! through a plain board and through one of counted rows, each beside as many loads of a bare atomic word. What was done or found
//! goes to standard output, the times that it took to standard error.
#![tactic(auto)]

mod counted;
mod loads;
mod machine;
mod plain;

use std::alloc::Global;
use std::io::{Eprint, ErrorKind, Print};
use std::time::Clock;
use std::{env, io};

// Times what a word names.
fn time<R: Clock + Print + Eprint>(rt: &R, alloc: Global, word: &str) -> io::Result<()> {
    match word {
        "machine" => machine::time(rt, alloc),
        "plain" => plain::time(rt, alloc),
        "counted" => counted::time(rt, alloc),
        _ => Err(io::Error::from(ErrorKind::InvalidInput)),
    }
}

fn main(rt: HostRuntime) -> io::Result<()> {
    for word in env::args(&rt)?.skip(1) {
        time(&rt, rt.alloc(), word.as_str())?;
    }
    Ok(())
}
