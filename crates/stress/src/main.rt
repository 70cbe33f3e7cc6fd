//! Drives a queue, a list, a set, one that doubles its buckets, or a cell, on threads, over plain domains or such whose rows are reclaimed, and
//! prints what that came to.
#![tactic(auto)]

mod calls;
mod cells;
mod choices;
mod containers;
mod driven;
mod runs;
mod sorted;
mod stops;

use choices::run;
use orc_containers::Unmade;
use orc_stress::{
    Counts, Driven, Refused, Settings, judge, print_figures, settings_of, tell_missing,
};
use std::process::ExitCode;
use std::time::Instant;
use std::{env, io};

// The statuses: something is wrong with what the run came to; words that are not such; a write or the clock failed; a thread
// couldn't be made; no memory.
const WRONG: u8 = 1;

const WORDS: u8 = 2;

const FAILED: u8 = 5;

const MISSING: u8 = 6;

const NO_MEMORY: u8 = 7;

fn main(rt: HostRuntime) -> ExitCode {
    let Ok(args) = env::args(&rt) else {
        return ExitCode::from(WORDS);
    };
    let mut words = Vec::new(rt.alloc());
    for word in args.skip(1) {
        if words.push(word).is_err() {
            return ExitCode::from(NO_MEMORY);
        }
    }
    let settings = match settings_of(rt.alloc(), words.as_slice()) {
        Ok(settings) => settings,
        Err(Refused::NoMemory) => return ExitCode::from(NO_MEMORY),
        Err(refused) => return tell_refusal(&rt, refused),
    };
    let Ok(instant) = Instant::now(&rt) else {
        return ExitCode::from(FAILED);
    };
    let (driven, counts) = match run(&rt, rt.alloc(), &settings, instant) {
        Ok(done) => done,
        Err(Unmade::Shape(_)) => return ExitCode::from(WORDS),
        Err(Unmade::NoMemory) => return ExitCode::from(NO_MEMORY),
    };
    match told(&rt, &settings, &driven, &counts) {
        Ok((false, _)) => ExitCode::from(WRONG),
        Ok((true, false)) => ExitCode::from(MISSING),
        Ok((true, true)) => ExitCode::SUCCESS,
        Err(_) => ExitCode::from(FAILED),
    }
}

// Prints what a run came to; answers whether nothing is wrong, and whether all threads were made.
fn told<R: Print>(
    rt: &R,
    settings: &Settings,
    driven: &Driven,
    counts: &Counts,
) -> io::Result<(bool, bool)> {
    print_figures(rt, settings, driven, counts)?;
    let right = judge(rt, settings, driven, counts)?;
    Ok((right, tell_missing(rt, driven)?))
}

// Prints why words are refused that `clap` takes.
fn tell_refusal<R: Print>(rt: &R, refused: Refused) -> ExitCode {
    let printed: io::Result<()> = match refused.why() {
        Some(why) => println!(rt; "REFUSED|{why}"),
        None => Ok(()),
    };
    match printed {
        Ok(()) => ExitCode::from(WORDS),
        Err(_) => ExitCode::from(FAILED),
    }
}
