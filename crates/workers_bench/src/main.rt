//! Workers of the board over plain domains, each on a thread of its own. In a race they post lines whose ids fall, and then the
//! caller takes all jobs; the same calls of the containers are made bare on as many threads. A run is that of generated lines, and
//! is timed from outside. How many jobs were taken goes to standard output, the microseconds of a race to standard error.
#![tactic(auto)]

mod calls;
mod laps;
mod lines;
mod options;
mod races;

use laps::{Crew, no_memory, run_lap};
use options::{Options, command, options_of};
use orc_chain_rule::Chain;
use orc_containers::Domain;
use orc_fifo_rule::Fifo;
use orc_job_files::make_lines;
use orc_plain_domain::PlainDomain;
use races::race;
use std::alloc::Global;
use std::io::{Eprint, Print};
use std::process::ExitCode;
use std::sync::Wait;
use std::thread::Threads;
use std::time::Clock;
use std::{env, io};

// One run of generated lines.
fn run<
    R: Threads + Wait + Clock + Print + Sync,
    F: Domain<Rule = Fifo> + Sync + Drop,
    C: Domain<Rule = Chain> + Sync + Drop,
>(rt: &R, alloc: Global, options: &Options) -> io::Result<()>
where
    F::Pass: Send,
    C::Pass: Send,
{
    let Ok(lines) = make_lines(alloc, 1, options.lines) else {
        return Err(no_memory());
    };
    let crew = Crew {
        posters: options.posters,
        takers: options.takers,
    };
    let lap = run_lap::<R, F, C>(rt, alloc, &lines, options.buckets, crew, false)?;
    println!(rt; "{} jobs", lap.jobs)
}

// One run or races, over domains of these types.
fn measure<
    R: Threads + Wait + Clock + Print + Eprint + Sync,
    F: Domain<Rule = Fifo> + Sync + Drop,
    C: Domain<Rule = Chain> + Sync + Drop,
>(rt: &R, alloc: Global, options: &Options) -> io::Result<()>
where
    F::Pass: Send,
    C::Pass: Send,
{
    if options.one_run {
        run::<R, F, C>(rt, alloc, options)
    } else {
        race::<R, F, C>(rt, alloc, options)
    }
}

fn main(rt: HostRuntime) -> anyhow::Result<ExitCode> {
    let alloc = rt.alloc();
    let words: Vec<String> = env::args(&rt)?.collect(alloc)?;
    match command(alloc)?.try_get_matches_from(words.as_slice()) {
        Ok(matches) => {
            measure::<_, PlainDomain<Fifo>, PlainDomain<Chain>>(&rt, alloc, &options_of(&matches))?;
            Ok(ExitCode::SUCCESS)
        }
        Err(error) => {
            error.print(&rt)?;
            Ok(ExitCode::from(error.exit_code() as u8))
        }
    }
}
