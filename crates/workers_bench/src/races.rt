//! Races of workers of the board against bare calls.

ghost use Rattle.std.specs.Prelude.{◌≤◌};
ghost use Rattle.orc_jobs.specs.GoodLines.{AreGood};

use crate::laps::{Crew, Lap, run_lap};
use crate::lines::falling;
use crate::options::Options;
use orc_chain_rule::Chain;
use orc_containers::Domain;
use orc_fifo_rule::Fifo;
use orc_jobs::Lines;
use std::alloc::Global;
use std::io;
use std::io::{Eprint, Print};
use std::sync::Wait;
use std::thread::Threads;
use std::time::Clock;

// Tells how long a lap took, and whose it was.
fn tell_lap<R: Eprint>(rt: &R, bare: bool, threads: u32, lap: Lap) -> io::Result<()> {
    let who = if bare { "bare" } else { "workers" };
    eprintln!(rt; "{who} {threads} {} {}", lap.posting, lap.all)
}

// Races on so many threads: in each round a lap by workers and one by bare calls, which take turns at being the first.
fn race_on<
    R: Threads + Wait + Clock + Print + Eprint + Sync,
    F: Domain<Rule = Fifo> + Sync + Drop,
    C: Domain<Rule = Chain> + Sync + Drop,
>(rt: &R, alloc: Global, lines: &Lines, options: &Options, threads: u32) -> io::Result<()>
where
    F::Pass: Send,
    C::Pass: Send,
    requires good { AreGood lines.now }
    requires threads { (1 ≤ threads) × (threads ≤ 8) }
{
    let crew = Crew {
        posters: threads,
        takers: 0,
    };
    let mut jobs: u64 = 0;
    let mut bare_jobs: u64 = 0;
    for turn in 0..2 * u64::from(options.rounds) {
        let bare = turn % 4 == 1 || turn % 4 == 2;
        let lap = run_lap::<R, F, C>(rt, alloc, lines, options.buckets, crew, bare)?;
        tell_lap(rt, bare, threads, lap)?;
        if bare {
            bare_jobs = bare_jobs.wrapping_add(lap.jobs);
        } else {
            jobs = jobs.wrapping_add(lap.jobs);
        }
    }
    println!(rt; "{threads} threads: {jobs} jobs by workers, {bare_jobs} by bare calls")
}

// Races on 1, 2 and 4 threads.
pub(crate) fn race<
    R: Threads + Wait + Clock + Print + Eprint + Sync,
    F: Domain<Rule = Fifo> + Sync + Drop,
    C: Domain<Rule = Chain> + Sync + Drop,
>(rt: &R, alloc: Global, options: &Options) -> io::Result<()>
where
    F::Pass: Send,
    C::Pass: Send,
{
    let lines = falling(alloc, options.lines)?;
    race_on::<R, F, C>(rt, alloc, &lines, options, 1)?;
    race_on::<R, F, C>(rt, alloc, &lines, options, 2)?;
    race_on::<R, F, C>(rt, alloc, &lines, options, 4)
}
