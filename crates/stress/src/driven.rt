//! Each container, made over any domain, driven, and brought to rest.

ghost use Rattle.std.specs.Prelude.{◌≡◌, ◌*◌, IfOk};
ghost use Rattle.orc_split_rule.specs.SplitDiscipline.{IsSize};
ghost use Rattle.orc_stress.specs.Answers.{calls_of};

use crate::cells::DrivenCell;
use crate::containers::Rooted;
use crate::runs::drive_to_rest;
use orc_any_domain::Domain;
use orc_chain_rule::Chain;
use orc_containers::{Unmade, new_cell, new_queue, new_set, new_split_set};
use orc_fifo_rule::Fifo;
use orc_pairs_rule::Pairs;
use orc_queue::Queue;
use orc_split_rule::Split;
use orc_stress::{Counts, Driven, Kind, Settings};
use std::alloc::Global;
use std::thread::Threads;
use std::time::{Clock, Instant};

// A queue over a domain with two roots, as it is driven.
fn rooted_queue<L: Domain<Rule = Fifo>>(queue: Queue<L>, settings: &Settings) -> Rooted<L, Queue<L>>
    requires { (L.bounds queue.links).roots ≡ 2 }
    ensures { result.container ≡ queue }
{
    Rooted::new(queue, settings)
}

// Drives a queue over a domain of this type.
pub(crate) fn run_queue<R: Threads + Clock + Sync, L: Domain<Rule = Fifo> + Sync + Drop>(
    rt: &R,
    alloc: Global,
    settings: &Settings,
    instant: Instant,
) -> Result<(Driven, Counts), Unmade>
where
    L::Pass: Send,
    L::Rest: Send,
    ensures calls { IfOk result (λ r. calls_of r.0.tally.answers ≡ settings.now.plan.threads * settings.now.plan.load.calls) }
{
    let (made, passes) = new_queue::<L>(alloc, settings.rows, settings.agents)?;
    let queue = rooted_queue(made, settings);
    Ok(drive_to_rest(rt, alloc, &settings.plan, instant, queue, passes)?)
}

// Drives a set over a domain of this type. A list is a set of one bucket.
pub(crate) fn run_set<R: Threads + Clock + Sync, L: Domain<Rule = Chain> + Sync + Drop>(
    rt: &R,
    alloc: Global,
    settings: &Settings,
    instant: Instant,
) -> Result<(Driven, Counts), Unmade>
where
    L::Pass: Send,
    L::Rest: Send,
    ensures calls { IfOk result (λ r. calls_of r.0.tally.answers ≡ settings.now.plan.threads * settings.now.plan.load.calls) }
{
    let buckets = match settings.container {
        Kind::List => 1,
        _ => settings.roots,
    };
    let (made, passes) = new_set::<L>(alloc, settings.rows, settings.agents, buckets)?;
    let set = Rooted::new(made, settings);
    Ok(drive_to_rest(rt, alloc, &settings.plan, instant, set, passes)?)
}

// The greatest number of buckets of a set that doubles them: the greatest power of two up to this number and 256.
fn greatest_of(roots: u32) -> u32
    ensures { IsSize 256 result }
{
    match roots {
        0..=1 => 1,
        2..=3 => 2,
        4..=7 => 4,
        8..=15 => 8,
        16..=31 => 16,
        32..=63 => 32,
        64..=127 => 64,
        128..=255 => 128,
        _ => 256,
    }
}

// Drives a set that doubles its buckets over a domain of this type.
pub(crate) fn run_split<R: Threads + Clock + Sync, L: Domain<Rule = Split> + Sync + Drop>(
    rt: &R,
    alloc: Global,
    settings: &Settings,
    instant: Instant,
) -> Result<(Driven, Counts), Unmade>
where
    L::Pass: Send,
    L::Rest: Send,
    ensures calls { IfOk result (λ r. calls_of r.0.tally.answers ≡ settings.now.plan.threads * settings.now.plan.load.calls) }
{
    let greatest = greatest_of(settings.roots);
    let (made, passes) = new_split_set::<L>(alloc, settings.rows, settings.agents, greatest)?;
    let set = Rooted::new(made, settings);
    Ok(drive_to_rest(rt, alloc, &settings.plan, instant, set, passes)?)
}

// Drives a cell over a domain of this type.
pub(crate) fn run_cell<R: Threads + Clock + Sync, L: Domain<Rule = Pairs> + Sync + Drop>(
    rt: &R,
    alloc: Global,
    settings: &Settings,
    instant: Instant,
) -> Result<(Driven, Counts), Unmade>
where
    L::Pass: Send,
    L::Rest: Send,
    ensures calls { IfOk result (λ r. calls_of r.0.tally.answers ≡ settings.now.plan.threads * settings.now.plan.load.calls) }
{
    let (made, passes) = new_cell::<L>(alloc, settings.rows, settings.agents)?;
    let cell = DrivenCell::new(made, settings);
    Ok(drive_to_rest(rt, alloc, &settings.plan, instant, cell, passes)?)
}
