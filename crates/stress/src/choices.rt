//! The choices of a container and a domain.

ghost use Rattle.std.specs.Prelude.{◌≡◌, ◌*◌, IfOk};
ghost use Rattle.orc_stress.specs.Answers.{calls_of};

use crate::driven::{run_cell, run_queue, run_set, run_split};
use crate::sorted::run_sorted;
use orc_chain_rule::Chain;
use orc_containers::Unmade;
use orc_domain::OrcDomain;
use orc_fifo_rule::Fifo;
use orc_pairs_rule::Pairs;
use orc_plain_domain::PlainDomain;
use orc_split_rule::Split;
use orc_stress::{Counts, Domain, Driven, Kind, Settings};
use std::alloc::Global;
use std::thread::Threads;
use std::time::{Clock, Instant};

// Drives what the settings name.
pub(crate) fn run<R: Threads + Clock + Sync>(
    rt: &R,
    alloc: Global,
    settings: &Settings,
    instant: Instant,
) -> Result<(Driven, Counts), Unmade>
    ensures calls { IfOk result (λ r. calls_of r.0.tally.answers ≡ settings.now.plan.threads * settings.now.plan.load.calls) }
{
    match settings.container {
        Kind::Queue => match settings.domain {
            Domain::Plain => run_queue::<R, PlainDomain<Fifo>>(rt, alloc, settings, instant),
            Domain::Reclaiming => run_queue::<R, OrcDomain<Fifo>>(rt, alloc, settings, instant),
        },
        Kind::List | Kind::Set => match settings.domain {
            Domain::Plain => run_set::<R, PlainDomain<Chain>>(rt, alloc, settings, instant),
            Domain::Reclaiming => run_set::<R, OrcDomain<Chain>>(rt, alloc, settings, instant),
        },
        Kind::Split => match settings.domain {
            Domain::Plain => run_split::<R, PlainDomain<Split>>(rt, alloc, settings, instant),
            Domain::Reclaiming => run_split::<R, OrcDomain<Split>>(rt, alloc, settings, instant),
        },
        Kind::Cell => match settings.domain {
            Domain::Plain => run_cell::<R, PlainDomain<Pairs>>(rt, alloc, settings, instant),
            Domain::Reclaiming => run_cell::<R, OrcDomain<Pairs>>(rt, alloc, settings, instant),
        },
        Kind::Sorted => Ok(run_sorted(rt, alloc, &settings.plan, instant)?),
    }
}
