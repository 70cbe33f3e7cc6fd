//! A run over any domains.

ghost use Rattle.std.specs.Prelude.{◌≤◌, ◌+◌, IfOk};
ghost use Rattle.orc_jobs.specs.GoodLines.{AreGood};
ghost use Rattle.orc_run.specs.{Containers.{set_on, split_on}, Sets.{IsInRange, most_buckets}, Over.{RanOver, RanWith}};
ghost use Rattle.orc_at_rest.specs.Domains.{empty_seed};

use crate::set::SetChoice;
use crate::task::Task;
use crate::work::{Worked, work};
use orc_any_domain::Domain;
use orc_board::{Gate, Replies};
use orc_chain_rule::Chain;
use orc_containers::{set_at_rest, set_over, split_set_at_rest, split_set_over};
use orc_fault::NoMemory;
use orc_fifo_rule::Fifo;
use orc_set::Set;
use orc_split_rule::Split;
use orc_split_set::SplitSet;
use std::alloc::Global;
use std::sync::Wait;
use std::thread::Threads;

/// To how many buckets a split-ordered set grows at most.
const MOST_BUCKETS: u32 = 256;

/// What is left of the domain of a run's set, whichever it was.
#[derive(Drop)]
pub(crate) enum SetLeft<A, B> {
    /// Of lists.
    Lists(A),
    /// Of a split-ordered set.
    Split(B),
}

/// What a run over any domains leaves: the domains of the queue, of the rush queue and of the set at rest, and the replies.
#[derive(Drop)]
pub(crate) struct Left<A, B> {
    pub(crate) queue: A,
    pub(crate) rush: A,
    pub(crate) set: B,
    pub(crate) replies: Replies,
}

// The run over the set that was chosen.
pub(crate) fn run_over<
    R: Threads + Wait + Sync,
    L: Domain<Rule = Fifo> + Sync + Drop,
    M: Domain<Rule = Chain> + Sync + Drop,
    N: Domain<Rule = Split> + Sync + Drop,
    G: Gate + Sync,
>(
    rt: &R,
    alloc: Global,
    task: &Task<'_>,
    set: SetChoice,
    gate: &G,
) -> Result<Left<L::Rest, SetLeft<M::Rest, N::Rest>>, NoMemory>
where
    L::Pass: Send,
    M::Pass: Send,
    N::Pass: Send,
    requires good { AreGood task.now.lines.now }
    requires set { IsInRange set }
    ensures { IfOk result (λ f. RanWith L.Links L.bounds L.rests M.Links M.bounds M.rests N.Links N.bounds N.rests
        task.now.lines.now task.now.posters task.now.takers task.now.rows set f.queue f.rush f.set f.replies) }
{
    match set {
        SetChoice::Lists(buckets) => {
            let Left {
                queue,
                rush,
                set,
                replies,
            } = run_over_lists::<R, L, M, G>(rt, alloc, task, buckets, gate)?;
            Ok(Left {
                queue,
                rush,
                set: SetLeft::Lists(set),
                replies,
            })
        }
        SetChoice::Split => {
            let Left {
                queue,
                rush,
                set,
                replies,
            } = run_over_split::<R, L, N, G>(rt, alloc, task, gate)?;
            Ok(Left {
                queue,
                rush,
                set: SetLeft::Split(set),
                replies,
            })
        }
    }
}

// The run over a set in so many buckets.
fn run_over_lists<
    R: Threads + Wait + Sync,
    L: Domain<Rule = Fifo> + Sync + Drop,
    M: Domain<Rule = Chain> + Sync + Drop,
    G: Gate + Sync,
>(
    rt: &R,
    alloc: Global,
    task: &Task<'_>,
    buckets: u32,
    gate: &G,
) -> Result<Left<L::Rest, M::Rest>, NoMemory>
where
    L::Pass: Send,
    M::Pass: Send,
    requires good { AreGood task.now.lines.now }
    requires buckets { (1 ≤ buckets) × (buckets ≤ 256) }
    ensures { IfOk result (λ f. RanOver L.Links L.bounds L.rests M.Links M.bounds M.rests empty_seed (set_on M.Links)
        task.now.lines.now task.now.posters task.now.takers task.now.rows buckets f.queue f.rush f.set f.replies) }
{
    let shape = task.shape(buckets);
    let (set, passes) = set_over::<M>(alloc, &shape)?;
    let Worked {
        queue,
        rush,
        set: passes,
        replies,
    } = work::<R, L, Set<M>, G>(rt, alloc, task, &set, passes, gate)?;
    Ok(Left {
        queue,
        rush,
        set: set_at_rest(set, passes),
        replies,
    })
}

// The run over a split-ordered set.
fn run_over_split<
    R: Threads + Wait + Sync,
    L: Domain<Rule = Fifo> + Sync + Drop,
    M: Domain<Rule = Split> + Sync + Drop,
    G: Gate + Sync,
>(rt: &R, alloc: Global, task: &Task<'_>, gate: &G) -> Result<Left<L::Rest, M::Rest>, NoMemory>
where
    L::Pass: Send,
    M::Pass: Send,
    requires { AreGood task.now.lines.now }
    ensures { IfOk result (λ f. RanOver L.Links L.bounds L.rests M.Links M.bounds M.rests empty_seed (split_on M.Links)
        task.now.lines.now task.now.posters task.now.takers task.now.rows (most_buckets + 1) f.queue f.rush f.set f.replies) }
{
    let shape = task.shape(MOST_BUCKETS + 1);
    let (set, passes) = split_set_over::<M>(alloc, &shape, MOST_BUCKETS)?;
    let Worked {
        queue,
        rush,
        set: passes,
        replies,
    } = work::<R, L, SplitSet<M>, G>(rt, alloc, task, &set, passes, gate)?;
    Ok(Left {
        queue,
        rush,
        set: split_set_at_rest(set, passes),
        replies,
    })
}
