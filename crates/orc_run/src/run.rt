//! The whole run.

ghost use Rattle.std.specs.Prelude.{IfOk};
ghost use Rattle.orc_jobs.specs.GoodLines.{AreGood};
ghost use Rattle.orc_run.specs.{Over.{RanWith}, Runs.{WorkedThrough}, Sets.{IsInRange}, declared.set.SetChoice.{SetChoice}};

use crate::over::{Left, SetLeft, run_over};
use crate::set::{SetChoice, SetRest};
use crate::task::Task;
use orc_any_domain::Domain;
use orc_board::{Gate, Replies};
use orc_chain_rule::Chain;
use orc_domain::{OrcDomain, OrcRest};
use orc_fault::NoMemory;
use orc_fifo_rule::Fifo;
use orc_heap::Links;
use orc_split_rule::Split;
use std::alloc::Global;
use std::sync::Wait;
use std::thread::Threads;

/// What a run leaves: the domains of the queue, of the rush queue and of the set at rest, each with the journal of all that
/// happened on it, and the replies.
#[derive(Drop)]
pub struct Finished {
    pub queue: OrcRest<Fifo>,
    pub rush: OrcRest<Fifo>,
    pub set: SetRest,
    pub replies: Replies,
}

/// Works through the lines with the posters and takers of the task, each on a thread of its own where one can be started, over a
/// queue, a rush queue and the chosen set. Then the caller takes what is left, and all three domains are brought to rest.
///
/// # Errors
///
/// `NoMemory` where memory is refused. All of it is taken before the first worker starts.
pub fn run_lines<R: Threads + Wait + Sync, G: Gate + Sync>(
    rt: &R,
    alloc: Global,
    task: &Task<'_>,
    set: SetChoice,
    gate: &G,
) -> Result<Finished, NoMemory>
    requires good { AreGood task.now.lines.now }
    requires set { IsInRange set }
    ensures { IfOk result (λ f. WorkedThrough task.now.lines.now task.now.posters task.now.takers task.now.rows set f) }
{
    let Left {
        queue,
        rush,
        set,
        replies,
    } = run_at_lists::<R, OrcDomain<Split>, G>(rt, alloc, task, set, gate)?;
    match set {
        SetLeft::Lists(rest) => Ok(Finished {
            queue,
            rush,
            set: SetRest::Lists(rest),
            replies,
        }),
        SetLeft::Split(rest) => Ok(Finished {
            queue,
            rush,
            set: SetRest::Split(rest),
            replies,
        }),
    }
}

// The run with its lists, too, over reclaiming domains.
fn run_at_lists<R: Threads + Wait + Sync, N: Domain<Rule = Split> + Sync + Drop, G: Gate + Sync>(
    rt: &R,
    alloc: Global,
    task: &Task<'_>,
    set: SetChoice,
    gate: &G,
) -> Result<Left<OrcRest<Fifo>, SetLeft<OrcRest<Chain>, N::Rest>>, NoMemory>
where
    N::Pass: Send,
    requires good { AreGood task.now.lines.now }
    requires set { IsInRange set }
    ensures { IfOk result (λ f. RanWith ⟦<OrcDomain<Fifo> as Links>⟧ ⟦<OrcDomain<Fifo> as Domain>⟧.bounds ⟦<OrcDomain<Fifo> as Domain>⟧.rests
        ⟦<OrcDomain<Chain> as Links>⟧ ⟦<OrcDomain<Chain> as Domain>⟧.bounds ⟦<OrcDomain<Chain> as Domain>⟧.rests N.Links N.bounds N.rests
        task.now.lines.now task.now.posters task.now.takers task.now.rows set f.queue f.rush f.set f.replies) }
{
    run_at_queues::<R, OrcDomain<Chain>, N, G>(rt, alloc, task, set, gate)
}

// The run with its queues over reclaiming domains.
fn run_at_queues<
    R: Threads + Wait + Sync,
    M: Domain<Rule = Chain> + Sync + Drop,
    N: Domain<Rule = Split> + Sync + Drop,
    G: Gate + Sync,
>(
    rt: &R,
    alloc: Global,
    task: &Task<'_>,
    set: SetChoice,
    gate: &G,
) -> Result<Left<OrcRest<Fifo>, SetLeft<M::Rest, N::Rest>>, NoMemory>
where
    M::Pass: Send,
    N::Pass: Send,
    requires good { AreGood task.now.lines.now }
    requires set { IsInRange set }
    ensures { IfOk result (λ f. RanWith ⟦<OrcDomain<Fifo> as Links>⟧ ⟦<OrcDomain<Fifo> as Domain>⟧.bounds ⟦<OrcDomain<Fifo> as Domain>⟧.rests
        M.Links M.bounds M.rests N.Links N.bounds N.rests
        task.now.lines.now task.now.posters task.now.takers task.now.rows set f.queue f.rush f.set f.replies) }
{
    run_over::<R, OrcDomain<Fifo>, M, N, G>(rt, alloc, task, set, gate)
}
