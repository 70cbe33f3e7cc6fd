//! Rows that are given once: what calls of queues and lists are answered over them, and what watches and a gate see of runs.

use super::gates::judges_a_run;
use super::meeting::{meet_at_once, takes_around_a_rush_job};
use super::{list_calls, queue_calls};
use orc_chain_rule::Chain;
use orc_containers::{Domain, Unmade};
use orc_fifo_rule::Fifo;
use orc_plain_domain::PlainDomain;
use orc_words::ShapeFault;
use std::alloc::Global;
use std::sync::Wait;
use std::test::Fail;
use std::thread::Threads;

// What calls of queues and of lists are answered, and what is seen of three runs.
#[derive(Drop)]
struct GivenOnce {
    queues: queue_calls::GivenOnce,
    lists: list_calls::GivenOnce,
    judged: bool,
    met: bool,
    around: bool,
}

fn over_rows_given_once<
    R: Threads + Wait + Sync,
    F: Domain<Rule = Fifo> + Sync + Drop,
    C: Domain<Rule = Chain> + Sync + Drop,
>(rt: &R, alloc: Global) -> Result<GivenOnce, Unmade>
where
    F::Pass: Send,
    C::Pass: Send,
{
    let judged = judges_a_run::<R, F, C>(rt, alloc)?;
    let met = meet_at_once::<R, F, C>(rt, alloc)?;
    let around = takes_around_a_rush_job::<R, F, C>(rt, alloc)?;
    Ok(GivenOnce {
        queues: queue_calls::over_rows_given_once::<R, F>(rt, alloc),
        lists: list_calls::over_rows_given_once::<C>(alloc),
        judged,
        met,
        around,
    })
}

// Both agents of a queue take what both put, both of a list see what both add, and calls are refused. A gate is called before each line
// and each take. The calls of three agents are made at once. A rush job comes between the two dequeues of a take.
#[test]
fn calls_are_refused_gates_are_called_agents_meet_and_a_rush_job_comes_between(
    rt: HostRuntime,
) -> Result<(), Fail> {
    let told = over_rows_given_once::<_, PlainDomain<Fifo>, PlainDomain<Chain>>(&rt, rt.alloc())?;
    let one_row = Unmade::Shape(ShapeFault::Rows(1));
    assert_eq!(rt; told.queues, (Ok(true), Ok(None), Some(one_row)));
    assert_eq!(rt; told.lists, (Ok(None), Ok(None), Ok(true)));
    assert!(rt; told.judged && told.met && told.around);
    Ok(())
}
