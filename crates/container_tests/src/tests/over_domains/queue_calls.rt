//! The queue, called by one agent, by two and by four.

use orc_containers::{Domain, RowCounts, Unmade};
use orc_domain::OrcDomain;
use orc_fault::Again;
use orc_fifo_rule::Fifo;
use orc_history::QueueRefused;
use orc_words::{HIGHEST_LIMIT, Shape};
use std::alloc::Global;
use std::test::Fail;
use std::thread::Threads;
use uses::{
    HeldQueue, QueueCase, QueueWork, calls_beside_a_held_dummy, each_takes_the_others,
    first_other_reply, helps_a_lagging_tail_on, queue_on_threads, serves_to_the_last_position,
};

// Both calls without turns, and two rows, which are given once: the second put finds none, even after the first was taken.
const CASES: [(u64, QueueCase); 10] = [
    (0, QueueCase::Put(9, Err(QueueRefused::Again))),
    (0, QueueCase::Take(Err(Again))),
    (2, QueueCase::Take(Ok(None))),
    (2, QueueCase::Put(1, Ok(0))),
    (2, QueueCase::Put(2, Err(QueueRefused::NoNode))),
    (0, QueueCase::Put(9, Err(QueueRefused::Again))),
    (0, QueueCase::Take(Err(Again))),
    (2, QueueCase::Take(Ok(Some((1, 0))))),
    (2, QueueCase::Put(2, Err(QueueRefused::NoNode))),
    (2, QueueCase::Take(Ok(None))),
];

// The first of these calls that is answered otherwise.
fn other_reply<L: Domain<Rule = Fifo> + Drop>(alloc: Global) -> Result<Option<usize>, Unmade> {
    let shape = Shape::new(2, 2, 1, HIGHEST_LIMIT)?;
    Ok(first_other_reply::<L>(alloc, &shape, 0, &CASES)?)
}

// Why a queue of one row and 17 agents isn't made.
fn too_few<R: Threads + Sync, L: Domain<Rule = Fifo> + Sync + Drop>(
    rt: &R,
    alloc: Global,
) -> Option<Unmade>
where
    L::Pass: Send,
{
    queue_on_threads::<R, L>(rt, alloc, 1, 17, 0).err()
}

// What is answered over a domain that gives each row once: whether both agents take what both put, which of the calls is answered
// otherwise, and why a queue isn't made.
pub(super) type GivenOnce = (
    Result<bool, Unmade>,
    Result<Option<usize>, Unmade>,
    Option<Unmade>,
);

pub(super) fn over_rows_given_once<R: Threads + Sync, L: Domain<Rule = Fifo> + Sync + Drop>(
    rt: &R,
    alloc: Global,
) -> GivenOnce
where
    L::Pass: Send,
{
    (
        each_takes_the_others::<L>(alloc),
        other_reply::<L>(alloc),
        too_few::<R, L>(rt, alloc),
    )
}

// What is answered over a domain that reclaims its rows, where these have one link and two: whether a lagging tail is helped on, and
// whether two rows are used again to the last position; what four threads did; and what was counted beside a hold.
#[derive(Drop)]
struct Reclaimed {
    helped: [Result<bool, Unmade>; 2],
    served: [Result<bool, Unmade>; 2],
    worked: Result<Option<QueueWork>, Unmade>,
    held: Result<Option<HeldQueue>, Unmade>,
}

// How many rounds of a put and a take each agent makes.
const ROUNDS: u64 = 50_000;

fn over_reclaimed_rows<R: Threads + Sync, L: Domain<Rule = Fifo> + Sync + Drop>(
    rt: &R,
    alloc: Global,
) -> Reclaimed
where
    L::Pass: Send,
{
    Reclaimed {
        helped: [
            helps_a_lagging_tail_on::<L>(alloc, 1),
            helps_a_lagging_tail_on::<L>(alloc, 2),
        ],
        served: [
            serves_to_the_last_position::<L>(alloc, 1),
            serves_to_the_last_position::<L>(alloc, 2),
        ],
        worked: queue_on_threads::<R, L>(rt, alloc, 64, 4, ROUNDS),
        held: calls_beside_a_held_dummy::<L>(alloc),
    }
}

// The held dummy keeps each node that was taken since, and is the one row that the holder has to see to once it let go.
// The end of the domain alone frees it and the others. At rest the dummy is linked, and a row for each job that is left.
const LET_GO_LATE: HeldQueue = HeldQueue {
    put: 601,
    taken: 400,
    waiting: 1,
    counts: RowCounts {
        given: 602,
        reused: 400,
        linked: 202,
    },
};

// Whether rows were given often, calls were answered often, and all rows that were given are linked or were reused. Each put that was
// answered took a row, of which there are 64: so the rows were reused. A put that finds no row counts as a call without an answer, and
// isn't wrong: others may have retired rows that they have still to free. At rest the dummy is linked, and a row for each job that is
// left.
fn has_reused_rows(work: &QueueWork) -> bool {
    let counts = &work.counts;
    let often = counts.given >= 10_000 && work.answered >= 4 * ROUNDS;
    let freed = counts.given == counts.reused.wrapping_add(u64::from(counts.linked));
    let linked = u64::from(counts.linked) == work.left.wrapping_add(1);
    often && freed && linked && work.waiting == 0
}

#[test]
fn rows_of_a_queue_are_used_again(rt: HostRuntime) -> Result<(), Fail> {
    let told = over_reclaimed_rows::<_, OrcDomain<Fifo>>(&rt, rt.alloc());
    assert_eq!(rt; (told.helped, told.served), ([Ok(true); 2], [Ok(true); 2]));
    assert!(rt; told.held == Ok(Some(LET_GO_LATE)));
    let Ok(Some(work)) = told.worked else {
        panic!(rt; "passes in order")
    };
    assert!(rt; has_reused_rows(&work));
    Ok(())
}
