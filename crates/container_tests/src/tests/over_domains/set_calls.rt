//! Sets over rows that are reclaimed, called by one agent, by two and by four.

use super::list_calls::other_answer;
use orc_chain_rule::Chain;
use orc_containers::{Domain, RowCounts, Unmade};
use orc_domain::OrcDomain;
use orc_history::ListRefused;
use std::alloc::Global;
use std::test::Fail;
use std::thread::Threads;
use uses::SetCase::{self, Contains, Insert, Remove};
use uses::{
    HeldList, SetWork, calls_beside_a_held_node, goes_past_marked_nodes, set_on_threads,
    wears_a_row_out,
};

// Two rows: beside the first key there is one more. It is taken out and used again.
const TWO_ROWS: [(u64, SetCase); 9] = [
    (2, Insert(1, Ok(true))),
    (2, Insert(2, Ok(true))),
    (2, Insert(2, Ok(false))),
    (2, Insert(3, Err(ListRefused::NoNode))),
    (2, Remove(1, Ok(true))),
    (2, Insert(3, Ok(true))),
    (2, Remove(3, Ok(true))),
    (2, Insert(u64::MAX, Ok(true))),
    (2, Contains(2, Ok(true))),
];

// 5, 262 and 519 are 5 by 257, 6 is 6, and the greatest number is 0. There are five rows: 7 finds none.
const SHARED: [(u64, SetCase); 22] = [
    (1, Contains(519, Ok(false))),
    (1, Insert(519, Ok(true))),
    (1, Contains(5, Ok(false))),
    (1, Insert(5, Ok(true))),
    (1, Contains(262, Ok(false))),
    (1, Insert(262, Ok(true))),
    (1, Contains(6, Ok(false))),
    (1, Insert(6, Ok(true))),
    (1, Contains(u64::MAX, Ok(false))),
    (1, Insert(u64::MAX, Ok(true))),
    (1, Contains(7, Ok(false))),
    (1, Insert(7, Err(ListRefused::NoNode))),
    (1, Contains(262, Ok(true))),
    (1, Insert(262, Ok(false))),
    (1, Remove(262, Ok(true))),
    (1, Contains(262, Ok(false))),
    (1, Remove(262, Ok(false))),
    (1, Contains(262, Ok(false))),
    (1, Remove(0, Ok(false))),
    (1, Contains(0, Ok(false))),
    (1, Remove(5, Ok(true))),
    (1, Contains(5, Ok(false))),
];

// Of four distinct keys the last finds no row.
const ONE_BUCKET: [(u64, SetCase); 12] = [
    (1, Insert(5, Ok(true))),
    (1, Insert(3, Ok(true))),
    (1, Insert(5, Ok(false))),
    (1, Insert(u64::MAX, Ok(true))),
    (1, Insert(9, Err(ListRefused::NoNode))),
    (1, Contains(3, Ok(true))),
    (1, Contains(9, Ok(false))),
    (1, Remove(4, Ok(false))),
    (1, Remove(5, Ok(true))),
    (1, Contains(5, Ok(false))),
    (1, Insert(9, Ok(true))),
    (1, Contains(u64::MAX, Ok(true))),
];

// What is answered: which calls of two rows, of 257 buckets and of one bucket are answered otherwise; whether an insert goes past marked
// nodes; whether a row with one link and one with two is worn out; what four threads did; and what was counted beside a hold.
#[derive(Drop)]
struct Reclaimed {
    others: [Result<Option<usize>, Unmade>; 3],
    past: Result<bool, Unmade>,
    worn: [Result<bool, Unmade>; 2],
    worked: Result<Option<SetWork>, Unmade>,
    held: Result<Option<HeldList>, Unmade>,
}

// How many calls each agent makes.
const CALLS: u64 = 100_000;

fn over_reclaimed_rows<R: Threads + Sync, L: Domain<Rule = Chain> + Sync + Drop>(
    rt: &R,
    alloc: Global,
) -> Reclaimed
where
    L::Pass: Send,
{
    Reclaimed {
        others: [
            other_answer::<L>(alloc, 2, 1, &TWO_ROWS),
            other_answer::<L>(alloc, 5, 257, &SHARED),
            other_answer::<L>(alloc, 3, 1, &ONE_BUCKET),
        ],
        past: goes_past_marked_nodes::<L>(alloc),
        worn: [
            wears_a_row_out::<L>(alloc, 1),
            wears_a_row_out::<L>(alloc, 2),
        ],
        worked: set_on_threads::<R, L>(rt, alloc, 64, 4, 16, CALLS),
        held: calls_beside_a_held_node::<L>(alloc),
    }
}

// The row of 400 is the one that its holder has to see to once it let go, and keeps the row of 401 until then. The end of the
// domain alone frees both. 402 rows were given, and 302 keys taken out. At rest the rows of 99 keys are linked, and the marked one.
const LET_GO_LATE: HeldList = HeldList {
    added: 400,
    taken_out: 300,
    waiting: 1,
    counts: RowCounts {
        given: 402,
        reused: 302,
        linked: 100,
    },
};

// Whether rows were given often, calls were answered often, and all rows that were given are linked or were reused: an insert that
// added a key took a row, of which there are 64. At rest a row is linked for each key that is left, and each marked node.
fn has_reused_rows(work: &SetWork) -> bool {
    let counts = &work.counts;
    let often = counts.given >= 10_000 && work.answered >= 2 * CALLS;
    let freed = counts.given == counts.reused.wrapping_add(u64::from(counts.linked));
    let linked = counts.linked >= work.balance.count_ones();
    often && freed && linked && work.waiting == 0 && work.found == Some(work.balance)
}

#[test]
fn rows_of_a_set_are_used_again(rt: HostRuntime) -> Result<(), Fail> {
    let told = over_reclaimed_rows::<_, OrcDomain<Chain>>(&rt, rt.alloc());
    assert_eq!(rt; told.others, [Ok(None); 3]);
    assert_eq!(rt; (told.past, told.worn), (Ok(true), [Ok(true); 2]));
    assert!(rt; told.held == Ok(Some(LET_GO_LATE)));
    let Ok(Some(work)) = told.worked else {
        panic!(rt; "passes in order")
    };
    assert!(rt; has_reused_rows(&work));
    Ok(())
}
