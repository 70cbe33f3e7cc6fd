//! Calls of the list, which is a set of one bucket, and of sets of more buckets, by one agent or two.

use orc_chain_rule::Chain;
use orc_containers::{Domain, Unmade};
use orc_fault::Again;
use orc_history::ListRefused;
use orc_words::{HIGHEST_LIMIT, Shape};
use std::alloc::Global;
use uses::SetCase::{self, Contains, Insert, Remove};
use uses::{each_sees_the_others, first_other_answer};

// The first of these calls that is answered otherwise, in a set of so many rows and buckets.
pub(super) fn other_answer<L: Domain<Rule = Chain> + Drop>(
    alloc: Global,
    rows: u32,
    buckets: u32,
    cases: &[(u64, SetCase)],
) -> Result<Option<usize>, Unmade> {
    let shape = Shape::new(rows, buckets, 1, HIGHEST_LIMIT)?;
    Ok(first_other_answer::<L>(alloc, &shape, cases)?)
}

// Calls without turns; then keys are added, found and taken out; then the least and the greatest key use up the last two of five
// rows, which are given once.
const CASES: [(u64, SetCase); 25] = [
    (0, Insert(0, Err(ListRefused::Again))),
    (0, Remove(0, Err(Again))),
    (0, Contains(0, Err(Again))),
    (2, Insert(5, Ok(true))),
    (2, Insert(3, Ok(true))),
    (2, Insert(9, Ok(true))),
    (2, Insert(5, Ok(false))),
    (2, Contains(9, Ok(true))),
    (2, Remove(5, Ok(true))),
    (2, Contains(5, Ok(false))),
    (2, Remove(5, Ok(false))),
    (1, Contains(0, Ok(false))),
    (1, Insert(u64::MAX, Ok(true))),
    (1, Contains(u64::MAX, Ok(true))),
    (1, Insert(0, Ok(true))),
    (1, Contains(0, Ok(true))),
    (1, Insert(0, Ok(false))),
    (1, Insert(7, Err(ListRefused::NoNode))),
    (1, Remove(u64::MAX, Ok(true))),
    (1, Contains(u64::MAX, Ok(false))),
    (1, Insert(7, Err(ListRefused::NoNode))),
    (1, Contains(0, Ok(true))),
    (0, Insert(0, Err(ListRefused::Again))),
    (0, Remove(0, Err(Again))),
    (0, Contains(0, Err(Again))),
];

const WITHOUT_TURNS: [(u64, SetCase); 1] = [(0, Insert(7, Err(ListRefused::Again)))];

// What is answered over a domain that gives each row once: which of the calls of the list is answered otherwise, which of those of
// 257 buckets, and whether both agents see what both add.
pub(super) type GivenOnce = (
    Result<Option<usize>, Unmade>,
    Result<Option<usize>, Unmade>,
    Result<bool, Unmade>,
);

pub(super) fn over_rows_given_once<L: Domain<Rule = Chain> + Drop>(alloc: Global) -> GivenOnce {
    (
        other_answer::<L>(alloc, 5, 1, &CASES),
        other_answer::<L>(alloc, 16, 257, &WITHOUT_TURNS),
        each_sees_the_others::<L>(alloc),
    )
}
