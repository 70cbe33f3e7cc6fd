//! All calls over the domain that gives each row once, and over the one that reclaims its rows.

use super::calls::{
    ANCHORED, DOUBLED, Doubled, Unnamed, one_doubles, one_finds_ends, the_next_anchors,
    the_next_doubles,
};
use super::threads::{ALL, Told, four_double};
use orc_containers::{Domain, RowCounts};
use orc_domain::OrcDomain;
use orc_plain_domain::PlainDomain;
use orc_split_rule::Split;
use std::alloc::Global;
use std::thread::Threads;
use uses::{Doubling, doubles_and_rests};

// What the calls come to, each time of a new set: where one agent doubles it, where one stops before it does and the other inserts,
// where one stops and the other asks, where one finds ends among many keys, where four double it in threads of their own, and where
// one fills and empties it, and its rows are counted at rest.
#[derive(PartialEq, Drop)]
struct Calls {
    doubled: Option<Doubled>,
    buckets: Option<(u32, u32)>,
    anchored: Option<Unnamed>,
    ends: Option<u32>,
    four: Option<Told>,
    rests: Option<(Doubling, RowCounts)>,
}

// What is found of 24 keys that are put in one after another.
const ALL_24: Doubling = Doubling {
    added: 24,
    buckets: Some(4),
    found: 24,
    taken_out: 24,
    left: 0,
};

// 1 is behind nine keys, and 3 behind ten. Of keys that are inserted in order, 11 * n is the first with more than 8 keys before it in
// its bucket of n: so 704 makes 128 buckets of 64, and 1,408 would make 256; 11 makes two buckets, and 22 four. Beside the 24 keys
// each of the three new buckets has a row, and each new number of buckets: so many rows are reused and linked at rest.
fn wanted(reused: u64, linked: u32) -> Calls {
    let given = 29;
    Calls {
        doubled: Some(DOUBLED),
        buckets: Some((1, 2)),
        anchored: Some(ANCHORED),
        ends: Some(128),
        four: Some(ALL),
        rests: Some((
            ALL_24,
            RowCounts {
                given,
                reused,
                linked,
            },
        )),
    }
}

// All calls.
fn all_calls<R: Threads + Sync, L: Domain<Rule = Split> + Sync + Drop>(
    rt: &R,
    alloc: Global,
) -> Calls
where
    L::Pass: Send,
{
    Calls {
        doubled: one_doubles::<L>(alloc),
        buckets: the_next_doubles::<L>(alloc),
        anchored: the_next_anchors::<L>(alloc),
        ends: one_finds_ends::<L>(alloc),
        four: four_double::<R, L>(rt, alloc),
        rests: doubles_and_rests::<L>(alloc, 32, 24),
    }
}

// All rows stay out.
#[test]
fn calls_over_rows_that_are_given_once(rt: HostRuntime) {
    assert!(rt; all_calls::<_, PlainDomain<Split>>(&rt, rt.alloc()) == wanted(0, 29));
}

// Once all keys are out, a row is linked for each of the three new buckets, and one for their number.
#[test]
fn calls_over_rows_that_are_reclaimed(rt: HostRuntime) {
    assert!(rt; all_calls::<_, OrcDomain<Split>>(&rt, rt.alloc()) == wanted(25, 4));
}
