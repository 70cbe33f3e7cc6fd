//! Over the domain whose rows are never given again.

use super::rests::{Sizes, told_over};
use orc_cell::CellRefused;
use orc_containers::RowCounts;
use orc_pairs_rule::Pairs;
use orc_plain_domain::PlainDomain;

const SIZES: Sizes = Sizes {
    for_one: 16,
    for_two: 9,
    for_six: 20_000,
    calls: 1_000,
};

// So many rows are out at rest.
fn all_out(rows: u32) -> RowCounts {
    RowCounts {
        given: u64::from(rows),
        reused: 0,
        linked: rows,
    }
}

// By one agent all eight rows are out still at rest. Of nine rows the first publish of two agents takes three, the stopped agent one,
// and the next two publishes three and two: the last one finds none. A publish takes at most three rows, of which six agents have
// enough.
#[test]
fn each_version_stays_out_and_each_pair_that_is_read_was_published(rt: HostRuntime) {
    let told = told_over::<_, PlainDomain<Pairs>>(&rt, rt.alloc(), SIZES);
    let by_one = (
        Ok((5, 0)),
        Some((5, 0)),
        Ok((1, 2)),
        Ok((1, 9)),
        Some((1, 9)),
    );
    assert_eq!(rt; told.one, Some((by_one, all_out(8))));
    let by_two = (
        Ok((1, 2)),
        true,
        Ok((3, 4)),
        Ok((5, 4)),
        Err(CellRefused::NoNode),
        Some((5, 4)),
    );
    assert_eq!(rt; told.two, Some((by_two, all_out(9))));
    let Some(crowd) = told.six else {
        panic!(rt; "six passes")
    };
    assert!(rt; crowd.noted >= 3_000);
    assert!(rt; crowd.all_published);
    assert!(rt; crowd.may_be_left, "{:?}", crowd.left);
    assert_eq!(rt; crowd.counts, all_out(crowd.counts.linked));
}
