//! Over the domain whose rows are reclaimed.

use super::rests::{Sizes, told_over};
use orc_cell::CellRefused;
use orc_containers::RowCounts;
use orc_domain::OrcDomain;
use orc_pairs_rule::Pairs;

const SIZES: Sizes = Sizes {
    for_one: 16,
    for_two: 6,
    for_six: 100,
    calls: 3_000,
};

// At rest the last pair and its two parts are linked, and all others of so many rows that were given have been freed.
fn one_version(given: u64) -> RowCounts {
    RowCounts {
        given,
        reused: given.wrapping_sub(3),
        linked: 3,
    }
}

// One version is left. Of six rows for two agents three are of the first version and one is staged: two are left, too few for two
// parts and a pair, and enough for one part and a pair. Once the part is let go there are three. What was given for the refused publish
// has been freed, too. Over 100 rows for six agents rows are given again and again. A publish may find none.
#[test]
fn one_version_is_left_and_each_pair_that_is_read_was_published(rt: HostRuntime) {
    let told = told_over::<_, OrcDomain<Pairs>>(&rt, rt.alloc(), SIZES);
    let by_one = (
        Ok((5, 0)),
        Some((5, 0)),
        Ok((1, 2)),
        Ok((1, 9)),
        Some((1, 9)),
    );
    assert_eq!(rt; told.one, Some((by_one, one_version(8))));
    let by_two = (
        Ok((1, 2)),
        true,
        Err(CellRefused::NoNode),
        Ok((5, 2)),
        Ok((3, 4)),
        Some((3, 4)),
    );
    assert_eq!(rt; told.two, Some((by_two, one_version(11))));
    let Some(crowd) = told.six else {
        panic!(rt; "six passes")
    };
    assert!(rt; crowd.noted >= 3_000, "{} answers", crowd.noted);
    assert!(rt; crowd.all_published);
    assert!(rt; crowd.may_be_left, "{:?}", crowd.left);
    let given = crowd.counts.given;
    assert!(rt; given >= 1_000, "{given} lives of rows");
    assert_eq!(rt; crowd.counts, one_version(given));
}
