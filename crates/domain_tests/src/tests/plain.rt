//! Over the domain whose rows are never given again.

use super::moving::{Change, Found};
use super::rests::{TwoLooks, gives_and_rests, links_and_rests, looks_twice};
use orc_any_domain::{Domain, RowCounts};
use orc_heap::AnyFit;
use orc_plain_domain::PlainDomain;
use orc_plain_domain::twins::Twins;
use std::alloc::Global;

// Whether all links of two nodes came about, and how many rows were given, reused and linked at rest.
fn links_and_counts(alloc: Global) -> Option<(bool, (u64, u64, u32))> {
    let (linked, rest) = links_and_rests::<PlainDomain<Twins>>(alloc)?;
    Some((linked, (rest.given(), rest.reused(), rest.linked())))
}

// At rest both rows are out still.
#[test]
fn rows_that_were_unlinked_stay_out(rt: HostRuntime) {
    assert_eq!(rt; links_and_counts(rt.alloc()), Some((true, (2, 0, 2))));
}

// What is told over a domain that gives each row once.
#[derive(Drop)]
struct GivenOnce {
    gives: Option<(bool, RowCounts)>,
    looks: Option<TwoLooks>,
}

fn over_rows_given_once<L: Domain<Rule = AnyFit> + Drop>(alloc: Global) -> GivenOnce {
    GivenOnce {
        gives: gives_and_rests::<L>(alloc, 2),
        looks: looks_twice::<L>(alloc, Change::Unlink),
    }
}

// At rest both rows are out still.
#[test]
fn two_rows_are_given_once_each_and_a_hold_stays_where_the_link_is_null(rt: HostRuntime) {
    let told = over_rows_given_once::<PlainDomain<AnyFit>>(rt.alloc());
    let counts = RowCounts {
        given: 2,
        reused: 0,
        linked: 2,
    };
    assert_eq!(rt; told.gives, Some((true, counts)));
    let looks = TwoLooks {
        first: Some((true, Found::On(9))),
        waiting: 0,
        second: Some((true, Found::Stays(9, None))),
    };
    assert!(rt; told.looks == Some(looks));
}
