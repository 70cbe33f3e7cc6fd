//! Over the domain whose rows are reclaimed.

ghost use Rattle.std.specs.Prelude.{IfSome};
ghost use Rattle.orc_any_domain.specs.Domains.{IsIdlePass};

use super::moving::{Change, Found};
use super::nodes::held_meanwhile;
use super::rests::{
    TwoLooks, gives_and_rests, links_and_rests, looks_beside_a_reuse, looks_twice, reuses,
    two_rows_and_a_node,
};
use orc_any_domain::{Domain, RowCounts};
use orc_domain::{OrcDomain, OrcPass};
use orc_heap::{AnyFit, Links};
use orc_plain_domain::twins::Twins;
use std::alloc::Global;
use std::thread::Threads;

// Whether all links of two nodes came about, and how many rows were given, reused and linked at rest, which ends in its last words.
fn links_and_closes(alloc: Global) -> Option<(bool, (u64, u64, u32))> {
    let (linked, rest) = links_and_rests::<OrcDomain<Twins>>(alloc)?;
    let counts = (rest.given(), rest.reused(), rest.linked());
    let _words = rest.close();
    Some((linked, counts))
}

// At rest both rows have been freed: the second one's two links were counted twice for the first, and both were taken out.
#[test]
fn both_links_of_a_freed_row_are_taken_out(rt: HostRuntime) {
    assert_eq!(rt; links_and_closes(rt.alloc()), Some((true, (2, 2, 0))));
}

// What is told over a domain that reclaims its rows: of three nodes that were released; of rows that were reused, the first value, and
// whether all others were seen and the two agents learned; of looks by a hold, and of looks beside a reuse.
#[derive(Drop)]
struct Reclaimed {
    gives: Option<(bool, RowCounts)>,
    reuses: Option<(Option<u64>, bool, bool)>,
    looks: Option<TwoLooks>,
    beside: Option<(bool, bool)>,
}

// What is told, and a domain in which one held a node while the other agent used rows again, the pass of the one, and what it saw.
fn over_reclaimed_rows<R: Threads + Sync, L: Domain<Rule = AnyFit> + Sync + Drop>(
    rt: &R,
    alloc: Global,
) -> (Reclaimed, Option<(L, L::Pass, Option<(u64, u64, bool)>)>)
where
    L::Pass: Send,
    ensures idle { IfSome result.1 (λ held. IsIdlePass L.Links held.0 held.1) }
{
    let told = Reclaimed {
        gives: gives_and_rests::<L>(alloc, 3),
        reuses: reuses::<L>(alloc),
        looks: looks_twice::<L>(alloc, Change::Mark),
        beside: looks_beside_a_reuse::<R, L>(rt, alloc),
    };
    (told, holds_meanwhile::<L>(alloc))
}

// One agent of a new domain holds a node while the other one unlinks it and gives two more. Answers the domain, the pass of the one,
// and what it saw.
fn holds_meanwhile<L: Domain<Rule = AnyFit> + Drop>(
    alloc: Global,
) -> Option<(L, L::Pass, Option<(u64, u64, bool)>)>
    ensures idle { IfSome result (λ held. IsIdlePass L.Links held.0 held.1) }
{
    let (domain, mut one, mut two) = two_rows_and_a_node::<L>(alloc)?;
    let seen = held_meanwhile(&domain, &mut one, &mut two);
    Some((domain, one, seen))
}

// What is told, and what came of the one.
fn told_and_drained<R: Threads + Sync>(
    rt: &R,
    alloc: Global,
) -> (Reclaimed, Option<(Option<(u64, u64, bool)>, u32, u32)>) {
    let (told, held) = over_reclaimed_rows::<R, OrcDomain<AnyFit>>(rt, alloc);
    (told, drained(held))
}

// What the one saw, and how many rows it had in hand before it drained, and then.
fn drained(
    held: Option<(OrcDomain<AnyFit>, OrcPass<AnyFit>, Option<(u64, u64, bool)>)>,
) -> Option<(Option<(u64, u64, bool)>, u32, u32)>
    requires idle { IfSome held (λ held. IsIdlePass ⟦<OrcDomain<AnyFit> as Links>⟧ held.0 held.1) }
{
    let (domain, mut one, seen) = held?;
    let waiting = domain.backlog(&one);
    domain.drain(&mut one);
    Some((seen, waiting, domain.backlog(&one)))
}

// Both rows are given, and released unlinked. No third is had while they wait; at rest both have been freed, and none is out.
// Two rows serve five nodes in turn, and each is seen with its own value. A hold moves on to another node, and the row that it gave up
// was handed over beside its slot, and is taken in at the release; it stays where the link has a mark. The row that one holds stays its
// node while the other uses the other row twice, and is handed over to it.
#[test]
fn rows_are_used_again_and_a_hold_moves_on_or_keeps_its_values(rt: HostRuntime) {
    let (told, drained) = told_and_drained(&rt, rt.alloc());
    let counts = RowCounts {
        given: 2,
        reused: 2,
        linked: 0,
    };
    assert_eq!(rt; told.gives, Some((true, counts)));
    assert_eq!(rt; told.reuses, Some((Some(8), true, true)));
    let looks = TwoLooks {
        first: Some((true, Found::On(9))),
        waiting: 1,
        second: Some((true, Found::Stays(9, Some(9)))),
    };
    assert!(rt; told.looks == Some(looks));
    assert_eq!(rt; told.beside, Some((true, true)));
    assert_eq!(rt; drained, Some((Some((8, 8, true)), 1, 0)));
}
