//! Domains of any kind that are made, called and brought to rest, and what they tell.

ghost use Rattle.std.specs.Prelude.{◌≡◌, ◌<◌, [], All, IfSome, List, length};
ghost use Rattle.orc_any_domain.specs.Domains.{IsIdlePass, heap_numbers};
ghost use Rattle.orc_shared_words.specs.Lists.{EachAt};
ghost use Rattle.orc_words.specs.Bounds.{bounds_of};

use super::calls::first_links;
use super::moving::{Change, Found, look_after};
use super::nodes::{
    first_gives, learn_both, on_two_threads, sees_each, value_at_root, with_a_node,
};
use orc_any_domain::{Domain, RowCounts};
use orc_heap::{AnyFit, Links, Seed};
use orc_plain_domain::twins::Twins;
use orc_words::Shape;
use std::alloc::Global;
use std::thread::Threads;

// A new domain of this shape, and its passes.
fn new_domain<L: Domain + Drop>(alloc: Global, shape: &Shape) -> Option<(L, Vec<L::Pass>)>
    requires { L.Rule.holds (heap_numbers (bounds_of shape.now)) [] }
    ensures numbers { IfSome result (λ made. L.numbers made.0 ≡ heap_numbers (bounds_of shape.now)) }
    ensures order { IfSome result (λ made. EachAt (λ i p. (L.seat made.0 p).agent ≡ i) made.1.items) }
    ensures idle { IfSome result (λ made. All (IsIdlePass L.Links made.0) made.1.items) }
    ensures many { IfSome result (λ made. length made.1.items ≡ L.agents made.0) }
{
    match L::make(alloc, shape, Seed::Empty) {
        Ok(made) => Some(made),
        Err(_) => None,
    }
}

// A domain of two rows and a root, and its passes.
fn two_rows<L: Domain<Rule = AnyFit> + Drop>(
    alloc: Global,
    agents: u32,
) -> Option<(L, Vec<L::Pass>)>
    ensures roots { IfSome result (λ made. 0 < (L.numbers made.0).roots) }
    ensures order { IfSome result (λ made. EachAt (λ i p. (L.seat made.0 p).agent ≡ i) made.1.items) }
    ensures idle { IfSome result (λ made. All (IsIdlePass L.Links made.0) made.1.items) }
    ensures many { IfSome result (λ made. length made.1.items ≡ L.agents made.0) }
{
    let Ok(shape) = Shape::new(2, 1, agents, 8) else {
        return None;
    };
    let made = new_domain::<L>(alloc, &shape)?;
    Some(made)
}

// Makes a domain of two rows for two agents, and links a node with value 8 from its root. Answers the domain, the pass of the other
// agent, and that of the one that linked it.
pub fn two_rows_and_a_node<L: Domain<Rule = AnyFit> + Drop>(
    alloc: Global,
) -> Option<(L, L::Pass, L::Pass)>
    ensures idle { IfSome result (λ made. IsIdlePass L.Links made.0 made.1 × IsIdlePass L.Links made.0 made.2) }
    ensures roots { IfSome result (λ made. 0 < (L.numbers made.0).roots) }
{
    let (domain, passes) = two_rows::<L>(alloc, 2)?;
    let (one, two) = with_a_node(&domain, passes)?;
    Some((domain, one, two))
}

// Lets the first of so many agents give a node three times, each of which it releases, and brings the domain to rest. Answers whether
// two were given while root 0 was null, and no third, and the counts of the rows.
pub fn gives_and_rests<L: Domain<Rule = AnyFit> + Drop>(
    alloc: Global,
    agents: u32,
) -> Option<(bool, RowCounts)> {
    let (domain, mut passes) = two_rows::<L>(alloc, agents)?;
    let given = [
        first_gives(&domain, passes.as_mut_slice()),
        first_gives(&domain, passes.as_mut_slice()),
        first_gives(&domain, passes.as_mut_slice()),
    ];
    let rest = domain.end(passes);
    let two = [Some((9, true)), Some((9, true)), None];
    Some((given == two, L::counts(&rest)))
}

// Lets the one agent of a domain whose nodes have two links link nodes to each other, and brings it to rest. Answers whether all that
// came about, and the domain at rest.
pub fn links_and_rests<L: Domain<Rule = Twins> + Drop>(alloc: Global) -> Option<(bool, L::Rest)>
    ensures rests { IfSome result (λ made. (domain : L) × ((passes : List L.Pass) × L.rests domain passes made.1)) }
{
    let Ok(shape) = Shape::with_links(4, 1, 1, 8, 2) else {
        return None;
    };
    let (domain, mut passes) = new_domain::<L>(alloc, &shape)?;
    let linked = first_links(&domain, passes.as_mut_slice());
    let rest = domain.end(passes);
    Some((linked, rest))
}

// One agent replaces the node four times, and the other sees each; then they learn from each other. Answers the first node's value,
// whether each was seen, and whether they are two agents.
pub fn reuses<L: Domain<Rule = AnyFit> + Drop>(alloc: Global) -> Option<(Option<u64>, bool, bool)> {
    let (domain, mut one, mut two) = two_rows_and_a_node::<L>(alloc)?;
    let first = value_at_root(&domain, &mut one);
    let each = sees_each(&domain, &mut two, &mut one, &[9, 10, 11, 12]);
    let learned = learn_both(&domain, &mut one, &mut two);
    Some((first, each, learned))
}

/// What two looks by a hold that may move on found, and how many rows the pass had to work through after the first.
#[derive(Clone, Copy, PartialEq, Eq, Drop)]
pub struct TwoLooks {
    pub first: Option<(bool, Found)>,
    pub waiting: u32,
    pub second: Option<(bool, Found)>,
}

// One agent looks by a hold after the other has replaced the node, and again after it has made this change.
pub fn looks_twice<L: Domain<Rule = AnyFit> + Drop>(
    alloc: Global,
    change: Change,
) -> Option<TwoLooks> {
    let (domain, mut one, mut two) = two_rows_and_a_node::<L>(alloc)?;
    let first = look_after(&domain, &mut one, &mut two, Change::Replace);
    let waiting = domain.backlog(&one);
    domain.settle(&mut one);
    let second = look_after(&domain, &mut one, &mut two, change);
    Some(TwoLooks {
        first,
        waiting,
        second,
    })
}

// One agent looks at the root while the other replaces the node, each in a thread of its own.
pub fn looks_beside_a_reuse<R: Threads + Sync, L: Domain<Rule = AnyFit> + Sync + Drop>(
    rt: &R,
    alloc: Global,
) -> Option<(bool, bool)>
where
    L::Pass: Send,
{
    let (domain, mut one, mut two) = two_rows_and_a_node::<L>(alloc)?;
    Some(on_two_threads(rt, &domain, &mut one, &mut two))
}
