//! A set that doubles its buckets, from its making to its rest.

ghost use Rattle.std.specs.Prelude.{◌≡◌, ◌+◌, IfSome};
ghost use Rattle.orc_heap.specs.Domains.{agent};
ghost use Rattle.orc_split_set.specs.SetCalls.{IsUsable};

use crate::asking::{SetCase, set_answers};
use orc_containers::{Domain, RowCounts, Unmade, new_split_set, split_set_at_rest};
use orc_heap::Links;
use orc_history::SharedSet;
use orc_split_rule::Split;
use orc_split_set::SplitSet;
use std::alloc::Global;

/// What one agent found in a new set: how many keys were added, how many buckets there were then, how many of twice as many keys
/// were present, how many were taken out, and how many were present then.
#[derive(Clone, Copy, PartialEq, Eq, Drop)]
pub struct Doubling {
    pub added: u64,
    pub buckets: Option<u32>,
    pub found: u64,
    pub taken_out: u64,
    pub left: u64,
}

// What each of the keys below a number is called with.
#[derive(Clone, Copy, Drop)]
enum KeyCall {
    Insert,
    Contains,
    Remove,
}

// The call with this key, which is to be answered by yes.
fn yes(call: KeyCall, key: u64) -> SetCase {
    match call {
        KeyCall::Insert => SetCase::Insert(key, Ok(true)),
        KeyCall::Contains => SetCase::Contains(key, Ok(true)),
        KeyCall::Remove => SetCase::Remove(key, Ok(true)),
    }
}

// With how many of the keys below this one it is.
fn yeses<S: SharedSet>(set: &S, p: &mut S::Pass, call: KeyCall, end: u64) -> u64
    requires { S.usable set.now p.old }
    ensures usable { S.usable set.now p.new }
    ensures agent { S.agent_of set.now p.new ≡ S.agent_of set.now p.old }
{
    let mut yeses: u64 = 0;
    for key in 0..end {
        yeses = yeses.wrapping_add(u64::from(set_answers(set, p, 2, &yes(call, key))));
    }
    yeses
}

// Puts so many keys in, one after another, asks for twice as many, and takes them out.
fn fill_and_empty<L: Links<Rule = Split>>(set: &SplitSet<L>, p: &mut L::Pass, keys: u32) -> Doubling
    requires { IsUsable L.Links set.now.links p.old }
    ensures usable { IsUsable L.Links set.now.links p.new }
    ensures agent { agent L.Links set.now.links p.new ≡ agent L.Links set.now.links p.old }
{
    let end = u64::from(keys);
    let added = yeses(set, p, KeyCall::Insert, end);
    let buckets = set.size(p, 2).ok();
    let found = yeses(set, p, KeyCall::Contains, 2 * end);
    let taken_out = yeses(set, p, KeyCall::Remove, end);
    let left = yeses(set, p, KeyCall::Contains, end);
    Doubling {
        added,
        buckets,
        found,
        taken_out,
        left,
    }
}

/// Lets the one agent of a new set of at most four buckets do so with so many keys, and brings the set to rest. None where the set
/// isn't made.
pub fn doubles_and_rests<L: Domain<Rule = Split> + Drop>(
    alloc: Global,
    rows: u32,
    keys: u32,
) -> Option<(Doubling, RowCounts)>
    ensures balance { IfSome result (λ told. told.1.given ≡ told.1.reused + told.1.linked) }
{
    let Ok((set, mut passes)) = new_split_set::<L>(alloc, rows, 1, 4) else {
        return None;
    };
    let mut p = passes.pop()?;
    let doubling = fill_and_empty(&set, &mut p, keys);
    passes.push(p).ok()?;
    let rest = split_set_at_rest(set, passes);
    Some((doubling, L::counts(&rest)))
}
