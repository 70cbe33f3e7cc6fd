//! The calls of agents at once, each in a thread of its own, over any domain.

ghost use Rattle.std.specs.Prelude.{◌≡◌, All, length};
ghost use Rattle.orc_split_set.specs.SetCalls.{IsUsable};

use super::calls::next_pass;
use orc_containers::{Domain, new_split_set};
use orc_heap::Links;
use orc_history::SharedSet;
use orc_split_rule::Split;
use orc_split_set::SplitSet;
use std::alloc::Global;
use std::sync::atomic::{AtomicU64, Ordering};
use std::thread::{Threads, for_each_mut};

// How many keys each of four agents inserts.
const OWN_KEYS: u64 = 2_500;

// What the calls of all agents came to, added up.
#[derive(Drop)]
struct Sums {
    added: AtomicU64,
    found: AtomicU64,
    fell: AtomicU64,
}

impl Sums {
    // No call was made yet.
    fn new() -> Sums {
        Sums {
            added: AtomicU64::new(0),
            found: AtomicU64::new(0),
            fell: AtomicU64::new(0),
        }
    }

    // What they came to, and the number of buckets then.
    fn told(&self, buckets: u32) -> Told {
        Told {
            added: self.added.load(Ordering::SeqCst),
            found: self.found.load(Ordering::SeqCst),
            fell: self.fell.load(Ordering::SeqCst),
            buckets,
        }
    }
}

/// How many keys were added, how many were found right afterwards, how often the number of buckets fell, and that number then.
#[derive(PartialEq, Drop)]
pub struct Told {
    pub added: u64,
    pub found: u64,
    pub fell: u64,
    pub buckets: u32,
}

/// All keys were, and there are as many buckets as there may be.
pub const ALL: Told = Told {
    added: 4 * OWN_KEYS,
    found: 4 * OWN_KEYS,
    fell: 0,
    buckets: 256,
};

// Inserts the agent's own keys and asks for each, and reads the number of buckets.
fn insert_own<L: Links<Rule = Split>>(set: &SplitSet<L>, p: &mut L::Pass, agent: u64, sums: &Sums)
    requires usable { IsUsable L.Links set.now.links p.old }
    ensures usable { IsUsable L.Links set.now.links p.new }
{
    let mut buckets: u32 = 0;
    for round in 0..OWN_KEYS {
        let key = round.wrapping_mul(4).wrapping_add(agent);
        if set.insert(p, key, u64::MAX) == Ok(true) {
            sums.added.fetch_add(1, Ordering::SeqCst);
        }
        if set.contains(p, key, u64::MAX) == Ok(true) {
            sums.found.fetch_add(1, Ordering::SeqCst);
        }
        if let Ok(now) = set.size(p, u64::MAX) {
            if now < buckets {
                sums.fell.fetch_add(1, Ordering::SeqCst);
            }
            buckets = now;
        }
    }
}

// Each agent inserts own keys, in a thread of its own.
fn insert_by_all<R: Threads + Sync, L: Links<Rule = Split>>(
    rt: &R,
    set: &SplitSet<L>,
    passes: &mut [L::Pass],
    sums: &Sums,
)
where
    L: Sync,
    L::Pass: Send,
    requires usable { All (λ p. IsUsable L.Links set.now.links p) passes.old }
    ensures usable { All (λ p. IsUsable L.Links set.now.links p) passes.new }
    ensures many { length passes.new ≡ length passes.old }
{
    let calls = move |agent: usize, p: &mut L::Pass|
        requires { IsUsable L.Links set.now.links p.old }
        ensures { IsUsable L.Links set.entry.now.links p.new }
    { insert_own(set, p, agent as u64, sums) };
    for_each_mut(rt, passes, 16, &calls);
}

// All agents do so. Answers the number of buckets then.
fn double_by_all<R: Threads + Sync, L: Links<Rule = Split>>(
    rt: &R,
    set: &SplitSet<L>,
    passes: &mut Vec<L::Pass>,
    sums: &Sums,
) -> Option<u32>
where
    L: Sync,
    L::Pass: Send,
    requires usable { All (λ p. IsUsable L.Links set.now.links p) passes.old.items }
{
    insert_by_all(rt, set, passes.as_mut_slice(), sums);
    let mut p = next_pass(set, passes)?;
    set.size(&mut p, 2).ok()
}

/// Lets the four agents of a new set do so.
pub fn four_double<R: Threads + Sync, L: Domain<Rule = Split> + Drop>(
    rt: &R,
    alloc: Global,
) -> Option<Told>
where
    L: Sync,
    L::Pass: Send,
{
    let Ok((set, mut passes)) = new_split_set::<L>(alloc, 16_384, 4, 256) else {
        return None;
    };
    let sums = Sums::new();
    let buckets = double_by_all(rt, &set, &mut passes, &sums)?;
    Some(sums.told(buckets))
}
