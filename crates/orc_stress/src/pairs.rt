//! Pairs that agents published and read, when they did, and what is wrong with them.

use crate::order::Order;
use std::alloc::{AllocError, Global};
use std::sync::atomic::{AtomicU64, Ordering};

// Of how many calls of an agent the pairs are noted: the first ones.
const NOTED: u32 = 65_536;

/// The value that an agent gives in one of its calls: it names both, and is never 0.
pub fn value_of(agent: u32, call: u32) -> u64 {
    (u64::from(agent) << 32) | u64::from(call).wrapping_add(1)
}

// The pair that a call was answered by, and when it ended; 0 where it wasn't answered.
#[derive(Drop)]
struct Noted {
    left: AtomicU64,
    right: AtomicU64,
    ended: AtomicU64,
}

/// The pairs that agents' calls were answered by, each at the place of its call, with the time of a clock that all share, which goes
/// on by one with each call. Each agent writes its own places alone, and they are looked at once all are done.
#[derive(Drop)]
pub struct PairLog {
    // of how many agents, and of how many calls of each
    agents: u64,
    each: u64,
    clock: AtomicU64,
    calls: Vec<Noted>,
    // the values of one side, by the places of the calls that gave them, and no part behind them
    order: Order,
}

impl PairLog {
    /// A log for so many agents, which make so many calls each. The pairs of 65,536 calls of each are noted at most.
    ///
    /// # Errors
    ///
    /// Where memory is refused.
    pub fn new(alloc: Global, agents: u32, calls: u32) -> Result<PairLog, AllocError> {
        let (agents, each) = (u64::from(agents), u64::from(calls.min(NOTED)));
        let all = agents.wrapping_mul(each);
        let mut calls = Vec::new(alloc);
        for _ in 0..all {
            calls.push(Noted {
                left: AtomicU64::new(0),
                right: AtomicU64::new(0),
                ended: AtomicU64::new(0),
            })?;
        }
        Ok(PairLog {
            agents,
            each,
            clock: AtomicU64::new(1),
            calls,
            order: Order::new(alloc, all.wrapping_add(1), all.wrapping_add(2))?,
        })
    }

    // The place of a call, if it is noted.
    fn place(&self, agent: u64, call: u64) -> Option<usize> {
        if agent < self.agents && call < self.each {
            Some(agent.wrapping_mul(self.each).wrapping_add(call) as usize)
        } else {
            None
        }
    }

    /// Notes that a call ended, and the pair that it was answered by.
    pub fn note(&self, agent: u32, call: u32, pair: (u64, u64)) {
        let Some(place) = self.place(u64::from(agent), u64::from(call)) else {
            return;
        };
        if let Some(noted) = self.calls.get(place) {
            let now = self.clock.fetch_add(1, Ordering::SeqCst);
            noted.ended.store(now, Ordering::SeqCst);
            noted.left.store(pair.0, Ordering::SeqCst);
            noted.right.store(pair.1, Ordering::SeqCst);
        }
    }

    // The pair at a place; that of no part where nothing was noted.
    fn pair_at(&self, place: usize) -> (u64, u64) {
        match self.calls.get(place) {
            Some(noted) => (
                noted.left.load(Ordering::SeqCst),
                noted.right.load(Ordering::SeqCst),
            ),
            None => (0, 0),
        }
    }

    // When the call at a place ended, or 0 where nothing was noted.
    fn time_at(&self, place: usize) -> u64 {
        match self.calls.get(place) {
            Some(noted) => noted.ended.load(Ordering::SeqCst),
            None => 0,
        }
    }

    // Whether the call that gave this value was answered by the pair. A call that isn't noted may have been.
    fn gave(&self, value: u64, pair: (u64, u64)) -> bool {
        let (agent, number) = (value >> 32, value % 4_294_967_296);
        if value == 0 || number == 0 || agent >= self.agents {
            return false;
        }
        match self.place(agent, number - 1) {
            Some(place) => self.pair_at(place) == pair,
            None => true,
        }
    }

    // Whether a pair was published: by the call that gave one of its parts, the later one. A cell begins with no parts.
    fn was_published(&self, pair: (u64, u64)) -> bool {
        pair == (0, 0) || self.gave(pair.0, pair) || self.gave(pair.1, pair)
    }

    /// How many pairs are noted, but for those of no parts.
    pub fn noted(&self) -> u64 {
        let mut pairs: u64 = 0;
        for place in 0..self.calls.len() {
            if self.pair_at(place) != (0, 0) {
                pairs = pairs.wrapping_add(1);
            }
        }
        pairs
    }

    /// Whether each pair that is noted was published.
    pub fn all_published(&self) -> bool {
        for place in 0..self.calls.len() {
            if !self.was_published(self.pair_at(place)) {
                return false;
            }
        }
        true
    }

    // Tells the order that a call showed a part, which began and ended then, if the call that gave the part is noted.
    fn show(&self, part: u64, begun: u64, ended: u64) {
        let number = part % 4_294_967_296;
        let place = if part == 0 {
            Some(self.calls.len())
        } else if number == 0 {
            None
        } else {
            self.place(part >> 32, number - 1)
        };
        if let Some(place) = place {
            self.order.show(place, begun, ended);
        }
    }

    // Tells the order which parts of a side the agent's calls showed. Each began after the one before it had ended.
    fn show_all(&self, agent: u64, right: bool) {
        let mut begun: u64 = 1;
        for call in 0..self.each {
            let Some(place) = self.place(agent, call) else {
                return;
            };
            let (pair, ended) = (self.pair_at(place), self.time_at(place));
            if ended > 0 {
                self.show(if right { pair.1 } else { pair.0 }, begun, ended);
                begun = ended.wrapping_add(1);
            }
        }
    }

    // Whether the parts of a side can have stood there one after another, no part first and this one last.
    fn side_is_in_order(&self, last: u64, right: bool) -> bool {
        let now = self.clock.load(Ordering::SeqCst);
        self.order.clear();
        self.show(0, 0, 0);
        self.show(last, now, now);
        for agent in 0..self.agents {
            self.show_all(agent, right);
        }
        self.order.is_one()
    }

    /// Whether a pair that is left was published, and the parts of each side can have stood there one after another, that which is
    /// left last: none came before another and after it, as far as the times of calls tell.
    pub fn may_be_left(&self, pair: (u64, u64)) -> bool {
        self.was_published(pair)
            && self.side_is_in_order(pair.0, false)
            && self.side_is_in_order(pair.1, true)
    }
}
