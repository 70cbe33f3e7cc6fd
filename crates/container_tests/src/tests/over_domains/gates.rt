//! That a gate is called ahead of each line and of each take, which no contract says: containers count the calls that have begun, and a
//! gate judges its own by them.

use super::watched::{Call, Watch, run_watched};
use orc_board::Gate;
use orc_chain_rule::Chain;
use orc_containers::{Domain, Unmade};
use orc_fifo_rule::Fifo;
use std::alloc::Global;
use std::sync::Wait;
use std::sync::atomic::{AtomicU64, Ordering};
use std::thread::Threads;

// Poster 1 has four of these records, and poster 2 three. Each makes one call of the set, since no post is refused.
const SEVEN_RECORDS: &[u8] =
    b"post,0,bytes,x\npost,1,bytes,x\ndrop,0\npost,2,bytes,x\nrush,3,bytes,x\ndrop,3\npost,4,bytes,x\n";

// For each of four agents, how many calls it made.
#[derive(Drop)]
struct Counts {
    calls: [AtomicU64; 4],
}

impl Counts {
    fn new() -> Counts {
        Counts {
            calls: [
                AtomicU64::new(0),
                AtomicU64::new(0),
                AtomicU64::new(0),
                AtomicU64::new(0),
            ],
        }
    }

    // Counts one more, and answers how many there were; of another agent as many as there can't be.
    fn add(&self, agent: u32) -> u64 {
        match self.calls.get(agent as usize) {
            Some(calls) => calls.fetch_add(1, Ordering::SeqCst),
            None => u64::MAX,
        }
    }

    fn of(&self, agent: u32) -> u64 {
        match self.calls.get(agent as usize) {
            Some(calls) => calls.load(Ordering::SeqCst),
            None => u64::MAX,
        }
    }
}

// Counts the calls of a container as they begin.
impl Watch for Counts {
    fn before(&self, agent: u32, _call: Call) {
        let _earlier = self.add(agent);
    }

    fn after(&self, _call: Call) {}
}

// A poster's line begins with a call of the set, and a take with one of the rush queue.
#[derive(Drop)]
struct Begun {
    set: Counts,
    queue: Counts,
    rush: Counts,
}

impl Begun {
    // How many lines this poster has begun, or how many takes another agent has.
    fn works_of(&self, agent: u32) -> u64 {
        match agent {
            1 | 2 => self.set.of(agent),
            _ => self.rush.of(agent),
        }
    }
}

// A gate that counts which of its calls have another number than the next, or than that of the lines or takes that have begun.
#[derive(Drop)]
struct Judge<'a> {
    begun: &'a Begun,
    calls: Counts,
    wrong: AtomicU64,
}

impl Gate for Judge<'_> {
    fn before(&self, worker: u32, call: u64) {
        if self.calls.add(worker) != call || self.begun.works_of(worker) != call {
            self.wrong.fetch_add(1, Ordering::SeqCst);
        }
    }
}

impl Judge<'_> {
    // How many of the gate's calls were for this agent; none where it began another number of lines or takes.
    fn calls_of(&self, agent: u32) -> Option<u64> {
        let calls = self.calls.of(agent);
        if calls == self.begun.works_of(agent) {
            Some(calls)
        } else {
            None
        }
    }

    // Whether each line of both posters was begun, and a take by both others, and no call was wrong.
    fn was_called(&self) -> bool {
        let posters = (self.calls_of(1), self.calls_of(2));
        let takers = (self.calls_of(0), self.calls_of(3));
        posters == (Some(4), Some(3))
            && takers.0.is_some_and(|calls| calls >= 1)
            && takers.1.is_some_and(|calls| calls >= 1)
            && self.wrong.load(Ordering::SeqCst) == 0
    }
}

// Whether a gate is called so in a run by two posters and one taker, in which each line is begun and all five posts are taken.
pub(super) fn judges_a_run<
    R: Threads + Wait + Sync,
    F: Domain<Rule = Fifo> + Sync + Drop,
    C: Domain<Rule = Chain> + Sync + Drop,
>(rt: &R, alloc: Global) -> Result<bool, Unmade>
where
    F::Pass: Send,
    C::Pass: Send,
{
    let begun = Begun {
        set: Counts::new(),
        queue: Counts::new(),
        rush: Counts::new(),
    };
    let gate = Judge {
        begun: &begun,
        calls: Counts::new(),
        wrong: AtomicU64::new(0),
    };
    let watches = (&begun.queue, &begun.rush, &begun.set);
    let (_, replies) = run_watched::<R, F, C, _, _, _>(
        rt,
        alloc,
        SEVEN_RECORDS,
        2,
        1,
        watches,
        &gate,
    )?;
    let takes = replies.takes.len();
    Ok(takes == 5 && gate.was_called())
}
