//! Keys in order in one piece, without a lock, on one thread: what a list and a set are measured against.

ghost use Rattle.std.specs.Prelude.{◌≡◌, ◌*◌, ◌≤◌, IfOk, length};
ghost use Rattle.orc_stress.specs.Answers.{calls_of};

use crate::runs::{Resting, drive_to_rest};
use orc_fault::NoMemory;
use orc_stress::{Answer, Ask, Container, Counts, Driven, Outcome, Plan};
use std::alloc::Global;
use std::collections::VecDeque;
use std::thread::Threads;
use std::time::{Clock, Instant};

// A set whose keys lie in its one pass.
#[derive(Drop)]
struct Sorted {}

// The keys in order, and how many were inserted and removed.
#[derive(Drop)]
struct Keys {
    keys: VecDeque<u64>,
    inserted: u64,
    removed: u64,
}

impl Keys {
    // Inserts a key where it belongs, unless it is there.
    fn insert(&mut self, key: u64) -> Outcome {
        let Err(at) = self.keys.binary_search(&key) else {
            return Outcome::Unchanged;
        };
        if self.keys.insert(at, key).is_err() {
            return Outcome::Refused(Answer::NoNode);
        }
        self.inserted = self.inserted.wrapping_add(1);
        Outcome::Inserted(key)
    }

    // Removes a key, if it is there.
    fn remove(&mut self, key: u64) -> Outcome {
        let Ok(at) = self.keys.binary_search(&key) else {
            return Outcome::Unchanged;
        };
        match self.keys.remove(at) {
            Some(found) => {
                self.removed = self.removed.wrapping_add(1);
                Outcome::Removed(found)
            }
            None => Outcome::Unchanged,
        }
    }

    // Asks for a key.
    fn find(&self, key: u64) -> Outcome {
        match self.keys.binary_search(&key) {
            Ok(_) => Outcome::Found,
            Err(_) => Outcome::Unchanged,
        }
    }

    // The keys that came in, those that went out, and those that are left.
    fn counts(&self) -> Counts {
        Counts {
            given: self.inserted,
            reused: self.removed,
            linked: u32::try_from(self.keys.len()).unwrap_or(u32::MAX),
        }
    }
}

impl Container for Sorted {
    type Pass = Keys;

    type Hold = ();

    ghost ready = { λ c p. Unit {0} };

    ghost agent_of = { λ c p. 0 };

    ghost stopped = { λ c hold p. Unit {0} };

    fn agent(&self, _p: &Keys) -> u32 {
        0
    }

    fn call(&self, p: &mut Keys, ask: &Ask) -> Outcome {
        match ask {
            Ask::Give(key) | Ask::GiveAndStop(key) => p.insert(*key),
            Ask::Take(key) | Ask::TakeAndStop(key) => p.remove(*key),
            Ask::Read(key) => p.find(*key),
            _ => Outcome::Unchanged,
        }
    }

    fn backlog(&self, _p: &Keys) -> u32 {
        0
    }

    fn stop(&self, _p: &mut Keys) -> ((), Outcome) {
        ((), Outcome::Unchanged)
    }

    fn go_on(&self, _p: &mut Keys, _hold: ()) -> u32 {
        0
    }
}

impl Resting for Sorted {
    ghost agents = { λ c. 1 };

    fn rest(self, passes: Vec<Keys>) -> Counts
        requires { length passes.items ≡ 1 }
    {
        let Some(keys) = passes.first() else {
            unreachable!()
        };
        keys.counts()
    }
}

// Drives such a set.
pub(crate) fn run_sorted<R: Threads + Clock + Sync>(
    rt: &R,
    alloc: Global,
    plan: &Plan,
    instant: Instant,
) -> Result<(Driven, Counts), NoMemory>
    requires { plan.now.threads ≤ 1 }
    ensures { IfOk result (λ r. calls_of r.0.tally.answers ≡ plan.now.threads * plan.now.load.calls) }
{
    let keys = Keys {
        keys: VecDeque::new(alloc),
        inserted: 0,
        removed: 0,
    };
    let passes = vec![in alloc; keys]?;
    drive_to_rest(rt, alloc, plan, instant, Sorted {}, passes)
}
