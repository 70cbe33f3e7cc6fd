//! What an agent has seen by its own calls, and what it can say of an answer by that.

use crate::container::Outcome;
use crate::load::{Ask, Plan};

// Of a hundred keys twelve or thirteen are of one agent alone: each eighth from 1 on. They aren't put in before the calls.
const EACH: u64 = 8;

const FIRST: u64 = 1;

// How many keys an agent has of its own at most: as many as there are bits for.
const MOST: u64 = 1024;

// The keys that one agent alone inserts and removes, and which of them are in.
#[derive(Clone, Copy)]
pub(crate) struct Own {
    agent: u64,
    agents: u64,
    are_in: [u64; 16],
}

impl Own {
    // Those of an agent, none of which is in.
    pub(crate) fn new(agent: u32, plan: &Plan) -> Own {
        Own {
            agent: u64::from(agent),
            agents: u64::from(plan.threads.max(1)),
            are_in: [0; 16],
        }
    }

    // Whose own the key is, and its number among those; None where it is nobody's.
    fn owner(&self, key: u64) -> Option<(u64, u64)> {
        let number = key / EACH;
        let agents = self.agents.max(1);
        if key % EACH == FIRST && number / agents < MOST {
            Some((number % agents, number / agents))
        } else {
            None
        }
    }

    // The key, or where it is another agent's own, the agent's own one beside it or else the next smaller one; or the key before it,
    // which is nobody's own, where there is none.
    pub(crate) fn may_use(&self, key: u64) -> u64 {
        let (owner, place) = match self.owner(key) {
            Some((owner, place)) if owner != self.agent => (owner, place),
            _ => return key,
        };
        if self.agent < owner {
            self.key_at(place)
        } else if place > 0 {
            self.key_at(place - 1)
        } else {
            key.wrapping_sub(1)
        }
    }

    // The agent's own key of this number among its own.
    fn key_at(&self, place: u64) -> u64 {
        place
            .wrapping_mul(self.agents)
            .wrapping_add(self.agent)
            .wrapping_mul(EACH)
            .wrapping_add(FIRST)
    }

    // The number of the key that a call of a set names, among the agent's own.
    fn place_of(&self, ask: &Ask) -> Option<u64> {
        let (owner, place) = self.owner(ask.key()?)?;
        if owner == self.agent {
            Some(place)
        } else {
            None
        }
    }

    // Whether an answer about a key of its own is the one that the agent's calls before this one have left; that of a queue's or a
    // cell's call is about none. A refused call has changed nothing.
    pub(crate) fn is_true(&mut self, ask: &Ask, outcome: &Outcome) -> bool {
        let Some(place) = self.place_of(ask) else {
            return true;
        };
        let bit = 1 << (place % 64);
        let word = &mut self.are_in[(place / 64 % 16) as usize];
        let was_in = *word & bit != 0;
        match outcome {
            Outcome::Inserted(_) => *word |= bit,
            Outcome::Removed(_) => *word &= !bit,
            _ => {}
        }
        answers(ask, was_in, outcome)
    }
}

// Whether a call with a key that is in, or isn't, can have this outcome.
fn answers(ask: &Ask, was_in: bool, outcome: &Outcome) -> bool {
    match outcome {
        Outcome::Inserted(key) => !was_in && ask.gives() && ask.key() == Some(*key),
        Outcome::Removed(key) => was_in && ask.takes() && ask.key() == Some(*key),
        Outcome::Found => was_in && !ask.gives() && !ask.takes(),
        Outcome::Unchanged => was_in == ask.gives(),
        Outcome::Refused(_) | Outcome::Put(..) | Outcome::Taken(..) | Outcome::Empty => true,
        Outcome::Published(..) | Outcome::Saw(..) => false,
    }
}

// What one agent put into a queue and took from it last, and its own keys of a set.
#[derive(Clone, Copy)]
pub(crate) struct Seen {
    // of each producer the number of its job, plus one
    numbers: [u64; 16],
    // the position behind the one that was taken last
    taken: u64,
    // the position behind the one that was put last
    put: u64,
    pub(crate) own: Own,
}

impl Seen {
    // Nothing yet.
    pub(crate) fn new(agent: u32, plan: &Plan) -> Seen {
        Seen {
            numbers: [0; 16],
            taken: 0,
            put: 0,
            own: Own::new(agent, plan),
        }
    }

    // Whether a job that was put has its position behind the agent's others, and one that was taken behind those that the agent
    // took before, and of its producer those come later that were put later. Each producer's positions rise, so all takers take
    // its jobs in its order.
    pub(crate) fn follows(&mut self, outcome: &Outcome) -> bool {
        match outcome {
            Outcome::Put(_, at) => {
                let follows = *at >= self.put;
                self.put = at.wrapping_add(1);
                follows
            }
            Outcome::Taken(job, at) => {
                let producer = ((job >> 32) % 16) as usize;
                let number = (job % 4_294_967_296) + 1;
                let follows = number > self.numbers[producer] && *at >= self.taken;
                self.numbers[producer] = number;
                self.taken = at.wrapping_add(1);
                follows
            }
            _ => true,
        }
    }
}
