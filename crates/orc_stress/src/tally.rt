//! What calls answered, and what they put in and took out.

ghost use Rattle.std.specs.Prelude.{◌≡◌, ◌+◌, ◌<◌, ◌^◌};
ghost use Rattle.orc_stress.specs.Answers.{calls_of, counted, summed};

use crate::container::Outcome;
use crate::load::Ask;
use crate::seen::Seen;

/// How a call ended: by an answer, one that there was no job to take among them apart, or refused. `Again`: its turns were used
/// up; `NoNode`: no row was left; `Spent`: a row was linked too often; `Positions`: a queue's positions were used up.
#[derive(Clone, Copy)]
pub enum Answer {
    Ok,
    Empty,
    Again,
    NoNode,
    Spent,
    Positions,
}

// How many calls ended so.
#[derive(Clone, Copy)]
pub struct Answers {
    pub(crate) ok: u64,
    pub(crate) empty: u64,
    pub(crate) again: u64,
    pub(crate) no_node: u64,
    pub(crate) spent: u64,
    pub(crate) positions: u64,
}

impl Answers {
    // No call.
    pub(crate) fn new() -> Answers
        ensures { calls_of result ≡ 0 }
    {
        Answers {
            ok: 0,
            empty: 0,
            again: 0,
            no_node: 0,
            spent: 0,
            positions: 0,
        }
    }

    // Counts one call more.
    pub(crate) fn count(&mut self, answer: Answer)
        requires { calls_of self.old + 1 < 2 ^ 64 }
        ensures { self.new ≡ counted answer self.old }
    {
        match answer {
            Answer::Ok => self.ok += 1,
            Answer::Empty => self.empty += 1,
            Answer::Again => self.again += 1,
            Answer::NoNode => self.no_node += 1,
            Answer::Spent => self.spent += 1,
            Answer::Positions => self.positions += 1,
        }
    }

    // Counts the calls of another agent too.
    pub(crate) fn add(&mut self, other: &Answers)
        requires { calls_of self.old + calls_of other.now < 2 ^ 64 }
        ensures { self.new ≡ summed self.old other.now }
    {
        self.ok += other.ok;
        self.empty += other.empty;
        self.again += other.again;
        self.no_node += other.no_node;
        self.spent += other.spent;
        self.positions += other.positions;
    }
}

// Items, each with a place: how many, and a sum over all, which differs where one differs, but for chance.
#[derive(Clone, Copy, PartialEq, Eq)]
pub struct Items {
    pub(crate) count: u64,
    sum: u64,
}

impl Items {
    // None.
    pub(crate) fn new() -> Items {
        Items { count: 0, sum: 0 }
    }

    // The numbers below this one.
    pub(crate) fn below(count: u64) -> Items {
        let mut items = Items::new();
        for number in 0..count {
            items.add(number, 0);
        }
        items
    }

    // One item more.
    pub(crate) fn add(&mut self, item: u64, place: u64) {
        self.count = self.count.wrapping_add(1);
        self.sum = self.sum.wrapping_add(scramble(item ^ scramble(place)));
    }

    // All items of another agent too.
    pub(crate) fn join(&mut self, other: &Items) {
        self.count = self.count.wrapping_add(other.count);
        self.sum = self.sum.wrapping_add(other.sum);
    }
}

// A number that differs from item to item in all bits (the last steps of SplitMix64; Steele, Lea and Flood 2014).
fn scramble(item: u64) -> u64 {
    let one = (item ^ (item >> 30)).wrapping_mul(0xbf58_476d_1ce4_e5b9);
    let two = (one ^ (one >> 27)).wrapping_mul(0x94d0_49bb_1331_11eb);
    two ^ (two >> 31)
}

// What the calls of agents came to.
#[derive(Clone, Copy)]
pub struct Tally {
    pub(crate) answers: Answers,
    pub(crate) put: Items,
    pub(crate) taken: Items,
    // the positions of the jobs that were put
    pub(crate) places: Items,
    // how many jobs or keys weren't taken in, since the call was refused
    pub(crate) unput: u64,
    // whether each agent put and took jobs in the order of their positions, and took those of a producer in its order
    pub(crate) in_order: bool,
    // whether each answer about a key of the agent's own was what its calls had left
    pub(crate) is_true: bool,
    // whether all agents had come before the calls began
    pub(crate) all_came: bool,
    // the most retired rows that a pass had in hand after a call, or that waited for a stopped agent
    pub(crate) backlog: u32,
    // when the first call began and the last ended, in microseconds
    pub(crate) begun: u128,
    pub(crate) ended: u128,
}

impl Tally {
    // No call.
    pub(crate) fn new() -> Tally
        ensures { calls_of result.answers ≡ 0 }
    {
        Tally {
            answers: Answers::new(),
            put: Items::new(),
            taken: Items::new(),
            places: Items::new(),
            unput: 0,
            in_order: true,
            is_true: true,
            all_came: true,
            backlog: 0,
            begun: u128::MAX,
            ended: 0,
        }
    }

    // Notes what went in or came out.
    pub(crate) fn note(&mut self, outcome: &Outcome)
        ensures { self.new.answers ≡ self.old.answers }
    {
        match outcome {
            Outcome::Put(job, at) => {
                self.put.add(*job, *at);
                self.places.add(*at, 0);
            }
            Outcome::Taken(job, at) => self.taken.add(*job, *at),
            Outcome::Inserted(key) => self.put.add(*key, 0),
            Outcome::Removed(key) => self.taken.add(*key, 0),
            Outcome::Empty
            | Outcome::Found
            | Outcome::Unchanged
            | Outcome::Published(..)
            | Outcome::Saw(..)
            | Outcome::Refused(_) => {}
        }
    }

    // Counts one call more, notes what it did, and judges it by what its agent has seen.
    pub(crate) fn record(&mut self, ask: &Ask, outcome: &Outcome, seen: &mut Seen)
        requires { calls_of self.old.answers + 1 < 2 ^ 64 }
        ensures { calls_of self.new.answers ≡ calls_of self.old.answers + 1 }
    {
        self.note(outcome);
        let follows = seen.follows(outcome);
        self.in_order = self.in_order && follows;
        let is_true = seen.own.is_true(ask, outcome);
        self.is_true = self.is_true && is_true;
        if let (Ask::Give(_) | Ask::GiveAndStop(_), Outcome::Refused(_)) = (ask, outcome) {
            self.unput = self.unput.wrapping_add(1);
        }
        self.answers.count(outcome.answer());
    }

    // Counts another agent's calls too.
    pub(crate) fn join(&mut self, other: &Tally)
        requires { calls_of self.old.answers + calls_of other.now.answers < 2 ^ 64 }
        ensures { self.new.answers ≡ summed self.old.answers other.now.answers }
    {
        self.answers.add(&other.answers);
        self.put.join(&other.put);
        self.taken.join(&other.taken);
        self.places.join(&other.places);
        self.unput = self.unput.wrapping_add(other.unput);
        self.in_order = self.in_order && other.in_order;
        self.is_true = self.is_true && other.is_true;
        self.all_came = self.all_came && other.all_came;
        self.backlog = self.backlog.max(other.backlog);
        self.begun = self.begun.min(other.begun);
        self.ended = self.ended.max(other.ended);
    }
}
