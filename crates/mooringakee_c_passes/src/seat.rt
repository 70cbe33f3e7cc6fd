//! One agent's place at a container of any kind.

ghost use Rattle.std.specs.Prelude.{◌≡◌, ◌⊎◌, IfOk, IfSome};
ghost use Rattle.mooringakee_c_passes.specs.{
  QueueCalls.{AnswersPut, AnswersTake},
  Seats.{AtQueue, AtSet, AtSplit, IsSeat},
  SetCalls.{AnswersCall, AnswersQuestion, AnswersInsert, AnswersRemove},
  Settling.{SettlesPass, TellsCounts, backlog_at},
  SplitCalls.{CountsBuckets},
};

use crate::answer::Answer;
use crate::on_domain::ReclaimingSet;
use crate::place::AgentPlaceOn;
use crate::queue::QueuePlace;
use crate::set_calls::{KeyCall, call_bucketed, call_split};
use crate::split::SplitSetPlace;
use given_back::Unfinished;
use orc_any_domain::RowCounts;
use orc_chain_rule::Chain;
use std::alloc::Global;

/// An agent's place at a queue, at a bucketed set or at a split-ordered one.
#[derive(Drop)]
pub enum Seat {
    Queue(QueuePlace),
    Set(AgentPlaceOn<Chain, ReclaimingSet>),
    Split(SplitSetPlace),
}

impl Seat {
    /// Puts a value at the back of the queue.
    pub fn put(&mut self, value: u64) -> Answer
        requires { IsSeat self.old }
        ensures seat { IsSeat self.new }
        ensures answer { AtQueue (AnswersPut value) self.old result self.new }
    {
        match self {
            Seat::Queue(place) => place.put(value),
            Seat::Set(_) | Seat::Split(_) => Answer::Kind,
        }
    }

    /// Takes the value at the front of the queue.
    pub fn take(&mut self, value: &mut u64) -> Answer
        requires { IsSeat self.old }
        ensures seat { IsSeat self.new }
        ensures answer { AtQueue (AnswersTake value.new) self.old result self.new }
        ensures kept { (result ≡ Answer.Done) ⊎ (value.new ≡ value.old) }
    {
        match self {
            Seat::Queue(place) => place.take(value),
            Seat::Set(_) | Seat::Split(_) => Answer::Kind,
        }
    }

    // Makes a call with a key at the set.
    fn call(&mut self, call: KeyCall, key: u64, yes: &mut bool) -> Answer
        requires { IsSeat self.old }
        ensures seat { IsSeat self.new }
        ensures answer { AtSet (AnswersCall call key yes.new) self.old result self.new }
        ensures kept { (result ≡ Answer.Done) ⊎ (yes.new ≡ yes.old) }
    {
        match self {
            Seat::Queue(_) => Answer::Kind,
            Seat::Set(place) => call_bucketed(
                &place.container.set,
                &mut place.pass,
                place.turns,
                call,
                key,
                yes,
            ),
            Seat::Split(place) => call_split(
                &place.container.set,
                &mut place.pass,
                place.turns,
                call,
                key,
                yes,
            ),
        }
    }

    /// Adds a key to the set, and tells whether it was absent.
    pub fn insert(&mut self, key: u64, absent: &mut bool) -> Answer
        requires { IsSeat self.old }
        ensures seat { IsSeat self.new }
        ensures answer { AtSet (AnswersInsert key absent.new) self.old result self.new }
        ensures kept { (result ≡ Answer.Done) ⊎ (absent.new ≡ absent.old) }
    {
        self.call(KeyCall::Insert, key, absent)
    }

    /// Takes a key out of the set, and tells whether it was present.
    pub fn remove(&mut self, key: u64, present: &mut bool) -> Answer
        requires { IsSeat self.old }
        ensures seat { IsSeat self.new }
        ensures answer { AtSet (AnswersRemove key present.new) self.old result self.new }
        ensures kept { (result ≡ Answer.Done) ⊎ (present.new ≡ present.old) }
    {
        self.call(KeyCall::Remove, key, present)
    }

    /// Tells whether a key is present in the set.
    pub fn contains(&mut self, key: u64, present: &mut bool) -> Answer
        requires { IsSeat self.old }
        ensures seat { IsSeat self.new }
        ensures answer { AtSet (AnswersQuestion key present.new) self.old result self.new }
        ensures kept { (result ≡ Answer.Done) ⊎ (present.new ≡ present.old) }
    {
        self.call(KeyCall::Contains, key, present)
    }

    /// Tells how many buckets the split-ordered set has.
    pub fn buckets(&mut self, count: &mut u32) -> Answer
        requires { IsSeat self.old }
        ensures seat { IsSeat self.new }
        ensures answer { AtSplit (CountsBuckets count.new) self.old result self.new }
        ensures kept { (result ≡ Answer.Done) ⊎ (count.new ≡ count.old) }
    {
        match self {
            Seat::Queue(_) | Seat::Set(_) => Answer::Kind,
            Seat::Split(place) => place.buckets(count),
        }
    }

    /// Takes in what was handed over to the pass, and works through its retired rows.
    pub fn settle(&mut self) -> Answer
        requires { IsSeat self.old }
        ensures seat { IsSeat self.new }
        ensures answer { SettlesPass self.old result self.new }
    {
        match self {
            Seat::Queue(place) => place.settle(),
            Seat::Set(place) => place.settle(),
            Seat::Split(place) => place.settle(),
        }
    }

    /// How many retired rows the pass has to work through.
    pub fn backlog(&self) -> u32
        requires { IsSeat self.now }
        ensures { result ≡ backlog_at self.now }
    {
        match self {
            Seat::Queue(place) => place.backlog(),
            Seat::Set(place) => place.backlog(),
            Seat::Split(place) => place.backlog(),
        }
    }

    /// Gives the pass up.
    pub fn leave(self)
        requires { IsSeat self }
    {
        match self {
            Seat::Queue(place) => place.leave(),
            Seat::Set(place) => place.leave(),
            Seat::Split(place) => place.leave(),
        }
    }

    /// Gives the pass up. The last one to do so brings the container to rest, and tells of its rows.
    pub fn close(self, alloc: Global) -> Result<Option<RowCounts>, Unfinished>
        requires { IsSeat self }
        ensures { IfOk result (λ told. IfSome told (λ counts. TellsCounts self counts)) }
    {
        match self {
            Seat::Queue(place) => place.close(alloc),
            Seat::Set(place) => place.close(alloc),
            Seat::Split(place) => place.close(alloc),
        }
    }
}
