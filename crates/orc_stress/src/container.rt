//! What a container offers to be driven.

ghost use Rattle.std.specs.Prelude.{◌≡◌, ℕ};
ghost use Rattle.orc_stress.specs.Passes.{Stays};

use crate::load::Ask;
use crate::tally::Answer;

/// What a call did.
#[derive(Clone, Copy, Drop)]
pub enum Outcome {
    /// A job went in, with its position.
    Put(u64, u64),
    /// A job came out, with its position.
    Taken(u64, u64),
    /// There was no job to take.
    Empty,
    /// A key went in.
    Inserted(u64),
    /// A key came out.
    Removed(u64),
    /// The key is there.
    Found,
    /// A key that was to go in is there, or one that was to come out, or was asked for, is not.
    Unchanged,
    /// Parts were published, and these are both as they were then.
    Published(u64, u64),
    /// Both parts were read.
    Saw(u64, u64),
    /// The call was refused.
    Refused(Answer),
}

impl Outcome {
    // How the call ended.
    pub(crate) fn answer(&self) -> Answer {
        match self {
            Outcome::Refused(answer) => *answer,
            Outcome::Empty => Answer::Empty,
            _ => Answer::Ok,
        }
    }
}

/// A container that agents share, each with a pass of its own.
pub trait Container {
    /// An agent's pass.
    type Pass: Drop;

    /// What a stopped agent holds.
    type Hold;

    // a call may be made with the pass
    ghost ready: { Self → Self.Pass → Type 0 };

    // the number of the pass's agent
    ghost agent_of: { Self → Self.Pass → ℕ };

    // the agent is stopped, and holds this
    ghost stopped: { Self → Self.Hold → Self.Pass → Type 0 };

    /// The number of the pass's agent.
    fn agent(&self, p: &Self::Pass) -> u32
        ensures { result ≡ agent_of self.now p.now };

    /// Makes one call.
    fn call(&self, p: &mut Self::Pass, ask: &Ask) -> Outcome
        requires { ready self.now p.old }
        ensures { Stays (ready self.now) (agent_of self.now) p.old p.new };

    /// How many retired rows the pass has to work through.
    fn backlog(&self, p: &Self::Pass) -> u32
        requires { ready self.now p.now };

    /// Begins a call, and stops in the middle of it. Answers what the agent holds, and what the call did by then.
    fn stop(&self, p: &mut Self::Pass) -> (Self::Hold, Outcome)
        requires { ready self.now p.old }
        ensures stopped { stopped self.now result.0 p.new }
        ensures agent { agent_of self.now p.new ≡ agent_of self.now p.old };

    /// Lets go of what the stopped agent holds, and works through what waited for it. Answers how many retired rows that were.
    fn go_on(&self, p: &mut Self::Pass, hold: Self::Hold) -> u32
        requires { stopped self.now hold p.old }
        ensures { Stays (ready self.now) (agent_of self.now) p.old p.new };
}
