//! What agents are to do.

ghost use Rattle.std.specs.Prelude.{◌≤◌, ◌<◌, ◌^◌};

use crate::pairs::value_of;
use crate::seen::Own;

// Which calls agents make: of a queue puts and takes, in turn or by agents apart; of a set so many of a hundred that ask, insert
// and remove; of a cell so many of a hundred that read, publish one part and publish both.
#[derive(Clone, Copy, PartialEq, Eq, Drop)]
pub enum Mix {
    Pairs,
    Apart,
    Reads,
    Writes,
    PairReads,
    PairWrites,
}

impl Mix {
    // Its word on the command line.
    pub(crate) fn word(self) -> &'static str {
        match self {
            Mix::Pairs => "pairs",
            Mix::Apart => "apart",
            Mix::Reads | Mix::PairReads => "90/5/5",
            Mix::Writes | Mix::PairWrites => "34/33/33",
        }
    }

    // Whether its calls are those of a set.
    pub(crate) fn has_keys(self) -> bool {
        match self {
            Mix::Pairs | Mix::Apart | Mix::PairReads | Mix::PairWrites => false,
            Mix::Reads | Mix::Writes => true,
        }
    }

    // Whether its calls are those of a cell.
    pub(crate) fn has_pairs(self) -> bool {
        match self {
            Mix::PairReads | Mix::PairWrites => true,
            Mix::Pairs | Mix::Apart | Mix::Reads | Mix::Writes => false,
        }
    }
}

// The calls of one agent.
#[derive(Clone, Copy, PartialEq, Eq, Drop)]
pub struct Load {
    pub(crate) mix: Mix,
    pub(crate) calls: u32,
    // how many keys there are, from 0 on
    pub(crate) keys: u32,
    pub(crate) seed: u32,
    // whether each call is made to its end: else some stop before their last step
    pub(crate) whole: bool,
    pub ghost some_keys: { 1 ≤ keys },
    pub ghost few_calls: { calls < 2 ^ 32 },
}

/// How a container is driven.
#[derive(Clone, Copy, PartialEq, Eq, Drop)]
pub struct Plan {
    /// How many agents make calls, each in a thread of its own.
    pub threads: u32,
    /// Whether one more agent is stopped in the middle of a call meanwhile.
    pub stalls: bool,
    /// Whether marked nodes are led past at rest, as they can be where rows come back.
    pub sweeps: bool,
    /// The calls of each.
    pub load: Load,
}

// One call: what is put or inserted, a key that is taken out (of a queue whatever is at the front), or a key that is asked for;
// of a cell a left part, a right one, or one for both, that is published, or a read. A put, an insert or a removal may stop before
// its last step, which the next call that meets it makes.
#[derive(Clone, Copy)]
pub enum Ask {
    Give(u64),
    Take(u64),
    GiveAndStop(u64),
    TakeAndStop(u64),
    Read(u64),
    Left(u64),
    Right(u64),
    Both(u64),
    See,
}

impl Ask {
    // The same call, but that it stops before its last step, where it has one that others make too.
    fn and_stop(self) -> Ask {
        match self {
            Ask::Give(item) => Ask::GiveAndStop(item),
            Ask::Take(item) => Ask::TakeAndStop(item),
            ask => ask,
        }
    }

    // The key that a call of a set names.
    pub(crate) fn key(&self) -> Option<u64> {
        match self {
            Ask::Give(key)
            | Ask::GiveAndStop(key)
            | Ask::Take(key)
            | Ask::TakeAndStop(key)
            | Ask::Read(key) => Some(*key),
            Ask::Left(_) | Ask::Right(_) | Ask::Both(_) | Ask::See => None,
        }
    }

    // Whether it puts something in.
    pub(crate) fn gives(&self) -> bool {
        match self {
            Ask::Give(_) | Ask::GiveAndStop(_) => true,
            _ => false,
        }
    }

    // Whether it takes something out.
    pub(crate) fn takes(&self) -> bool {
        match self {
            Ask::Take(_) | Ask::TakeAndStop(_) => true,
            _ => false,
        }
    }
}

// Of how many calls one stops, and which: of calls that put and take in turn it puts.
const STOPS: u32 = 16;

const STOPPED: u32 = 14;

impl Load {
    // This call of an agent.
    pub(crate) fn ask(&self, agent: u32, number: u32, draws: &mut Draws, own: &Own) -> Ask {
        let ask = self.whole_ask(agent, number, draws, own);
        if !self.whole && number % STOPS == STOPPED {
            ask.and_stop()
        } else {
            ask
        }
    }

    // The call, made to its end.
    fn whole_ask(&self, agent: u32, number: u32, draws: &mut Draws, own: &Own) -> Ask {
        match self.mix {
            Mix::Pairs => put_or_take(number % 2 == 0, agent, number),
            Mix::Apart => put_or_take(agent % 2 == 0, agent, number),
            Mix::Reads => self.ask_by_key(90, 95, draws, own),
            Mix::Writes => self.ask_by_key(34, 67, draws, own),
            Mix::PairReads => ask_for_pair(90, 95, draws, value_of(agent, number)),
            Mix::PairWrites => ask_for_pair(34, 67, draws, value_of(agent, number)),
        }
    }

    // One of a hundred calls, of which so many ask for a key, and those up to the second number insert one. An agent that draws
    // another's own key takes its own instead, so that one key of eight that it draws is its own.
    fn ask_by_key(&self, asks: u64, inserts: u64, draws: &mut Draws, own: &Own) -> Ask {
        let kind = draws.draw() % 100;
        let key = own.may_use(draws.draw().wrapping_mul(u64::from(self.keys)) >> 31);
        if kind < asks {
            Ask::Read(key)
        } else if kind < inserts {
            Ask::Give(key)
        } else {
            Ask::Take(key)
        }
    }
}

// One of a hundred calls, of which so many read, and those up to the second number publish the value on one side.
fn ask_for_pair(reads: u64, ones: u64, draws: &mut Draws, value: u64) -> Ask {
    let kind = draws.draw() % 100;
    let right = draws.draw() % 2 == 1;
    if kind < reads {
        Ask::See
    } else if kind >= ones {
        Ask::Both(value)
    } else if right {
        Ask::Right(value)
    } else {
        Ask::Left(value)
    }
}

// A job that tells its producer and its number, or a take.
fn put_or_take(put: bool, agent: u32, number: u32) -> Ask {
    if put {
        Ask::Give((u64::from(agent) << 32) | u64::from(number))
    } else {
        Ask::Take(0)
    }
}

// Numbers that look drawn, the same in each run: the linear congruential generator of Knuth's MMIX.
#[derive(Clone, Copy)]
pub(crate) struct Draws {
    state: u64,
}

impl Draws {
    // The draws of an agent.
    pub(crate) fn new(seed: u32, agent: u32) -> Draws {
        Draws {
            state: (u64::from(seed) << 32) | u64::from(agent),
        }
    }

    // The next number, below 2^31.
    pub(crate) fn draw(&mut self) -> u64 {
        self.state = self
            .state
            .wrapping_mul(6_364_136_223_846_793_005)
            .wrapping_add(1_442_695_040_888_963_407);
        self.state >> 33
    }
}
