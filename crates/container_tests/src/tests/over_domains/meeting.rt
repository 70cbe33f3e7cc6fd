//! Queues whose calls are watched: the first calls of agents 1, 2 and 3 wait for each other, and a rush job comes between the two
//! dequeues of a take.

use super::watched::{Call, Watch, run_watched};
use orc_board::{OpenGate, PostWord, Replies, TakeReply, TakeWord};
use orc_chain_rule::Chain;
use orc_containers::{Domain, Unmade};
use orc_fifo_rule::Fifo;
use std::alloc::Global;
use std::sync::Wait;
use std::sync::atomic::{AtomicU64, Ordering};
use std::thread::Threads;

// For how many looks an agent is held at most.
const LOOKS: u64 = 1 << 30;

// Waits until the flag is up, and answers whether it came up in time.
fn came(flag: &AtomicU64) -> bool {
    for _ in 0..LOOKS {
        if flag.load(Ordering::SeqCst) == 1 {
            return true;
        }
    }
    false
}

// Holds the first call of each of three agents until all three have come.
#[derive(Drop)]
struct Meeting {
    first: AtomicU64,
    second: AtomicU64,
    third: AtomicU64,
    met: AtomicU64,
}

impl Meeting {
    // For the first calls of this queue; or none of its calls is held, where they have come.
    fn new(have_come: bool) -> Meeting {
        let flag = u64::from(have_come);
        Meeting {
            first: AtomicU64::new(flag),
            second: AtomicU64::new(flag),
            third: AtomicU64::new(flag),
            met: AtomicU64::new(0),
        }
    }
}

impl Watch for Meeting {
    fn before(&self, agent: u32, _call: Call) {
        let own = match agent {
            1 => &self.first,
            2 => &self.second,
            3 => &self.third,
            _ => return,
        };
        if own.swap(1, Ordering::SeqCst) == 0
            && came(&self.first)
            && came(&self.second)
            && came(&self.third)
        {
            self.met.fetch_add(1, Ordering::SeqCst);
        }
    }

    fn after(&self, _call: Call) {}
}

// That a taker has found the rush queue empty, and that a rush job was put after that.
#[derive(Drop)]
struct Flags {
    found_empty: AtomicU64,
    rushed: AtomicU64,
}

// Holds a put into the rush queue until a taker asks the queue, and this taker until the rush job is there.
#[derive(Drop)]
struct Between<'a> {
    is_rush: bool,
    flags: &'a Flags,
}

impl Watch for Between<'_> {
    fn before(&self, agent: u32, call: Call) {
        if self.is_rush {
            if call == Call::Put {
                let _in_time = came(&self.flags.found_empty);
            }
        } else if call == Call::Take && agent != 0 {
            self.flags.found_empty.store(1, Ordering::SeqCst);
            let _in_time = came(&self.flags.rushed);
        }
    }

    fn after(&self, call: Call) {
        if self.is_rush && call == Call::Put {
            self.flags.rushed.store(1, Ordering::SeqCst);
        }
    }
}

// Doesn't watch.
#[derive(Drop)]
struct Unwatched;

impl Watch for Unwatched {
    fn before(&self, _agent: u32, _call: Call) {}

    fn after(&self, _call: Call) {}
}

// What comes of the calls of three agents that are held until all have come: whether all three met, at four desks, both posts were
// answered with a position, and both takes were of another one.
pub(super) fn meet_at_once<
    R: Threads + Wait + Sync,
    F: Domain<Rule = Fifo> + Sync + Drop,
    C: Domain<Rule = Chain> + Sync + Drop,
>(rt: &R, alloc: Global) -> Result<bool, Unmade>
where
    F::Pass: Send,
    C::Pass: Send,
{
    let file = b"post,0,bytes,x\npost,1,bytes,x\n";
    let (meeting, rush, set) = (Meeting::new(false), Meeting::new(true), Unwatched);
    let watches = (&meeting, &rush, &set);
    let (desks, replies) = run_watched::<R, F, C, _, _, _>(
        rt, alloc, file, 2, 1, watches, &OpenGate,
    )?;
    let met = meeting.met.load(Ordering::SeqCst);
    Ok(met == 3 && desks == 4 && were_served(&replies))
}

// Whether all posts were answered with a position, and two takes, each of another one.
fn were_served(replies: &Replies) -> bool {
    let mut posted = true;
    for reply in replies.posts.items() {
        posted &= matches!(reply.what, PostWord::Posted(_));
    }
    let takes = replies.takes.items();
    posted && takes.len() == 2 && takes.first().map(|t| t.at) != takes.last().map(|t| t.at)
}

// Whether one taker takes a post and then a rush job, where that comes between the two dequeues of its first take.
pub(super) fn takes_around_a_rush_job<
    R: Threads + Wait + Sync,
    F: Domain<Rule = Fifo> + Sync + Drop,
    C: Domain<Rule = Chain> + Sync + Drop,
>(rt: &R, alloc: Global) -> Result<bool, Unmade>
where
    F::Pass: Send,
    C::Pass: Send,
{
    let flags = Flags {
        found_empty: AtomicU64::new(0),
        rushed: AtomicU64::new(0),
    };
    let queue = Between {
        is_rush: false,
        flags: &flags,
    };
    let rush = Between {
        is_rush: true,
        flags: &flags,
    };
    let set = Unwatched;
    let watches = (&queue, &rush, &set);
    let file = b"post,0,bytes,x\nrush,1,bytes,yy\n";
    let (_, replies) = run_watched::<R, F, C, _, _, _>(rt, alloc, file, 1, 1, watches, &OpenGate)?;
    Ok(replies.takes.items() == AROUND.as_slice())
}

// The takes of the post, and then of the rush job.
const AROUND: [TakeReply; 2] = [
    TakeReply {
        taker: 1,
        at: 0,
        line: 0,
        rush: false,
        what: TakeWord::Done(1),
    },
    TakeReply {
        taker: 1,
        at: 0,
        line: 1,
        rush: true,
        what: TakeWord::Done(2),
    },
];
