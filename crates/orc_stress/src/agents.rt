//! The calls of agents, each in a thread of its own.

ghost use Rattle.std.specs.Prelude.{◌≡◌, ◌+◌, ◌<◌, ◌≤◌, ◌^◌, [], vec_len, vec_capacity};
ghost use Rattle.std.specs.List.{AllByRecursion};
ghost use Rattle.std.specs.Thread.{IsSync};
ghost use Rattle.orc_stress.specs.{Answers.{calls_of}, Parts.{HaveRun, calls_of_agent, calls_of_agents}, Passes.{Stay, Stays}};

use crate::container::{Container, Outcome};
use crate::load::{Ask, Draws, Plan};
use crate::pairs::PairLog;
use crate::seen::Seen;
use crate::tally::Tally;
use std::alloc::{AllocError, Global};
use std::sync::atomic::{AtomicU64, Ordering};
use std::thread;
use std::thread::Threads;
use std::time::{Clock, Duration, Instant};

// How often an agent looks whether the others have come, or are done. Where a thread can't be made, it goes on without them.
const LOOKS: u32 = 1_000_000_000;

// Where agents meet before their calls and leave after them, the time from which on theirs is told, and the pairs that they saw.
#[derive(Drop)]
pub(crate) struct Start {
    come: AtomicU64,
    left: AtomicU64,
    meeting: u64,
    working: u64,
    instant: Instant,
    pub(crate) pairs: PairLog,
}

impl Start {
    pub(crate) fn new(alloc: Global, plan: &Plan, instant: Instant) -> Result<Start, AllocError> {
        let working = u64::from(plan.threads);
        let noted = if plan.load.mix.has_pairs() {
            plan.load.calls
        } else {
            0
        };
        Ok(Start {
            come: AtomicU64::new(0),
            left: AtomicU64::new(0),
            meeting: working.wrapping_add(u64::from(plan.stalls)),
            working,
            instant,
            pairs: PairLog::new(alloc, plan.threads, noted)?,
        })
    }

    // Waits until all have come, and answers whether they have.
    fn meet(&self) -> bool {
        self.come.fetch_add(1, Ordering::SeqCst);
        for _ in 0..LOOKS {
            if self.come.load(Ordering::SeqCst) >= self.meeting {
                return true;
            }
            std::hint::spin_loop();
        }
        false
    }

    // Tells that an agent made its calls.
    fn leave(&self) {
        self.left.fetch_add(1, Ordering::SeqCst);
    }

    // Sleeps until all have made their calls.
    fn wait_for_all<R: Clock>(&self, rt: &R) {
        for _ in 0..LOOKS {
            if self.left.load(Ordering::SeqCst) >= self.working {
                return;
            }
            thread::sleep(rt, Duration::from_millis(1));
        }
    }

    // The microseconds since then, or 0 where the clock can't be read.
    fn micros<R: Clock>(&self, rt: &R) -> u128 {
        match self.instant.elapsed(rt) {
            Ok(time) => time.as_micros(),
            Err(_) => 0,
        }
    }
}

// Makes one call, and counts it.
fn make_call<C: Container>(
    container: &C,
    p: &mut C::Pass,
    ask: &Ask,
    seen: &mut Seen,
    tally: &mut Tally,
) -> Outcome
    requires ready { C.ready container.now p.old }
    requires few { calls_of tally.old.answers + 1 < 2 ^ 64 }
    ensures ready { Stays (C.ready container.now) (C.agent_of container.now) p.old p.new }
    ensures counted { calls_of tally.new.answers ≡ calls_of tally.old.answers + 1 }
{
    let outcome = container.call(p, ask);
    tally.record(ask, &outcome, seen);
    tally.backlog = tally.backlog.max(container.backlog(p));
    outcome
}

// Makes all calls of an agent.
fn make_calls<C: Container>(container: &C, p: &mut C::Pass, plan: &Plan, pairs: &PairLog) -> Tally
    requires ready { C.ready container.now p.old }
    ensures ready { Stays (C.ready container.now) (C.agent_of container.now) p.old p.new }
    ensures calls { calls_of result.answers ≡ plan.now.load.calls }
{
    let agent = container.agent(p);
    let mut draws = Draws::new(plan.load.seed, agent);
    let mut seen = Seen::new(agent, plan);
    let mut tally = Tally::new();
    for number in 0..plan.load.calls {
        let ask = plan.load.ask(agent, number, &mut draws, &seen.own);
        let outcome = make_call(container, p, &ask, &mut seen, &mut tally);
        if let Outcome::Published(left, right) | Outcome::Saw(left, right) = outcome {
            pairs.note(agent, number, (left, right));
        }
    }
    tally
}

// Makes all calls of an agent, once all have come.
fn work<R: Clock, C: Container>(
    rt: &R,
    container: &C,
    p: &mut C::Pass,
    plan: &Plan,
    start: &Start,
) -> Tally
    requires ready { C.ready container.now p.old }
    ensures ready { Stays (C.ready container.now) (C.agent_of container.now) p.old p.new }
    ensures calls { calls_of result.answers ≡ plan.now.load.calls }
{
    let all_came = start.meet();
    let begun = start.micros(rt);
    let mut tally = make_calls(container, p, plan, &start.pairs);
    tally.all_came = all_came;
    tally.begun = begun;
    tally.ended = start.micros(rt);
    start.leave();
    tally
}

// Stops in the middle of a call until all others have made theirs.
fn stall<R: Clock, C: Container>(rt: &R, container: &C, p: &mut C::Pass, start: &Start) -> Tally
    requires ready { C.ready container.now p.old }
    ensures ready { Stays (C.ready container.now) (C.agent_of container.now) p.old p.new }
    ensures calls { calls_of result.answers ≡ 0 }
{
    let (hold, outcome) = container.stop(p);
    let mut tally = Tally::new();
    tally.note(&outcome);
    tally.all_came = start.meet();
    start.wait_for_all(rt);
    tally.backlog = container.go_on(p, hold);
    tally
}

// What an agent did, and its pass.
#[derive(Drop)]
struct Done<P> {
    pass: P,
    tally: Tally,
}

// Does an agent's part: those below the number of threads make their calls, the next one may be stopped, and others do nothing.
fn run_agent<R: Clock, C: Container>(
    rt: &R,
    container: &C,
    mut pass: C::Pass,
    plan: &Plan,
    start: &Start,
) -> Done<C::Pass>
    requires ready { C.ready container.now pass }
    ensures ready { Stays (C.ready container.now) (C.agent_of container.now) pass result.pass }
    ensures calls { calls_of result.tally.answers ≡ calls_of_agent plan.now (C.agent_of container.now pass) }
{
    let agent = container.agent(&pass);
    let tally = if agent < plan.threads {
        work(rt, container, &mut pass, plan, start)
    } else if agent == plan.threads && plan.stalls {
        stall(rt, container, &mut pass, start)
    } else {
        Tally::new()
    };
    Done { pass, tally }
}

// What all did, and their passes.
#[derive(Drop)]
pub(crate) struct Ran<P> {
    pub(crate) passes: Vec<P>,
    pub(crate) tally: Tally,
}

// Does the parts of all agents, each in a thread of its own, the last of which is started first.
#[cycle(agents)]
pub(crate) fn run_agents<R: Threads + Clock + Sync, C: Container + Sync>(
    rt: &R,
    container: &C,
    mut waiting: Vec<C::Pass>,
    plan: &Plan,
    start: &Start,
    done: Vec<C::Pass>,
) -> Ran<C::Pass>
where
    C::Pass: Send,
    requires ready { AllByRecursion (C.ready container.now) waiting.items }
    requires few { vec_len waiting ≤ 16 }
    requires room { vec_len done + vec_len waiting ≤ vec_capacity done }
    ensures ran { HaveRun (C.ready container.now) (C.agent_of container.now) plan.now waiting.items done.items result }
    ensures room { vec_capacity done ≤ vec_capacity result.passes }
    ensures len { vec_len result.passes ≡ vec_len done + vec_len waiting }
{
    let Some(pass) = waiting.pop() else {
        return Ran {
            passes: done,
            tally: Tally::new(),
        };
    };
    let one = move || -> Done<C::Pass>
        requires { C.ready container.now pass }
        ensures ready { Stays (C.ready container.entry.now) (C.agent_of container.entry.now) pass result.pass }
        ensures calls { calls_of result.tally.answers ≡ calls_of_agent plan.entry.now (C.agent_of container.entry.now pass) }
    { run_agent(rt, container, pass, plan, start) };
    let others = move || -> Ran<C::Pass>
        requires { IsSync R.row × AllByRecursion (C.ready container.now) waiting.items × (vec_len waiting ≤ 16)
            × (vec_len done + vec_len waiting ≤ vec_capacity done) }
        ensures ran { HaveRun (C.ready container.entry.now) (C.agent_of container.entry.now) plan.entry.now waiting.items done.items result }
        ensures room { vec_capacity done ≤ vec_capacity result.passes }
        ensures len { vec_len result.passes ≡ vec_len done + vec_len waiting }
    { run_agents(rt, container, waiting, plan, start, done) };
    let (one, mut ran) = thread::join(rt, one, others);
    let Done { pass, tally } = one;
    let Ok(()) = ran.passes.push(pass) else {
        unreachable!()
    };
    ran.tally.join(&tally);
    ran
}

// Does the parts of all agents, and puts their passes into the room.
pub(crate) fn run_all<R: Threads + Clock + Sync, C: Container + Sync>(
    rt: &R,
    container: &C,
    passes: Vec<C::Pass>,
    plan: &Plan,
    start: &Start,
    room: Vec<C::Pass>,
) -> Ran<C::Pass>
where
    C::Pass: Send,
    requires ready { AllByRecursion (C.ready container.now) passes.items }
    requires few { vec_len passes ≤ 16 }
    requires empty { room.items ≡ [] }
    requires room { vec_len passes ≤ vec_capacity room }
    ensures stay { Stay (C.ready container.now) (C.agent_of container.now) passes.items result.passes.items }
    ensures calls { calls_of result.tally.answers ≡ calls_of_agents plan.now (C.agent_of container.now) passes.items }
{
    run_agents(rt, container, passes, plan, start, room)
}
