//! A whole run: keys are put in, all agents do their parts, and what is left is looked at.

ghost use Rattle.std.specs.Prelude.{◌≡◌, ◌≤◌, IfOk, vec_len};
ghost use Rattle.std.specs.List.{AllByRecursion};
ghost use Rattle.orc_stress.specs.{Answers.{calls_of}, Parts.{calls_of_agents}, Passes.{Stay, Stays}};

use crate::agents::{Ran, Start, run_all};
use crate::container::{Container, Outcome};
use crate::load::{Ask, Plan};
use crate::pairs::PairLog;
use crate::seen::Seen;
use crate::tally::{Answer, Items, Tally};
use std::alloc::{AllocError, Global};
use std::thread::Threads;
use std::time::{Clock, Instant};

/// What a run came to.
#[derive(Clone, Copy, Drop)]
pub struct Driven {
    /// What the agents' calls came to, and what was put in before them.
    pub tally: Tally,
    /// What came out, or was there, after them.
    pub rest: Rest,
}

/// What one agent found once all others had made their calls.
#[derive(Clone, Copy, Drop)]
pub struct Rest {
    /// The jobs that it took, or the keys that it found.
    pub items: Items,
    /// Whether the jobs came in order, and nothing after them; or the parts of each side of a cell can have stood there one after
    /// another, those that are left last.
    pub in_order: bool,
    /// Whether each pair that was read of a cell was published.
    pub are_pairs: bool,
    /// Whether an insert and a removal of each key that wasn't found said that it wasn't there.
    pub agree: bool,
    /// Whether each marked node was led past: an insert and a removal of each key that wasn't found were made and not refused.
    pub swept: bool,
    /// How many rows what is left takes: the dummy of an empty queue, a node for each key, a cell's pair and its parts.
    pub rows: u32,
}

impl Rest {
    // Nothing is left, and nothing is wrong.
    fn new() -> Rest {
        Rest {
            items: Items::new(),
            in_order: true,
            are_pairs: true,
            agree: true,
            swept: false,
            rows: 0,
        }
    }
}

// The rows of an empty queue: its dummy.
const DUMMY: u32 = 1;

// The rows of a cell's version: a pair and its two parts.
const VERSION: u32 = 3;

// Inserts every second key, the greatest first, as long as there is a row for one.
fn fill<C: Container>(container: &C, p: &mut C::Pass, keys: u32) -> Items
    requires ready { C.ready container.now p.old }
    ensures ready { Stays (C.ready container.now) (C.agent_of container.now) p.old p.new }
{
    let mut put = Items::new();
    for place in 0..keys {
        let key = u64::from(keys - 1 - place);
        if key % 2 == 0 {
            match container.call(p, &Ask::Give(key)) {
                Outcome::Inserted(key) => put.add(key, 0),
                Outcome::Refused(Answer::NoNode) => return put,
                _ => {}
            }
        }
    }
    put
}

// What an insert and a removal say of a key that wasn't found.
#[derive(Clone, Copy)]
enum Tried {
    // It wasn't there, and is not.
    Absent,
    // It was there.
    Present,
    // One was refused.
    Refused,
}

// Inserts a key that wasn't found and removes it again, which leads past each marked node before its place.
fn insert_and_remove<C: Container>(container: &C, p: &mut C::Pass, key: u64) -> Tried
    requires ready { C.ready container.now p.old }
    ensures ready { Stays (C.ready container.now) (C.agent_of container.now) p.old p.new }
{
    match container.call(p, &Ask::Give(key)) {
        Outcome::Inserted(_) => {}
        Outcome::Refused(_) => return Tried::Refused,
        _ => return Tried::Present,
    }
    match container.call(p, &Ask::Take(key)) {
        Outcome::Removed(_) => Tried::Absent,
        _ => Tried::Refused,
    }
}

// Asks for each key, and sweeps where none is.
fn find_keys<C: Container>(container: &C, p: &mut C::Pass, plan: &Plan) -> Rest
    requires ready { C.ready container.now p.old }
    ensures ready { Stays (C.ready container.now) (C.agent_of container.now) p.old p.new }
{
    let mut items = Items::new();
    let mut agree = true;
    let mut swept = plan.sweeps;
    for key in 0..u64::from(plan.load.keys) {
        if let Outcome::Found = container.call(p, &Ask::Read(key)) {
            items.add(key, 0);
        } else if plan.sweeps {
            let tried = insert_and_remove(container, p, key);
            agree = agree && tried != Tried::Present;
            swept = swept && tried == Tried::Absent;
        }
    }
    Rest {
        items,
        agree,
        swept,
        rows: u32::try_from(items.count).unwrap_or(u32::MAX),
        ..Rest::new()
    }
}

// Takes a job, in a second call where the first one had a single turn and only helped the tail on.
fn take_one<C: Container>(container: &C, p: &mut C::Pass) -> Outcome
    requires ready { C.ready container.now p.old }
    ensures ready { Stays (C.ready container.now) (C.agent_of container.now) p.old p.new }
{
    match container.call(p, &Ask::Take(0)) {
        Outcome::Refused(Answer::Again) => container.call(p, &Ask::Take(0)),
        outcome => outcome,
    }
}

// Takes so many jobs, and looks whether there is one more.
fn take_jobs<C: Container>(container: &C, p: &mut C::Pass, plan: &Plan, waiting: u64) -> Rest
    requires ready { C.ready container.now p.old }
    ensures ready { Stays (C.ready container.now) (C.agent_of container.now) p.old p.new }
{
    let mut items = Items::new();
    let mut seen = Seen::new(0, plan);
    let mut in_order = true;
    for _job in 0..waiting {
        let outcome = take_one(container, p);
        if let Outcome::Taken(job, at) = outcome {
            items.add(job, at);
        }
        let follows = seen.follows(&outcome);
        in_order = in_order && follows;
    }
    let is_empty = match take_one(container, p) {
        Outcome::Empty => true,
        _ => false,
    };
    Rest {
        items,
        in_order: in_order && is_empty,
        rows: DUMMY,
        ..Rest::new()
    }
}

// Reads the pair that is left, and looks at those that were seen.
fn see_pairs<C: Container>(container: &C, p: &mut C::Pass, pairs: &PairLog) -> Rest
    requires ready { C.ready container.now p.old }
    ensures ready { Stays (C.ready container.now) (C.agent_of container.now) p.old p.new }
{
    let (is_left, rows) = match container.call(p, &Ask::See) {
        Outcome::Saw(0, 0) => (pairs.may_be_left((0, 0)), 0),
        Outcome::Saw(left, right) => (pairs.may_be_left((left, right)), VERSION),
        _ => (false, VERSION),
    };
    Rest {
        in_order: is_left,
        are_pairs: pairs.all_published(),
        rows,
        ..Rest::new()
    }
}

// Puts in what is there at the beginning, with the last pass.
fn begin<C: Container>(container: &C, passes: &mut Vec<C::Pass>, plan: &Plan) -> Items
    requires ready { AllByRecursion (C.ready container.now) passes.old.items }
    ensures stay { Stay (C.ready container.now) (C.agent_of container.now) passes.old.items passes.new.items }
    ensures len { vec_len passes.new ≡ vec_len passes.old }
{
    if !plan.load.mix.has_keys() {
        return Items::new();
    }
    let Some(mut p) = passes.pop() else {
        return Items::new();
    };
    let put = fill(container, &mut p, plan.load.keys);
    let Ok(()) = passes.push(p) else {
        unreachable!()
    };
    put
}

// Looks at what is left, with the last pass.
fn finish<C: Container>(
    container: &C,
    passes: &mut Vec<C::Pass>,
    plan: &Plan,
    pairs: &PairLog,
    waiting: u64,
) -> Rest
    requires ready { AllByRecursion (C.ready container.now) passes.old.items }
    ensures stay { Stay (C.ready container.now) (C.agent_of container.now) passes.old.items passes.new.items }
{
    let Some(mut p) = passes.pop() else {
        return Rest::new();
    };
    let rest = if plan.load.mix.has_keys() {
        find_keys(container, &mut p, plan)
    } else if plan.load.mix.has_pairs() {
        see_pairs(container, &mut p, pairs)
    } else {
        take_jobs(container, &mut p, plan, waiting)
    };
    let Ok(()) = passes.push(p) else {
        unreachable!()
    };
    rest
}

/// Drives a container: puts in every second key where the calls are those of a set, lets all agents do their parts, each in a
/// thread of its own where one can be made, and then takes all jobs that wait, asks for each key, or reads the pair that is left.
///
/// # Errors
///
/// Where memory is refused, before the first call.
pub fn drive<R: Threads + Clock + Sync, C: Container + Sync>(
    rt: &R,
    alloc: Global,
    container: &C,
    mut passes: Vec<C::Pass>,
    plan: &Plan,
    instant: Instant,
) -> Result<(Vec<C::Pass>, Driven), AllocError>
where
    C::Pass: Send,
    requires ready { AllByRecursion (C.ready container.now) passes.items }
    requires few { vec_len passes ≤ 16 }
    ensures stay { IfOk result (λ r. Stay (C.ready container.now) (C.agent_of container.now) passes.items r.0.items) }
    ensures calls { IfOk result (λ r. calls_of r.1.tally.answers ≡ calls_of_agents plan.now (C.agent_of container.now) passes.items) }
{
    let room = Vec::with_capacity(alloc, passes.len())?;
    let start = Start::new(alloc, plan, instant)?;
    let put = begin(container, &mut passes, plan);
    let Ran {
        mut passes,
        mut tally,
    } = run_all(rt, container, passes, plan, &start, room);
    tally.put.join(&put);
    let waiting = tally.put.count.saturating_sub(tally.taken.count);
    let rest = finish(container, &mut passes, plan, &start.pairs, waiting);
    Ok((passes, Driven { tally, rest }))
}
