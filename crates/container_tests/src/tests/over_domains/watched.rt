//! Queues and sets whose calls are watched, and runs over them.

ghost use Rattle.std.specs.Prelude.{◌≡◌, ◌+◌, ◌<◌, ◌≤◌, ℕ, [], All, IfOk, length, slice_index_or};
ghost use Rattle.orc_jobs.specs.GoodLines.{AreGood};

use orc_board::{Gate, Replies};
use orc_chain_rule::Chain;
use orc_containers::{Domain, Unmade, new_queue, new_set};
use orc_fault::{Again, NoMemory};
use orc_fifo_rule::Fifo;
use orc_history::{LearnQueue, LearnSet, ListRefused, QueueRefused, SharedQueue, SharedSet};
use orc_job_files::read_jobs;
use orc_jobs::{Lines, MOST_BYTES};
use orc_workers::{fresh_desks, run_at_desks};
use std::alloc::Global;
use std::sync::Wait;
use std::thread::Threads;

// A call of a queue or of a set.
#[derive(PartialEq, Drop)]
pub(super) enum Call {
    Put,
    Take,
    Insert,
    Remove,
    Ask,
}

// What is done before a container's calls, and after them.
pub(super) trait Watch {
    fn before(&self, agent: u32, call: Call);

    fn after(&self, call: Call);
}

// A queue or a set that passes each call on, and is watched.
#[derive(Drop)]
struct Watched<'a, C, W> {
    inner: C,
    watch: &'a W,
}

impl<Q: SharedQueue, W: Watch> SharedQueue for Watched<'_, Q, W> {
    type Pass = Q::Pass;

    type Step = Q::Step;

    ghost agent_of = { λ m p. Q.agent_of m.inner p };

    ghost journal = { λ p. Q.journal p };

    ghost history = { λ m journal. Q.history m.inner journal };

    ghost first = { λ m. Q.first m.inner };

    ghost usable = { λ m p. Q.usable m.inner p };

    ghost crowd = { λ m agent. Q.crowd m.inner agent };

    ghost licence = { λ m agent turns why journal from to. Q.licence m.inner agent turns why journal from to };

    ghost legal = { λ m p h. Q.legal m.inner p h };

    ghost licence_stays = { λ m agent turns why seen more from to h. Q.licence_stays m.inner agent turns why seen more from to h };

    ghost grows = { λ m seen more. Q.grows m.inner seen more };

    ghost many_puts = { λ m agent turns seen from to h. Q.many_puts m.inner agent turns seen from to h };

    fn agent(&self, p: &Q::Pass) -> u32 {
        self.inner.agent(p)
    }

    fn enqueue(&self, p: &mut Q::Pass, job: u64, turns: u64) -> Result<u64, QueueRefused> {
        self.watch.before(self.inner.agent(p), Call::Put);
        let put = self.inner.enqueue(p, job, turns);
        self.watch.after(Call::Put);
        put
    }

    fn dequeue(&self, p: &mut Q::Pass, turns: u64) -> Result<Option<(u64, u64)>, Again> {
        self.watch.before(self.inner.agent(p), Call::Take);
        let taken = self.inner.dequeue(p, turns);
        self.watch.after(Call::Take);
        taken
    }
}

impl<Q: LearnQueue, W: Watch> LearnQueue for Watched<'_, Q, W> {
    ghost agents = { λ m. Q.agents m.inner };

    fn learn(&self, into: &mut Q::Pass, from: &mut Q::Pass) {
        self.inner.learn(into, from);
    }

    ghost agents_below = { λ m p h. Q.agents_below m.inner p h };

    ghost crowd_below = { λ m agent h. Q.crowd_below m.inner agent h };
}

impl<S: SharedSet, W: Watch> SharedSet for Watched<'_, S, W> {
    type Pass = S::Pass;

    type Step = S::Step;

    ghost agent_of = { λ m p. S.agent_of m.inner p };

    ghost journal = { λ p. S.journal p };

    ghost history = { λ m journal. S.history m.inner journal };

    ghost usable = { λ m p. S.usable m.inner p };

    ghost crowd = { λ m agent. S.crowd m.inner agent };

    ghost licence = { λ m agent turns why journal from to. S.licence m.inner agent turns why journal from to };

    ghost legal = { λ m p h. S.legal m.inner p h };

    ghost licence_stays = { λ m agent turns why seen more from to h. S.licence_stays m.inner agent turns why seen more from to h };

    ghost grows = { λ m seen more. S.grows m.inner seen more };

    fn agent(&self, p: &S::Pass) -> u32 {
        self.inner.agent(p)
    }

    fn insert(&self, p: &mut S::Pass, key: u64, turns: u64) -> Result<bool, ListRefused> {
        self.watch.before(self.inner.agent(p), Call::Insert);
        let added = self.inner.insert(p, key, turns);
        self.watch.after(Call::Insert);
        added
    }

    fn remove(&self, p: &mut S::Pass, key: u64, turns: u64) -> Result<bool, Again> {
        self.watch.before(self.inner.agent(p), Call::Remove);
        let removed = self.inner.remove(p, key, turns);
        self.watch.after(Call::Remove);
        removed
    }

    fn contains(&self, p: &mut S::Pass, key: u64, turns: u64) -> Result<bool, Again> {
        self.watch.before(self.inner.agent(p), Call::Ask);
        let asked = self.inner.contains(p, key, turns);
        self.watch.after(Call::Ask);
        asked
    }
}

impl<S: LearnSet, W: Watch> LearnSet for Watched<'_, S, W> {
    ghost agents = { λ m. S.agents m.inner };

    fn learn(&self, into: &mut S::Pass, from: &mut S::Pass) {
        self.inner.learn(into, from);
    }

    ghost agents_below = { λ m p h. S.agents_below m.inner p h };

    ghost crowd_below = { λ m agent h. S.crowd_below m.inner agent h };
}

// The lines of this file.
fn lines_of(alloc: Global, text: &[u8]) -> Result<Lines, NoMemory>
    requires { length text.now ≤ MOST_BYTES }
    ensures { IfOk result AreGood }
{
    match read_jobs(alloc, text) {
        Ok(lines) => Ok(lines),
        Err(_) => Err(NoMemory),
    }
}

// Runs this file at new desks of these containers. Answers how many desks there are, and the replies.
fn run_over<R: Threads + Wait + Sync, Q: LearnQueue + Sync, S: LearnSet + Sync, G: Gate + Sync>(
    rt: &R,
    alloc: Global,
    text: &[u8],
    posters: u32,
    takers: u32,
    queue: &Q,
    rush: &Q,
    set: &S,
    passes: (Vec<Q::Pass>, Vec<Q::Pass>, Vec<S::Pass>),
    gate: &G,
) -> Result<(usize, Replies), NoMemory>
where
    Q::Pass: Send,
    S::Pass: Send,
    requires short { length text.now ≤ MOST_BYTES }
    requires posters { 1 ≤ posters }
    requires queue_passes { All (λ p. Q.usable queue.now p) passes.0.items }
    requires queue_fresh { All (λ p. Q.history queue.now (Q.journal p) ≡ []) passes.0.items }
    requires queue_agents { (i : ℕ) (p : Q.Pass) → i < length passes.0.items → Q.agent_of queue.now (slice_index_or passes.0.items i p) ≡ i }
    requires rush_passes { All (λ p. Q.usable rush.now p) passes.1.items }
    requires rush_fresh { All (λ p. Q.history rush.now (Q.journal p) ≡ []) passes.1.items }
    requires rush_agents { (i : ℕ) (p : Q.Pass) → i < length passes.1.items → Q.agent_of rush.now (slice_index_or passes.1.items i p) ≡ i }
    requires set_passes { All (λ p. S.usable set.now p) passes.2.items }
    requires set_fresh { All (λ p. S.history set.now (S.journal p) ≡ []) passes.2.items }
    requires set_agents { (i : ℕ) (p : S.Pass) → i < length passes.2.items → S.agent_of set.now (slice_index_or passes.2.items i p) ≡ i }
    requires count { length passes.0.items ≡ 1 + (posters + takers) }
    requires same { (length passes.1.items ≡ length passes.0.items) × (length passes.2.items ≡ length passes.0.items) }
    requires agents { (Q.agents queue.now ≡ 1 + (posters + takers)) × (Q.agents rush.now ≡ 1 + (posters + takers))
        × (S.agents set.now ≡ 1 + (posters + takers)) }
    requires first { (Q.first queue.now ≡ 0) × (Q.first rush.now ≡ 0) }
{
    let mut desks = fresh_desks(alloc, queue, rush, set, passes.0, passes.1, passes.2)?;
    let lines = lines_of(alloc, text)?;
    let replies = run_at_desks(
        rt, alloc, &lines, posters, takers, queue, rush, set, &mut desks, gate,
    )?;
    Ok((desks.len(), replies))
}

// Runs this file by so many posters and takers over new queues and a new set, which are watched so, with this gate. Answers how many
// desks there are, and the replies.
pub(super) fn run_watched<
    R: Threads + Wait + Sync,
    F: Domain<Rule = Fifo> + Sync + Drop,
    C: Domain<Rule = Chain> + Sync + Drop,
    W: Watch + Sync,
    V: Watch + Sync,
    G: Gate + Sync,
>(
    rt: &R,
    alloc: Global,
    text: &[u8],
    posters: u32,
    takers: u32,
    watches: (&W, &W, &V),
    gate: &G,
) -> Result<(usize, Replies), Unmade>
where
    F::Pass: Send,
    C::Pass: Send,
    requires short { length text.now ≤ MOST_BYTES }
    requires posters { (1 ≤ posters) × (posters ≤ 8) × (takers ≤ 7) }
{
    let agents = 1 + posters + takers;
    let (inner, queue_passes) = new_queue::<F>(alloc, 16, agents)?;
    let queue = Watched {
        inner,
        watch: watches.0,
    };
    let (inner, rush_passes) = new_queue::<F>(alloc, 16, agents)?;
    let rush = Watched {
        inner,
        watch: watches.1,
    };
    let (inner, set_passes) = new_set::<C>(alloc, 16, agents, 16)?;
    let set = Watched {
        inner,
        watch: watches.2,
    };
    let passes = (queue_passes, rush_passes, set_passes);
    let ran = run_over(
        rt, alloc, text, posters, takers, &queue, &rush, &set, passes, gate,
    )?;
    Ok(ran)
}
