//! All workers, each on a thread of its own where one can be started.
ghost use Rattle.std.specs.Prelude.{◌≡◌, ◌≤◌, ◌+◌, vec_len, vec_capacity};
ghost use Rattle.std.specs.Thread.{IsSync};
ghost use Rattle.std.specs.List.{AllByRecursion};
ghost use Rattle.orc_team.specs.Team.{MayWork, Team, Worked};

use std::thread;
use std::thread::Threads;

/// A worker before its work, or after it.
#[derive(Drop)]
pub struct Worker<D, T> {
    /// The number of its agent, from 1.
    pub agent: u32,
    /// Its passes.
    pub desk: D,
    /// What came of its work, and room for more.
    pub replies: T,
}

/// Lets each of these workers work, each on a thread of its own where one can be started, the last of them first. One whose thread
/// can't be started works here, after those that were started later. `done` has room for all; they stand there in their order.
#[cycle(workers)]
pub fn run_workers<R: Threads + Sync, W: Send + Drop, F: Fn(W) -> W + Sync>(
    rt: &R,
    work: &F,
    mut waiting: Vec<W>,
    done: Vec<W>,
) -> Vec<W>
    requires room { vec_len done + vec_len waiting ≤ vec_capacity done }
    requires ready { AllByRecursion (MayWork F.Fn work.now) waiting.items }
    ensures team { Team (Worked F.Fn work.now) waiting.items done.items result.items }
    ensures room { vec_capacity done ≤ vec_capacity result }
    ensures len { vec_len result ≡ vec_len done + vec_len waiting }
{
    let Some(worker) = waiting.pop() else {
        return done;
    };
    let one = move || -> W
        requires { MayWork F.Fn work.now worker }
        ensures { Worked F.Fn work.entry.now worker result }
    { work(worker) };
    let others = move || -> Vec<W>
        requires { IsSync R.row × (vec_len done + vec_len waiting ≤ vec_capacity done)
            × AllByRecursion (MayWork F.Fn work.now) waiting.items }
        ensures team { Team (Worked F.Fn work.entry.now) waiting.items done.items result.items }
        ensures room { vec_capacity done ≤ vec_capacity result }
        ensures len { vec_len result ≡ vec_len done + vec_len waiting }
    { run_workers(rt, work, waiting, done) };
    let (worker, mut done) = thread::join(rt, one, others);
    let Ok(()) = done.push(worker) else {
        unreachable!()
    };
    done
}
