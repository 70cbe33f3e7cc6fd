//! Queues of one agent that do right and wrong.

use super::asked;
use orc_stress::{Answer, Ask, Container, Counts, Outcome, drive, judge};
use std::alloc::Global;
use std::collections::VecDeque;
use std::test::Fail;
use std::thread::Threads;
use std::time::{Clock, Instant};

// What a shelf does wrong.
#[derive(Clone, Copy, Debug, PartialEq, Eq, Drop)]
enum Fault {
    None,
    // the second job is lost
    Loses,
    // the first job is taken twice
    Repeats,
    // the last job is taken first
    TurnsRound,
    // the first take finds nothing
    Hides,
}

// A queue for one agent, whose jobs lie in its pass.
#[derive(Drop)]
struct Shelf {
    fault: Fault,
}

// The jobs that lie on a shelf, and how many were put there, asked for and taken.
#[derive(Drop)]
struct Jobs {
    jobs: VecDeque<(u64, u64)>,
    put: u64,
    asked: u64,
    taken: u64,
}

impl Shelf {
    // Puts a job on the shelf.
    fn put(&self, p: &mut Jobs, job: u64) -> Outcome {
        let at = p.put;
        p.put = at.wrapping_add(1);
        if self.fault == Fault::Loses && at == 1 {
            return Outcome::Put(job, at);
        }
        match p.jobs.push_back((job, at)) {
            Ok(()) => Outcome::Put(job, at),
            Err(_) => Outcome::Refused(Answer::NoNode),
        }
    }

    // Takes a job from the shelf.
    fn take(&self, p: &mut Jobs) -> Outcome {
        p.asked = p.asked.wrapping_add(1);
        if self.fault == Fault::Hides && p.asked == 1 {
            return Outcome::Empty;
        }
        let next = if self.fault == Fault::TurnsRound {
            p.jobs.pop_back()
        } else {
            p.jobs.pop_front()
        };
        let Some((job, at)) = next else {
            return Outcome::Empty;
        };
        if self.fault == Fault::Repeats && p.taken == 0 && p.jobs.push_front((job, at)).is_err() {
            return Outcome::Refused(Answer::NoNode);
        }
        p.taken = p.taken.wrapping_add(1);
        Outcome::Taken(job, at)
    }
}

impl Container for Shelf {
    type Pass = Jobs;

    type Hold = ();

    ghost ready = { λ c p. Unit {0} };

    ghost agent_of = { λ c p. 0 };

    ghost stopped = { λ c hold p. Unit {0} };

    fn agent(&self, _p: &Jobs) -> u32 {
        0
    }

    fn call(&self, p: &mut Jobs, ask: &Ask) -> Outcome {
        match ask {
            Ask::Give(job) | Ask::GiveAndStop(job) => self.put(p, *job),
            _ => self.take(p),
        }
    }

    fn backlog(&self, _p: &Jobs) -> u32 {
        0
    }

    fn stop(&self, _p: &mut Jobs) -> ((), Outcome) {
        ((), Outcome::Unchanged)
    }

    fn go_on(&self, _p: &mut Jobs, _hold: ()) -> u32 {
        0
    }
}

// Whether four calls of one agent on such a shelf are told to be right, where the domain counted so.
fn is_right<R: Threads + Clock + Print + Sync>(
    rt: &R,
    alloc: Global,
    fault: Fault,
    mix: &str,
    counts: &Counts,
) -> Result<bool, Fail> {
    let Ok(settings) = asked(alloc, &["--threads=1", "--calls=4", mix])? else {
        return Ok(false);
    };
    let jobs = Jobs {
        jobs: VecDeque::new(alloc),
        put: 0,
        asked: 0,
        taken: 0,
    };
    let passes = vec![in alloc; jobs]?;
    let instant = Instant::now(rt)?;
    let (_passes, driven) = drive(rt, alloc, &Shelf { fault }, passes, &settings.plan, instant)?;
    Ok(judge(rt, &settings, &driven, counts)?)
}

// Of three rows two came back, and the last one is the dummy.
#[test]
fn a_shelf_is_judged(rt: HostRuntime) -> Result<(), Fail> {
    let rest = Counts {
        given: 3,
        reused: 2,
        linked: 1,
    };
    let cases = [
        (Fault::None, "--mix=pairs", true),
        (Fault::None, "--mix=apart", true),
        (Fault::Loses, "--mix=pairs", false),
        (Fault::Loses, "--mix=apart", false),
        (Fault::Repeats, "--mix=pairs", false),
        (Fault::TurnsRound, "--mix=apart", false),
        (Fault::Hides, "--mix=pairs", false),
    ];
    for (fault, mix, right) in cases {
        let judged = is_right(&rt, rt.alloc(), fault, mix, &rest)?;
        assert_eq!(rt; judged, right, "{fault:?} {mix}");
    }
    Ok(())
}

#[test]
fn rows_that_leak_are_wrong(rt: HostRuntime) -> Result<(), Fail> {
    let leaks = Counts {
        given: 3,
        reused: 1,
        linked: 1,
    };
    assert!(rt; !is_right(&rt, rt.alloc(), Fault::None, "--mix=pairs", &leaks)?);
    Ok(())
}
