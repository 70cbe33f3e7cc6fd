//! That posters and takers work beside each other, which no contract says: gates that hold one until another has come.

use super::super::gates::{TwoMeet, comes_to};
use super::run_posts;
use orc_board::Gate;
use std::sync::atomic::{AtomicU64, Ordering};
use std::test::Fail;

#[test]
fn two_posters_each_see_the_other_come(rt: HostRuntime) -> Result<(), Fail> {
    let gate = TwoMeet::new();
    let _ran = run_posts(&rt, rt.alloc(), 6, 2, 0, 16, &gate)?;
    assert!(rt; gate.met() == 2);
    Ok(())
}

// Holds poster 1 before its first line until agent 2, a taker, has come to its second take.
#[derive(Drop)]
struct TakerGoesOn {
    again: AtomicU64,
    seen: AtomicU64,
}

impl Gate for TakerGoesOn {
    fn before(&self, worker: u32, call: u64) {
        if worker == 1 && call == 0 && comes_to(&self.again, 1) {
            self.seen.store(1, Ordering::SeqCst);
        }
        if worker == 2 && call == 1 {
            self.again.store(1, Ordering::SeqCst);
        }
    }
}

#[test]
fn a_taker_goes_on_while_a_poster_is_left(rt: HostRuntime) -> Result<(), Fail> {
    let gate = TakerGoesOn {
        again: AtomicU64::new(0),
        seen: AtomicU64::new(0),
    };
    let _ran = run_posts(&rt, rt.alloc(), 2, 1, 1, 16, &gate)?;
    assert!(rt; gate.seen.load(Ordering::SeqCst) == 1);
    Ok(())
}
