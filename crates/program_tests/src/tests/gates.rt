//! Gates that hold a worker until another has come.

use orc_board::Gate;
use std::sync::atomic::{AtomicU64, Ordering};

// For how many looks a worker is held at most.
const LOOKS: u64 = 1 << 30;

// Waits until the number is at least this one, and answers whether it came to it in time.
pub(crate) fn comes_to(number: &AtomicU64, least: u64) -> bool {
    for _ in 0..LOOKS {
        if number.load(Ordering::SeqCst) >= least {
            return true;
        }
    }
    false
}

// Holds each of workers 1 and 2 before its first line until the other has come there, and counts who saw the other come.
#[derive(Drop)]
pub(crate) struct TwoMeet {
    first: AtomicU64,
    second: AtomicU64,
    met: AtomicU64,
}

impl TwoMeet {
    pub(crate) fn new() -> TwoMeet {
        TwoMeet {
            first: AtomicU64::new(0),
            second: AtomicU64::new(0),
            met: AtomicU64::new(0),
        }
    }

    // How many saw the other come.
    pub(crate) fn met(&self) -> u64 {
        self.met.load(Ordering::SeqCst)
    }
}

impl Gate for TwoMeet {
    fn before(&self, worker: u32, call: u64) {
        let (own, other) = match (worker, call) {
            (1, 0) => (&self.first, &self.second),
            (2, 0) => (&self.second, &self.first),
            _ => return,
        };
        own.store(1, Ordering::SeqCst);
        if comes_to(other, 1) {
            self.met.fetch_add(1, Ordering::SeqCst);
        }
    }
}
