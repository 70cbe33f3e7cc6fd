//! When calls showed the values of one side of a cell, and whether these can have stood there one after another.

use std::alloc::{AllocError, Global};
use std::sync::atomic::{AtomicU64, Ordering};

// Of one value: when the first call that showed it ended, and when the last one began.
#[derive(Drop)]
struct Shown {
    ended: AtomicU64,
    begun: AtomicU64,
}

// The end, where no call showed the value.
const NEVER: u64 = u64::MAX;

// The values of a side, by number, each of which stands there once and for one stretch of time. One thread at a time looks at them.
#[derive(Drop)]
pub(crate) struct Order {
    shown: Vec<Shown>,
    // by time: the latest begin of a call that showed a value which another call had shown and ended before
    latest: Vec<AtomicU64>,
}

impl Order {
    // Room for so many values, and for times below this one.
    pub(crate) fn new(alloc: Global, values: u64, times: u64) -> Result<Order, AllocError> {
        let mut shown = Vec::new(alloc);
        for _ in 0..values {
            shown.push(Shown {
                ended: AtomicU64::new(NEVER),
                begun: AtomicU64::new(0),
            })?;
        }
        let mut latest = Vec::new(alloc);
        for _ in 0..times {
            latest.push(AtomicU64::new(0))?;
        }
        Ok(Order { shown, latest })
    }

    // No value was shown.
    pub(crate) fn clear(&self) {
        for shown in self.shown.iter() {
            shown.ended.store(NEVER, Ordering::SeqCst);
            shown.begun.store(0, Ordering::SeqCst);
        }
        for latest in self.latest.iter() {
            latest.store(0, Ordering::SeqCst);
        }
    }

    // A call showed the value, which began and ended then.
    pub(crate) fn show(&self, value: usize, begun: u64, ended: u64) {
        if let Some(shown) = self.shown.get(value) {
            shown.ended.fetch_min(ended, Ordering::SeqCst);
            shown.begun.fetch_max(begun, Ordering::SeqCst);
        }
    }

    // Puts down at each time the latest begin of a call that showed a value shown before. Only one call ends at a time.
    fn find_latest(&self) {
        for shown in self.shown.iter() {
            let ended = shown.ended.load(Ordering::SeqCst);
            if let Some(latest) = self.latest.get(ended as usize) {
                latest.store(shown.begun.load(Ordering::SeqCst), Ordering::SeqCst);
            }
        }
        let mut most: u64 = 0;
        for latest in self.latest.iter() {
            let begun = latest.swap(most, Ordering::SeqCst);
            most = most.max(begun);
        }
    }

    // Whether no two values came each before the other. One came before another where a call that showed it ended before one that
    // showed the other began.
    pub(crate) fn is_one(&self) -> bool {
        self.find_latest();
        for shown in self.shown.iter() {
            let ended = shown.ended.load(Ordering::SeqCst);
            let time = ended.min(shown.begun.load(Ordering::SeqCst));
            if let Some(latest) = self.latest.get(time as usize) {
                if latest.load(Ordering::SeqCst) > ended {
                    return false;
                }
            }
        }
        true
    }
}
