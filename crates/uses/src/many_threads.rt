//! Agents call at once, each in a thread of its own.

ghost use Rattle.std.specs.Prelude.{◌≡◌, ◌<◌, All, length};

use orc_history::{SharedQueue, SharedSet};
use std::sync::atomic::{AtomicU64, Ordering};
use std::thread::{Threads, for_each_mut};

// What the calls of a queue by all agents came to, added up.
#[derive(Drop)]
pub(crate) struct QueueSums {
    put: AtomicU64,
    taken: AtomicU64,
    answered: AtomicU64,
}

impl QueueSums {
    // No call was made yet.
    pub(crate) fn new() -> QueueSums {
        QueueSums {
            put: AtomicU64::new(0),
            taken: AtomicU64::new(0),
            answered: AtomicU64::new(0),
        }
    }

    // How many jobs were put.
    pub(crate) fn put(&self) -> u64 {
        self.put.load(Ordering::SeqCst)
    }

    // How many jobs were taken.
    pub(crate) fn taken(&self) -> u64 {
        self.taken.load(Ordering::SeqCst)
    }

    // How many calls were answered.
    pub(crate) fn answered(&self) -> u64 {
        self.answered.load(Ordering::SeqCst)
    }
}

// Puts and takes in turn.
fn put_and_take<Q: SharedQueue>(queue: &Q, p: &mut Q::Pass, rounds: u64, sums: &QueueSums)
    requires { Q.usable queue.now p.old }
    ensures { Q.usable queue.now p.new }
{
    for job in 0..rounds {
        if queue.enqueue(p, job, 64).is_ok() {
            sums.put.fetch_add(1, Ordering::SeqCst);
            sums.answered.fetch_add(1, Ordering::SeqCst);
        }
        if let Ok(got) = queue.dequeue(p, 64) {
            sums.taken
                .fetch_add(u64::from(got.is_some()), Ordering::SeqCst);
            sums.answered.fetch_add(1, Ordering::SeqCst);
        }
    }
}

// Each agent puts and takes in turn, in so many rounds, in a thread of its own.
pub(crate) fn put_and_take_by_all<R: Threads + Sync, Q: SharedQueue + Sync>(
    rt: &R,
    queue: &Q,
    passes: &mut [Q::Pass],
    rounds: u64,
    sums: &QueueSums,
)
where
    Q::Pass: Send,
    requires usable { All (λ p. Q.usable queue.now p) passes.old }
    ensures usable { All (λ p. Q.usable queue.now p) passes.new }
    ensures many { length passes.new ≡ length passes.old }
{
    let calls = move |_: usize, p: &mut Q::Pass|
        requires { Q.usable queue.now p.old }
        ensures { Q.usable queue.entry.now p.new }
    { put_and_take(queue, p, rounds, sums) };
    for_each_mut(rt, passes, 16, &calls);
}

// What the calls of a set by all agents came to, added up.
#[derive(Drop)]
pub(crate) struct SetSums {
    added: AtomicU64,
    answered: AtomicU64,
    balance: AtomicU64,
}

impl SetSums {
    // No call was made yet.
    pub(crate) fn new() -> SetSums {
        SetSums {
            added: AtomicU64::new(0),
            answered: AtomicU64::new(0),
            balance: AtomicU64::new(0),
        }
    }

    // How many keys were added.
    pub(crate) fn added(&self) -> u64 {
        self.added.load(Ordering::SeqCst)
    }

    // How many calls were answered.
    pub(crate) fn answered(&self) -> u64 {
        self.answered.load(Ordering::SeqCst)
    }

    // The bits of the keys that were added, less those of the keys that were taken out.
    pub(crate) fn balance(&self) -> u64 {
        self.balance.load(Ordering::SeqCst)
    }
}

// The bit of a key below 64.
fn bit_of(key: u64) -> u64 {
    let place = (key % 64) as u32;
    1u64.wrapping_shl(place)
}

// Inserts, removes and asks in turn, over so many keys in this stride.
fn call_in_turn<S: SharedSet>(
    set: &S,
    p: &mut S::Pass,
    keys: u64,
    calls: u64,
    stride: u64,
    sums: &SetSums,
)
    requires keys { 0 < keys }
    requires usable { S.usable set.now p.old }
    ensures { S.usable set.now p.new }
{
    for call in 0..calls {
        let key = call.wrapping_mul(stride) % keys;
        let answered = match call % 3 {
            0 => {
                let added = set.insert(p, key, 64);
                if added == Ok(true) {
                    sums.added.fetch_add(1, Ordering::SeqCst);
                    sums.balance.fetch_add(bit_of(key), Ordering::SeqCst);
                }
                added.is_ok()
            }
            1 => {
                let taken_out = set.remove(p, key, 64);
                if taken_out == Ok(true) {
                    sums.balance.fetch_sub(bit_of(key), Ordering::SeqCst);
                }
                taken_out.is_ok()
            }
            _ => set.contains(p, key, 64).is_ok(),
        };
        sums.answered
            .fetch_add(u64::from(answered), Ordering::SeqCst);
    }
}

// Each agent inserts, removes and asks in turn, in so many calls over so many keys, in a thread of its own.
fn add_and_take_out_by_all<R: Threads + Sync, S: SharedSet + Sync>(
    rt: &R,
    set: &S,
    passes: &mut [S::Pass],
    keys: u64,
    calls: u64,
    sums: &SetSums,
)
where
    S::Pass: Send,
    requires keys { 0 < keys }
    requires usable { All (λ p. S.usable set.now p) passes.old }
    ensures usable { All (λ p. S.usable set.now p) passes.new }
    ensures many { length passes.new ≡ length passes.old }
{
    let calls_in_turn = move |place: usize, p: &mut S::Pass|
        requires { (0 < keys) × S.usable set.now p.old }
        ensures { S.usable set.entry.now p.new }
    {
        let stride = (place as u64).wrapping_mul(2).wrapping_add(1);
        call_in_turn(set, p, keys, calls, stride, sums)
    };
    for_each_mut(rt, passes, 16, &calls_in_turn);
}

// The bits of the keys below 64 that are present.
fn bits_present<S: SharedSet>(set: &S, p: &mut S::Pass) -> u64
    requires { S.usable set.now p.old }
    ensures { S.usable set.now p.new }
{
    let mut bits: u64 = 0;
    for key in 0..64 {
        if set.contains(p, key, 1) == Ok(true) {
            bits = bits.wrapping_add(bit_of(key));
        }
    }
    bits
}

// The bits of the keys below 64 that are present, as the first agent finds them while no other calls. None where there is no
// pass.
fn present<S: SharedSet>(set: &S, passes: &mut [S::Pass]) -> Option<u64>
    requires usable { All (λ p. S.usable set.now p) passes.old }
    ensures usable { All (λ p. S.usable set.now p) passes.new }
    ensures many { length passes.new ≡ length passes.old }
{
    if passes.is_empty() {
        return None;
    }
    Some(bits_present(set, &mut passes[0]))
}

// Each agent inserts, removes and asks in turn, in so many calls over 64 keys, in a thread of its own. Answers the bits of the keys
// that are then present.
pub(crate) fn bits_left_by_all<R: Threads + Sync, S: SharedSet + Sync>(
    rt: &R,
    set: &S,
    passes: &mut [S::Pass],
    calls: u64,
    sums: &SetSums,
) -> Option<u64>
where
    S::Pass: Send,
    requires usable { All (λ p. S.usable set.now p) passes.old }
    ensures usable { All (λ p. S.usable set.now p) passes.new }
    ensures many { length passes.new ≡ length passes.old }
{
    add_and_take_out_by_all(rt, set, passes, 64, calls, sums);
    present(set, passes)
}
