//! Loads of a bare atomic word, and what is told of loads through a board beside them.

use std::io;
use std::io::{Eprint, Print};
use std::sync::atomic::{AtomicU64, Ordering};
use std::time::{Clock, Instant};

// Sums what so many loads of a bare word find.
#[inline(never)]
fn load_word(word: &AtomicU64, loads: u32) -> u64 {
    let mut sum: u64 = 0;
    for _load in 0..loads {
        sum = sum.wrapping_add(word.load(Ordering::SeqCst));
    }
    sum
}

// Times so many loads of a bare word, and prints what they found and took beside what as many through a board did.
pub(crate) fn compare<R: Clock + Print + Eprint>(
    rt: &R,
    loads: u32,
    links: u64,
    through: u128,
) -> io::Result<()> {
    let word = AtomicU64::new(0);
    let start = Instant::now(rt)?;
    let bare = load_word(&word, loads);
    let alone = start.elapsed(rt)?.as_micros();
    eprintln!(rt; "{loads} loads: {through} microseconds by link_load, {alone} of a bare word")?;
    println!(rt; "{links} {bare}")
}
