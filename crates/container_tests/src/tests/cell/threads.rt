//! Agents publish and read at once, each in a thread of its own.

ghost use Rattle.std.specs.Prelude.{◌≡◌, length};
ghost use Rattle.orc_heap.specs.Domains.{agent};
ghost use Rattle.orc_cell.specs.CellCalls.{IsUsable};
ghost use Rattle.container_tests.specs.CellPasses.{AreUsable};

use orc_cell::Cell;
use orc_heap::Links;
use orc_pairs_rule::Pairs;
use orc_stress::{PairLog, value_of};
use std::thread::{Threads, for_each_mut};

// Makes a call: the first agent publishes left parts, the second right ones, the next two both, and others read.
fn call<L: Links<Rule = Pairs>>(
    cell: &Cell<L>,
    p: &mut L::Pass,
    place: usize,
    value: u64,
) -> Option<(u64, u64)>
    requires usable { IsUsable L.Links cell.now.links p.old }
    ensures usable { IsUsable L.Links cell.now.links p.new }
    ensures agent { agent L.Links cell.now.links p.new ≡ agent L.Links cell.now.links p.old }
{
    match place {
        0 => cell.publish(p, Some(value), None, 64).ok(),
        1 => cell.publish(p, None, Some(value), 64).ok(),
        2 | 3 => cell.publish(p, Some(value), Some(value), 64).ok(),
        _ => cell.read(p, 64).ok(),
    }
}

// Makes so many calls, and notes what each answers.
fn call_and_note<L: Links<Rule = Pairs>>(
    cell: &Cell<L>,
    p: &mut L::Pass,
    place: usize,
    calls: u32,
    log: &PairLog,
)
    requires usable { IsUsable L.Links cell.now.links p.old }
    ensures usable { IsUsable L.Links cell.now.links p.new }
    ensures agent { agent L.Links cell.now.links p.new ≡ agent L.Links cell.now.links p.old }
{
    let agent = (place % 16) as u32;
    for number in 0..calls {
        if let Some(pair) = call(cell, p, place, value_of(agent, number)) {
            log.note(agent, number, pair);
        }
    }
}

/// Each agent makes so many calls.
pub fn call_by_all<R: Threads + Sync, L: Links<Rule = Pairs> + Sync>(
    rt: &R,
    cell: &Cell<L>,
    passes: &mut [L::Pass],
    calls: u32,
    log: &PairLog,
)
where
    L::Pass: Send,
    requires usable { AreUsable L.Links cell.now.links passes.old }
    ensures usable { AreUsable L.Links cell.now.links passes.new }
    ensures many { length passes.new ≡ length passes.old }
{
    let calls_of_one = move |place: usize, p: &mut L::Pass|
        requires { IsUsable L.Links cell.now.links p.old × (agent L.Links cell.now.links p.old ≡ place) }
        ensures { IsUsable L.Links cell.entry.now.links p.new × (agent L.Links cell.entry.now.links p.new ≡ place) }
    { call_and_note(cell, p, place, calls, log) };
    for_each_mut(rt, passes, 16, &calls_of_one);
}

/// The pair that is left, as the last agent reads it.
pub fn left_over<L: Links<Rule = Pairs>>(
    cell: &Cell<L>,
    passes: &mut Vec<L::Pass>,
) -> Option<(u64, u64)>
    requires usable { AreUsable L.Links cell.now.links passes.old.items }
    ensures usable { AreUsable L.Links cell.now.links passes.new.items }
    ensures many { length passes.new.items ≡ length passes.old.items }
{
    let mut p = passes.pop()?;
    let pair = cell.read(&mut p, 1).ok();
    let Ok(()) = passes.push(p) else {
        unreachable!()
    };
    pair
}
