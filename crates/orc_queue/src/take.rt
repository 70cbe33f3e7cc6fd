//! Taking the job at the front, turn by turn.

ghost use Rattle.std.specs.Prelude.{◌≡◌, ℕ, true};
ghost use mathlib.Core.List.{IsPrefix};
ghost use Rattle.orc_heap.specs.{Journals.{run_heap}, Seats.{IsIdle}, Slots.{Holds, IsFree, id_in}, Allowed.{HasLink}, Heap.{link_to}};
ghost use Rattle.orc_fifo_rule.specs.Watches.{WasNamed};
ghost use Rattle.orc_queue.specs.{Answers.{TakeAnswers}, Turns.{HasDummy, TakesBehind, TakesFromHead, TakesTurn, TakesTurns}};

use crate::swings::{HEAD, Successor, TAIL, change, help_tail, hold_next, hold_root};
use orc_fault::Again;
use orc_fifo_rule::{Fifo, FifoNote};
use orc_heap::{At, Held, Links, Want};
use orc_history::QueueEntry;

/// How a turn of a take ended.
#[derive(Clone, Copy)]
pub enum TakeTurn {
    /// With no answer.
    Over,
    /// This job was taken, which was put at this position.
    Took(u64, u64),
    /// The queue was empty.
    Empty,
}

// Goes on from the head and its successor: helps the tail on if it still names the head, or takes the job, and the head goes on.
fn take_next<L: Links<Rule = Fifo>>(
    links: &L,
    p: &mut L::Pass,
    head: &Held,
    next: &Held,
) -> TakeTurn
    requires pass { L.belongs links.now p.old }
    requires made { HasDummy (L.numbers links.now) (L.opening links.now) }
    requires held { Holds (L.seat links.now p.old).slots head.now × Holds (L.seat links.now p.old).slots next.now }
    requires named { WasNamed (run_heap (L.numbers links.now) (L.seat links.now p.old).seen) 0 (id_in (L.seat links.now p.old).slots head.now) }
    requires successor { HasLink (run_heap (L.numbers links.now) (L.seat links.now p.old).seen)
        (id_in (L.seat links.now p.old).slots head.now) (link_to (id_in (L.seat links.now p.old).slots next.now)) }
    ensures pass { L.belongs links.now p.new }
    ensures later { IsPrefix (L.journal p.old) (L.journal p.new) }
    ensures took { TakesFromHead (L.numbers links.now) (id_in (L.seat links.now p.old).slots head.now) (id_in (L.seat links.now p.old).slots next.now)
        (L.seat links.now p.old) result (L.seat links.now p.new) }
{
    if links.same(p, &At::Root(TAIL), &Want::Node(head, false), None) {
        help_tail(links, p, head, next);
        return TakeTurn::Over;
    }
    let job = links.value(p, next, 0);
    let at = links.value(p, next, 1) - 1;
    let agent = links.agent(p);
    let took = FifoNote::Entry(QueueEntry::Took { agent, job, at });
    let new = Want::Node(next, false);
    if change(
        links,
        p,
        &At::Root(HEAD),
        &Want::Node(head, false),
        &new,
        took,
    ) {
        TakeTurn::Took(job, at)
    } else {
        TakeTurn::Over
    }
}

// Goes on from the node that the head named. If its link is null, and still is in a test, then the queue is empty.
fn take_behind<L: Links<Rule = Fifo>>(links: &L, p: &mut L::Pass, head: &Held) -> TakeTurn
    requires pass { L.belongs links.now p.old }
    requires made { HasDummy (L.numbers links.now) (L.opening links.now) }
    requires held { Holds (L.seat links.now p.old).slots head.now }
    requires slot { IsFree (L.seat links.now p.old).slots 2 }
    requires named { WasNamed (run_heap (L.numbers links.now) (L.seat links.now p.old).seen) 0 (id_in (L.seat links.now p.old).slots head.now) }
    ensures pass { L.belongs links.now p.new }
    ensures later { IsPrefix (L.journal p.old) (L.journal p.new) }
    ensures took { TakesBehind (L.numbers links.now) (id_in (L.seat links.now p.old).slots head.now) (L.seat links.now p.old) result (L.seat links.now p.new) }
{
    match hold_next(links, p, head, 2) {
        Successor::Nothing => {
            let agent = links.agent(p);
            let empty = FifoNote::Entry(QueueEntry::Empty { agent });
            if links.same(p, &At::Node(head), &Want::Null(false), Some(empty)) {
                TakeTurn::Empty
            } else {
                TakeTurn::Over
            }
        }
        Successor::Node(next) => {
            let turn = take_next(links, p, head, &next);
            links.release(p, next);
            turn
        }
        Successor::Differs => TakeTurn::Over,
    }
}

// Makes one turn of a take.
fn take_turn<L: Links<Rule = Fifo>>(links: &L, p: &mut L::Pass) -> TakeTurn
    requires pass { L.belongs links.now p.old }
    requires made { HasDummy (L.numbers links.now) (L.opening links.now) }
    requires slots { IsFree (L.seat links.now p.old).slots 1 × IsFree (L.seat links.now p.old).slots 2 }
    ensures pass { L.belongs links.now p.new }
    ensures later { IsPrefix (L.journal p.old) (L.journal p.new) }
    ensures took { TakesTurn (L.numbers links.now) (L.seat links.now p.old) result (L.seat links.now p.new) }
{
    match hold_root(links, p, HEAD, 1) {
        Some(head) => {
            let turn = take_behind(links, p, &head);
            links.release(p, head);
            turn
        }
        None => TakeTurn::Over,
    }
}

// Takes a job, in at most so many turns.
pub(crate) fn take_turns<L: Links<Rule = Fifo>>(links: &L, p: &mut L::Pass, turns: u64) -> TakeTurn
    requires pass { L.belongs links.now p.old }
    requires made { HasDummy (L.numbers links.now) (L.opening links.now) }
    requires slots { IsFree (L.seat links.now p.old).slots 1 × IsFree (L.seat links.now p.old).slots 2 }
    ensures pass { L.belongs links.now p.new }
    ensures later { IsPrefix (L.journal p.old) (L.journal p.new) }
    ensures took { TakesTurns (L.numbers links.now) turns (L.seat links.now p.old) result (L.seat links.now p.new) }
{
    for _ in 0..turns {
        match take_turn(links, p) {
            TakeTurn::Over => {}
            turn => return turn,
        }
    }
    TakeTurn::Over
}

// Takes the job at the front, in at most so many turns.
pub(crate) fn take_job<L: Links<Rule = Fifo>>(
    links: &L,
    p: &mut L::Pass,
    turns: u64,
) -> Result<Option<(u64, u64)>, Again>
    requires pass { L.belongs links.now p.old }
    requires made { HasDummy (L.numbers links.now) (L.opening links.now) }
    requires idle { IsIdle (L.seat links.now p.old) }
    ensures pass { L.belongs links.now p.new }
    ensures later { IsPrefix (L.journal p.old) (L.journal p.new) }
    ensures answered { TakeAnswers turns (L.seat links.now p.old) result (L.seat links.now p.new) }
{
    match take_turns(links, p, turns) {
        TakeTurn::Took(job, at) => Ok(Some((job, at))),
        TakeTurn::Empty => Ok(None),
        TakeTurn::Over => Err(Again),
    }
}
