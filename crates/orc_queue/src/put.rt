//! Putting a job at the back, turn by turn.

ghost use Rattle.std.specs.Prelude.{◌≡◌, ℕ, Err, true};
ghost use mathlib.Core.List.{IsPrefix};
ghost use Rattle.orc_heap.specs.{Journals.{run_heap}, Seats.{IsIdle}, Slots.{Holds, IsFree, id_in}};
ghost use Rattle.orc_fifo_rule.specs.Watches.{WasNamed};
ghost use Rattle.orc_history.specs.{Parts.{InPart}, declared.queue.QueueRefused.{QueueRefused}};
ghost use Rattle.orc_queue.specs.{
  Answers.{PutAnswers},
  Turns.{HasDummy, HoldsNode, KeepsTail, LinksBehind, PutsBehind, PutsTurn, PutsTurns, SwingsLast},
};

use crate::swings::{Successor, TAIL, change, help_tail, hold_next, hold_root};
use orc_fifo_rule::{Fifo, FifoNote};
use orc_heap::{At, Held, Links, Want};
use orc_history::{QueueEntry, QueueRefused};

// Every position is below this.
pub(crate) const POSITIONS: u64 = 1 << 62;

/// How a turn of a put ended.
#[derive(Clone, Copy)]
pub enum PutTurn {
    /// With no answer.
    Over,
    /// The job was put, at this position.
    Put(u64),
    /// No position is left.
    Full,
}

// Links the new node behind the last one.
#[inline(always)]
pub(crate) fn link_node<L: Links<Rule = Fifo>>(
    links: &L,
    p: &mut L::Pass,
    node: &Held,
    job: u64,
    tail: &Held,
) -> PutTurn
    requires pass { L.belongs links.now p.old }
    requires made { HasDummy (L.numbers links.now) (L.opening links.now) }
    requires node { HoldsNode (L.numbers links.now) job node.now (L.seat links.now p.old) }
    requires tail { Holds (L.seat links.now p.old).slots tail.now }
    requires named { WasNamed (run_heap (L.numbers links.now) (L.seat links.now p.old).seen) 1 (id_in (L.seat links.now p.old).slots tail.now) }
    ensures pass { L.belongs links.now p.new }
    ensures later { IsPrefix (L.journal p.old) (L.journal p.new) }
    ensures linked { LinksBehind (L.numbers links.now) 2 KeepsTail job (id_in (L.seat links.now p.old).slots tail.now) node.now
        (L.seat links.now p.old) result (L.seat links.now p.new) }
{
    let at = links.value(p, tail, 1);
    if at >= POSITIONS {
        return PutTurn::Full;
    }
    links.fill(p, node, 1, at + 1);
    let agent = links.agent(p);
    let put = FifoNote::Entry(QueueEntry::Put { agent, job, at });
    let new = Want::Node(node, false);
    if change(links, p, &At::Node(tail), &Want::Null(false), &new, put) {
        PutTurn::Put(at)
    } else {
        PutTurn::Over
    }
}

// Links the new node behind the last one, and then swings the tail on to it.
fn link_behind<L: Links<Rule = Fifo>>(
    links: &L,
    p: &mut L::Pass,
    node: &Held,
    job: u64,
    tail: &Held,
) -> PutTurn
    requires pass { L.belongs links.now p.old }
    requires made { HasDummy (L.numbers links.now) (L.opening links.now) }
    requires node { HoldsNode (L.numbers links.now) job node.now (L.seat links.now p.old) }
    requires tail { Holds (L.seat links.now p.old).slots tail.now }
    requires named { WasNamed (run_heap (L.numbers links.now) (L.seat links.now p.old).seen) 1 (id_in (L.seat links.now p.old).slots tail.now) }
    ensures pass { L.belongs links.now p.new }
    ensures later { IsPrefix (L.journal p.old) (L.journal p.new) }
    ensures linked { LinksBehind (L.numbers links.now) 3 (SwingsLast (id_in (L.seat links.now p.old).slots tail.now)) job
        (id_in (L.seat links.now p.old).slots tail.now) node.now (L.seat links.now p.old) result (L.seat links.now p.new) }
{
    match link_node(links, p, node, job, tail) {
        PutTurn::Put(at) => {
            help_tail(links, p, tail, node);
            PutTurn::Put(at)
        }
        turn => turn,
    }
}

// Goes on from the node that the tail named: helps the tail on, or links the new node there.
fn put_behind<L: Links<Rule = Fifo>>(
    links: &L,
    p: &mut L::Pass,
    node: &Held,
    job: u64,
    tail: &Held,
) -> PutTurn
    requires pass { L.belongs links.now p.old }
    requires made { HasDummy (L.numbers links.now) (L.opening links.now) }
    requires node { HoldsNode (L.numbers links.now) job node.now (L.seat links.now p.old) }
    requires tail { Holds (L.seat links.now p.old).slots tail.now }
    requires slot { IsFree (L.seat links.now p.old).slots 3 }
    requires named { WasNamed (run_heap (L.numbers links.now) (L.seat links.now p.old).seen) 1 (id_in (L.seat links.now p.old).slots tail.now) }
    ensures pass { L.belongs links.now p.new }
    ensures later { IsPrefix (L.journal p.old) (L.journal p.new) }
    ensures put { PutsBehind (L.numbers links.now) job (id_in (L.seat links.now p.old).slots tail.now) node.now (L.seat links.now p.old) result
        (L.seat links.now p.new) }
{
    match hold_next(links, p, tail, 3) {
        Successor::Nothing => link_behind(links, p, node, job, tail),
        Successor::Node(next) => {
            help_tail(links, p, tail, &next);
            links.release(p, next);
            PutTurn::Over
        }
        Successor::Differs => PutTurn::Over,
    }
}

// Makes one turn of a put.
fn put_turn<L: Links<Rule = Fifo>>(links: &L, p: &mut L::Pass, node: &Held, job: u64) -> PutTurn
    requires pass { L.belongs links.now p.old }
    requires made { HasDummy (L.numbers links.now) (L.opening links.now) }
    requires node { HoldsNode (L.numbers links.now) job node.now (L.seat links.now p.old) }
    requires slots { IsFree (L.seat links.now p.old).slots 2 × IsFree (L.seat links.now p.old).slots 3 }
    ensures pass { L.belongs links.now p.new }
    ensures later { IsPrefix (L.journal p.old) (L.journal p.new) }
    ensures put { PutsTurn (L.numbers links.now) job node.now (L.seat links.now p.old) result (L.seat links.now p.new) }
{
    match hold_root(links, p, TAIL, 2) {
        Some(tail) => {
            let turn = put_behind(links, p, node, job, &tail);
            links.release(p, tail);
            turn
        }
        None => PutTurn::Over,
    }
}

// Puts the fresh node, in at most so many turns.
pub(crate) fn put_turns<L: Links<Rule = Fifo>>(
    links: &L,
    p: &mut L::Pass,
    node: &Held,
    job: u64,
    turns: u64,
) -> PutTurn
    requires pass { L.belongs links.now p.old }
    requires made { HasDummy (L.numbers links.now) (L.opening links.now) }
    requires node { HoldsNode (L.numbers links.now) job node.now (L.seat links.now p.old) }
    requires slots { IsFree (L.seat links.now p.old).slots 2 × IsFree (L.seat links.now p.old).slots 3 }
    ensures pass { L.belongs links.now p.new }
    ensures later { IsPrefix (L.journal p.old) (L.journal p.new) }
    ensures put { PutsTurns (L.numbers links.now) job turns node.now (L.seat links.now p.old) result (L.seat links.now p.new) }
{
    for _ in 0..turns {
        match put_turn(links, p, node, job) {
            PutTurn::Over => {}
            turn => return turn,
        }
    }
    PutTurn::Over
}

// Puts the job in a new node, in at most so many turns.
pub(crate) fn put_job<L: Links<Rule = Fifo>>(
    links: &L,
    p: &mut L::Pass,
    job: u64,
    turns: u64,
) -> Result<u64, QueueRefused>
    requires pass { L.belongs links.now p.old }
    requires made { HasDummy (L.numbers links.now) (L.opening links.now) }
    requires idle { IsIdle (L.seat links.now p.old) }
    ensures pass { L.belongs links.now p.new }
    ensures later { IsPrefix (L.journal p.old) (L.journal p.new) }
    ensures answered { PutAnswers (L.numbers links.now) job turns (L.seat links.now p.old) result (L.seat links.now p.new) }
    ensures lacking { result ≡ Err QueueRefused.NoNode → InPart L.agent_of (L.seat links.now p.old).agent (L.journal p.old) (L.journal p.new)
        (L.lacking links.now (L.seat links.now p.old).agent (L.journal p.new)) }
{
    if turns == 0 {
        return Err(QueueRefused::Again);
    }
    let node = match links.give(p, 1, job, 0) {
        Ok(node) => node,
        Err(_) => return Err(QueueRefused::NoNode),
    };
    let turn = put_turns(links, p, &node, job, turns);
    links.release(p, node);
    match turn {
        PutTurn::Put(at) => Ok(at),
        PutTurn::Full => Err(QueueRefused::Positions),
        PutTurn::Over => Err(QueueRefused::Again),
    }
}
