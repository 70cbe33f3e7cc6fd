//! A put that stops half-way, as a thread does that is stopped there: what tests of a lagging tail begin with.

ghost use Rattle.std.specs.Prelude.{◌≡◌, ◌≢◌, ◌⊎◌, ℕ, None};
ghost use mathlib.Core.List.{IsPrefix};
ghost use Rattle.orc_heap.specs.{Seats.{IsIdle}, Slots.{IsFree}};
ghost use Rattle.orc_history.specs.Parts.{InPart};
ghost use Rattle.orc_queue.specs.{Answers.{IsFullAlone, PutStops, StopsPiece, stop_entries}, Turns.{HasDummy, HoldsNode}};

use crate::put::{PutTurn, link_node};
use crate::swings::{TAIL, hold_root};
use orc_fifo_rule::Fifo;
use orc_heap::{Held, Links};

// Puts a job, and stops before the tail is swung on.
pub(crate) fn stop_a_put<L: Links<Rule = Fifo>>(links: &L, p: &mut L::Pass, job: u64) -> Option<u64>
    requires pass { L.belongs links.now p.old }
    requires made { HasDummy (L.numbers links.now) (L.opening links.now) }
    requires idle { IsIdle (L.seat links.now p.old) }
    ensures pass { L.belongs links.now p.new }
    ensures later { IsPrefix (L.journal p.old) (L.journal p.new) }
    ensures stopped { PutStops job (InPart L.agent_of (L.seat links.now p.old).agent (L.journal p.old) (L.journal p.new)
        (L.lacking links.now (L.seat links.now p.old).agent (L.journal p.new))) (L.seat links.now p.old) result (L.seat links.now p.new) }
    ensures missed { result ≡ None → InPart L.agent_of (L.seat links.now p.old).agent (L.journal p.old) (L.journal p.new)
        (L.lacking links.now (L.seat links.now p.old).agent (L.journal p.new))
        ⊎ IsFullAlone (L.numbers links.now) (L.seat links.now p.old) (L.seat links.now p.new) }
{
    let node = match links.give(p, 1, job, 0) {
        Ok(node) => node,
        Err(_) => return None,
    };
    let turn = link_at_tail(links, p, &node, job);
    links.release(p, node);
    match turn {
        PutTurn::Put(at) => Some(at),
        _ => None,
    }
}

// Links a fresh node behind the node that the tail names, and leaves the tail there.
fn link_at_tail<L: Links<Rule = Fifo>>(links: &L, p: &mut L::Pass, node: &Held, job: u64) -> PutTurn
    requires pass { L.belongs links.now p.old }
    requires made { HasDummy (L.numbers links.now) (L.opening links.now) }
    requires node { HoldsNode (L.numbers links.now) job node.now (L.seat links.now p.old) }
    requires slot { IsFree (L.seat links.now p.old).slots 2 }
    ensures pass { L.belongs links.now p.new }
    ensures later { IsPrefix (L.journal p.old) (L.journal p.new) }
    ensures stopped { StopsPiece 4 (L.seat links.now p.old) (stop_entries (L.seat links.now p.old).agent job result) (L.seat links.now p.new) }
    ensures fresh { ((L.seat links.now p.new).fresh ≡ (L.seat links.now p.old).fresh) ⊎ ((L.seat links.now p.new).fresh ≡ None) }
    ensures missed { ((at : ℕ) → result ≢ PutTurn.Put at) → IsFullAlone (L.numbers links.now) (L.seat links.now p.old) (L.seat links.now p.new) }
{
    match hold_root(links, p, TAIL, 2) {
        Some(tail) => {
            let turn = link_node(links, p, node, job, &tail);
            links.release(p, tail);
            turn
        }
        None => PutTurn::Over,
    }
}
