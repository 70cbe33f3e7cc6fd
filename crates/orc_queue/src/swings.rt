//! Swings of the queue's links.

ghost use Rattle.std.specs.Prelude.{IfSome, ◌≡◌, ◌<◌, ℕ, Some, true};
ghost use mathlib.Core.List.{IsPrefix};
ghost use Rattle.orc_heap.specs.{
  Allowed.{AllowedLater, HasLink, IsLinkedNode},
  Calls.{Swings, move_of},
  Journals.{run_heap},
  Seats.{HoldsPlace, HoldsWant, IsNotFresh, link_in, place_in},
  Slots.{Holds, IsFree, id_in},
  Heap.{link_to},
};
ghost use Rattle.orc_fifo_rule.specs.{QueueDiscipline.{FifoMay}, Watches.{WasNamed}};
ghost use Rattle.orc_queue.specs.{Looking.{LooksAtRoot, LooksBehind}, Turns.{HasDummy, Helps}};

use orc_fifo_rule::{Fifo, FifoNote};
use orc_heap::{At, Held, Links, Looked, Want};

/// What a look at the link of a node found.
pub enum Successor {
    /// No node is linked.
    Nothing,
    /// This one, which is held.
    Node(Held),
    /// Two loads differed.
    Differs,
}

// The root that names the dummy in front of the queue.
pub(crate) const HEAD: u32 = 0;

// The root that names the last node, or the one before it.
pub(crate) const TAIL: u32 = 1;

// Looks at a root, and holds the node that it names. None where two loads differed; a root is never null.
#[inline(always)]
pub(crate) fn hold_root<L: Links<Rule = Fifo>>(
    links: &L,
    p: &mut L::Pass,
    root: u32,
    slot: u32,
) -> Option<Held>
    requires pass { L.belongs links.now p.old }
    requires made { HasDummy (L.numbers links.now) (L.opening links.now) }
    requires root { root < 2 }
    requires slot { IsFree (L.seat links.now p.old).slots slot }
    ensures pass { L.belongs links.now p.new }
    ensures later { IsPrefix (L.journal p.old) (L.journal p.new) }
    ensures looked { LooksAtRoot (L.numbers links.now) root slot (L.seat links.now p.old) result (L.seat links.now p.new) }
    ensures held { IfSome result (λ node. Holds (L.seat links.now p.new).slots node) }
    ensures named { IfSome result (λ node. WasNamed (run_heap (L.numbers links.now) (L.seat links.now p.new).seen) root
        (id_in (L.seat links.now p.new).slots node)) }
{
    match links.look(p, &At::Root(root), slot) {
        Looked::Stable(_, Some(node)) => Some(node),
        Looked::Stable(_, None) => unreachable!(),
        Looked::Moved => None,
    }
}

// Looks at the link of a node that has been linked, and holds its successor.
#[inline(always)]
pub(crate) fn hold_next<L: Links<Rule = Fifo>>(
    links: &L,
    p: &mut L::Pass,
    node: &Held,
    slot: u32,
) -> Successor
    requires pass { L.belongs links.now p.old }
    requires made { HasDummy (L.numbers links.now) (L.opening links.now) }
    requires held { Holds (L.seat links.now p.old).slots node.now }
    requires linked { IsLinkedNode (run_heap (L.numbers links.now) (L.seat links.now p.old).seen) (id_in (L.seat links.now p.old).slots node.now) }
    requires slot { IsFree (L.seat links.now p.old).slots slot }
    ensures pass { L.belongs links.now p.new }
    ensures later { IsPrefix (L.journal p.old) (L.journal p.new) }
    ensures looked { LooksBehind (L.numbers links.now) (id_in (L.seat links.now p.old).slots node.now) slot (L.seat links.now p.old) result
        (L.seat links.now p.new) }
{
    match links.look(p, &At::Node(node), slot) {
        Looked::Stable(_, Some(next)) => Successor::Node(next),
        Looked::Stable(_, None) => Successor::Nothing,
        Looked::Moved => Successor::Differs,
    }
}

// Makes one compare-and-swap. It is never refused, since three links at most are made to a node in all.
#[inline(always)]
pub(crate) fn change<L: Links<Rule = Fifo>>(
    links: &L,
    p: &mut L::Pass,
    place: &At,
    from: &Want,
    to: &Want,
    noted: FifoNote,
) -> bool
    requires pass { L.belongs links.now p.old }
    requires place { HoldsPlace (L.numbers links.now) (L.seat links.now p.old).slots place.now }
    requires linked { IsNotFresh (L.seat links.now p.old) place.now }
    requires links { HoldsWant (L.seat links.now p.old).slots from.now × HoldsWant (L.seat links.now p.old).slots to.now }
    requires allowed { AllowedLater (FifoMay (L.numbers links.now)) (L.numbers links.now)
        (L.seat links.now p.old).agent (L.seat links.now p.old).seen
        (place_in (L.seat links.now p.old).slots place.now) (link_in (L.seat links.now p.old).slots from.now)
        (move_of (L.seat links.now p.old) place.now from.now to.now (Some noted)) }
    ensures pass { L.belongs links.now p.new }
    ensures later { IsPrefix (L.journal p.old) (L.journal p.new) }
    ensures swung { Swings place.now from.now to.now (Some noted) (L.seat links.now p.old) result (L.seat links.now p.new) }
{
    match links.swing(p, place, from, to, Some(noted)) {
        Ok(done) => done,
        Err(_) => unreachable!(),
    }
}

// Swings the tail on from a node to its successor, if the tail still names that node.
#[inline(always)]
pub(crate) fn help_tail<L: Links<Rule = Fifo>>(links: &L, p: &mut L::Pass, tail: &Held, next: &Held)
    requires pass { L.belongs links.now p.old }
    requires made { HasDummy (L.numbers links.now) (L.opening links.now) }
    requires held { Holds (L.seat links.now p.old).slots tail.now × Holds (L.seat links.now p.old).slots next.now }
    requires successor { HasLink (run_heap (L.numbers links.now) (L.seat links.now p.old).seen)
        (id_in (L.seat links.now p.old).slots tail.now) (link_to (id_in (L.seat links.now p.old).slots next.now)) }
    ensures pass { L.belongs links.now p.new }
    ensures later { IsPrefix (L.journal p.old) (L.journal p.new) }
    ensures helped { Helps (id_in (L.seat links.now p.old).slots tail.now) (id_in (L.seat links.now p.old).slots next.now)
        (L.seat links.now p.old) (L.seat links.now p.new) }
{
    let _done = change(
        links,
        p,
        &At::Root(TAIL),
        &Want::Node(tail, false),
        &Want::Node(next, false),
        FifoNote::Swing,
    );
}
