//! An agent that is stopped in the middle of a call, and holds the first node.

ghost use Rattle.std.specs.Prelude.{◌≡◌, ◌<◌};
ghost use Rattle.orc_heap.specs.Seats.{IsIdle};
ghost use Rattle.stress.specs.Stops.{IsStopped};

use orc_any_domain::Domain;
use orc_heap::{At, Held, Links, Looked};

// Holds the first node behind root 0, where there is one.
pub(crate) fn hold_first<L: Links>(links: &L, p: &mut L::Pass) -> Option<Held>
    requires pass { L.belongs links.now p.old }
    requires idle { IsIdle (L.seat links.now p.old) }
    requires root { 0 < (L.numbers links.now).roots }
    ensures stopped { IsStopped L.Links links.now result p.new }
    ensures agent { (L.seat links.now p.new).agent ≡ (L.seat links.now p.old).agent }
{
    match links.look(p, &At::Root(0), 1) {
        Looked::Stable(_, Some(node)) => Some(node),
        Looked::Stable(_, None) => None,
        Looked::Moved => None,
    }
}

// Lets go of it, where there is one.
fn release<L: Links>(links: &L, p: &mut L::Pass, held: Option<Held>)
    requires stopped { IsStopped L.Links links.now held p.old }
    ensures pass { L.belongs links.now p.new }
    ensures idle { IsIdle (L.seat links.now p.new) }
    ensures agent { (L.seat links.now p.new).agent ≡ (L.seat links.now p.old).agent }
{
    match held {
        Some(node) => links.release(p, node),
        None => {}
    }
}

// Lets go of it, and works through what was retired meanwhile and waited for the agent: so many rows.
pub(crate) fn let_go<L: Domain>(links: &L, p: &mut L::Pass, held: Option<Held>) -> u32
    requires stopped { IsStopped L.Links links.now held p.old }
    ensures pass { L.belongs links.now p.new }
    ensures idle { IsIdle (L.seat links.now p.new) }
    ensures agent { (L.seat links.now p.new).agent ≡ (L.seat links.now p.old).agent }
{
    release(links, p, held);
    let waiting = links.backlog(p);
    links.settle(p);
    waiting
}
