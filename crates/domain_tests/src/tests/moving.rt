//! Holds that move on from one node to the next, over any domain.

ghost use Rattle.std.specs.Prelude.{◌≡◌, ◌<◌, ℕ, None, Some, replicate, slice_set};
ghost use Rattle.orc_any_domain.specs.Domains.{IsIdlePass};

use super::nodes::{replace_node, swing_root, unlink_node};
use orc_heap::{AnyFit, At, Held, Links, Looked, LookedOn, Want};

/// What another agent does to root 0 meanwhile.
#[derive(Clone, Copy, PartialEq, Eq, Drop)]
pub enum Change {
    /// It leads to another node, with value 9.
    Replace,
    /// It has a mark.
    Mark,
    /// It is null.
    Unlink,
}

/// What a look on finds, by first values.
#[derive(Clone, Copy, PartialEq, Eq, Drop)]
pub enum Found {
    /// The node that is held now, alone.
    On(u64),
    /// The node that is held as before, and the one that is held beside it.
    Stays(u64, Option<u64>),
    /// Nothing is held.
    Moved,
}

// Sets the mark of the link of root 0, and answers whether that came about.
fn mark_node<L: Links<Rule = AnyFit>>(links: &L, p: &mut L::Pass) -> bool
    requires idle { IsIdlePass L.Links links.now p.old }
    requires roots { 0 < (L.numbers links.now).roots }
    ensures idle { IsIdlePass L.Links links.now p.new }
{
    match links.look(p, &At::Root(0), 1) {
        Looked::Stable(_, Some(node)) => {
            let marked = swing_root(
                links,
                p,
                &Want::Node(&node, false),
                &Want::Node(&node, true),
            );
            links.release(p, node);
            marked
        }
        Looked::Stable(_, None) | Looked::Moved => false,
    }
}

// Changes root 0, and answers whether that came about.
fn change_root<L: Links<Rule = AnyFit>>(links: &L, p: &mut L::Pass, change: Change) -> bool
    requires idle { IsIdlePass L.Links links.now p.old }
    requires roots { 0 < (L.numbers links.now).roots }
    ensures idle { IsIdlePass L.Links links.now p.new }
{
    match change {
        Change::Replace => replace_node(links, p, 9),
        Change::Mark => mark_node(links, p),
        Change::Unlink => unlink_node(links, p),
    }
}

// Looks at root 0 by the hold in slot 1, which may move on, and gives up what is held then. Answers what was found.
fn look_on_at_root<L: Links<Rule = AnyFit>>(links: &L, p: &mut L::Pass, node: Held) -> Found
    requires pass { L.belongs links.now p.old }
    requires roots { 0 < (L.numbers links.now).roots }
    requires node { node.slot ≡ 1 }
    requires held { (id : ℕ) × ((L.seat links.now p.old).slots ≡ slice_set (replicate 8 None) 1 (Some (record { row = node.row; id = id }))) }
    requires linked { (L.seat links.now p.old).fresh ≡ None }
    ensures idle { IsIdlePass L.Links links.now p.new }
{
    match links.look_on(p, &At::Root(0), node, 2) {
        LookedOn::On(next) => {
            let value = links.value(p, &next, 0);
            links.release(p, next);
            Found::On(value)
        }
        LookedOn::Stays(node, looked) => match looked {
            Looked::Stable(_, Some(next)) => {
                let values = (links.value(p, &node, 0), links.value(p, &next, 0));
                links.release(p, next);
                links.release(p, node);
                Found::Stays(values.0, Some(values.1))
            }
            Looked::Stable(_, None) | Looked::Moved => {
                let value = links.value(p, &node, 0);
                links.release(p, node);
                Found::Stays(value, None)
            }
        },
        LookedOn::Moved => Found::Moved,
    }
}

/// Holds what root 0 leads to, lets the other agent change that link, and looks at it by a hold that moves on. Answers whether the
/// change came about, and what the look found.
pub fn look_after<L: Links<Rule = AnyFit>>(
    links: &L,
    p: &mut L::Pass,
    other: &mut L::Pass,
    change: Change,
) -> Option<(bool, Found)>
    requires idle { IsIdlePass L.Links links.now p.old × IsIdlePass L.Links links.now other.old }
    requires roots { 0 < (L.numbers links.now).roots }
    ensures idle { IsIdlePass L.Links links.now p.new × IsIdlePass L.Links links.now other.new }
{
    match links.look(p, &At::Root(0), 1) {
        Looked::Stable(_, Some(node)) => {
            let changed = change_root(links, other, change);
            Some((changed, look_on_at_root(links, p, node)))
        }
        Looked::Stable(_, None) | Looked::Moved => None,
    }
}
