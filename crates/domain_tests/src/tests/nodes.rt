//! Nodes that are given, linked from root 0, held and unlinked, over any domain.

ghost use Rattle.std.specs.Prelude.{◌≡◌, ◌<◌, All, IfSome, if◌then◌else◌, length};
ghost use Rattle.orc_any_domain.specs.Domains.{IsIdlePass};
ghost use Rattle.orc_heap.specs.{Calls.{unless_node}, Seats.{HoldsWant, link_in}};
ghost use Rattle.orc_shared_words.specs.Lists.{EachAt};

use orc_heap::{AnyFit, At, Held, Links, Looked, Want};
use std::thread::{Threads, join_mut};

// Takes the last pass that is left.
fn next_pass<L: Links<Rule = AnyFit>>(links: &L, passes: &mut Vec<L::Pass>) -> Option<L::Pass>
    requires idle { All (IsIdlePass L.Links links.now) passes.old.items }
    ensures idle { All (IsIdlePass L.Links links.now) passes.new.items }
    ensures popped { IfSome result (IsIdlePass L.Links links.now) }
{
    passes.pop()
}

// Gives a node, fills it, and releases it unlinked. Answers its second value, and whether root 0 was null meanwhile; none where
// no row could be given.
fn one_node<L: Links<Rule = AnyFit>>(links: &L, p: &mut L::Pass) -> Option<(u64, bool)>
    requires idle { IsIdlePass L.Links links.now p.old }
    requires roots { 0 < (L.numbers links.now).roots }
    ensures idle { IsIdlePass L.Links links.now p.new }
    ensures agent { (L.seat links.now p.new).agent ≡ (L.seat links.now p.old).agent }
{
    let Ok(node) = links.give(p, 1, 7, 8) else {
        return None;
    };
    links.fill(p, &node, 1, 9);
    let null = links.same(p, &At::Root(0), &Want::Null(false), None);
    let second = links.value(p, &node, 1);
    links.release(p, node);
    Some((second, null))
}

// Lets the first of all passes do so.
pub fn first_gives<L: Links<Rule = AnyFit>>(
    links: &L,
    passes: &mut [L::Pass],
) -> Option<(u64, bool)>
    requires order { EachAt (λ i p. (L.seat links.now p).agent ≡ i) passes.old }
    requires idle { All (IsIdlePass L.Links links.now) passes.old }
    requires roots { 0 < (L.numbers links.now).roots }
    ensures many { length passes.new ≡ length passes.old }
    ensures order { EachAt (λ i p. (L.seat links.now p).agent ≡ i) passes.new }
    ensures idle { All (IsIdlePass L.Links links.now) passes.new }
{
    if passes.is_empty() {
        return None;
    }
    one_node(links, &mut passes[0])
}

// Swings root 0, and answers whether that came about.
pub fn swing_root<L: Links<Rule = AnyFit>>(
    links: &L,
    p: &mut L::Pass,
    from: &Want,
    to: &Want,
) -> bool
    requires pass { L.belongs links.now p.old }
    requires roots { 0 < (L.numbers links.now).roots }
    requires from { HoldsWant (L.seat links.now p.old).slots from.now }
    requires to { HoldsWant (L.seat links.now p.old).slots to.now }
    ensures pass { L.belongs links.now p.new }
    ensures slots { (L.seat links.now p.new).slots ≡ (L.seat links.now p.old).slots }
    ensures fresh { (L.seat links.now p.new).fresh ≡ (if result
        then unless_node (L.seat links.now p.old).fresh (link_in (L.seat links.now p.old).slots to.now).to else (L.seat links.now p.old).fresh) }
{
    links.swing(p, &At::Root(0), from, to, None) == Ok(true)
}

// Links a new node with this value from root 0, where that is null. Answers whether that came about.
fn link_node<L: Links<Rule = AnyFit>>(links: &L, p: &mut L::Pass, value: u64) -> bool
    requires idle { IsIdlePass L.Links links.now p.old }
    requires roots { 0 < (L.numbers links.now).roots }
    ensures idle { IsIdlePass L.Links links.now p.new }
{
    let Ok(node) = links.give(p, 1, value, 0) else {
        return false;
    };
    let linked = swing_root(links, p, &Want::Null(false), &Want::Node(&node, false));
    links.release(p, node);
    linked
}

// Links a node with value 8 from root 0. Answers the pass of another agent, and of the one that linked it.
pub fn with_a_node<L: Links<Rule = AnyFit>>(
    links: &L,
    mut passes: Vec<L::Pass>,
) -> Option<(L::Pass, L::Pass)>
    requires idle { All (IsIdlePass L.Links links.now) passes.items }
    requires roots { 0 < (L.numbers links.now).roots }
    ensures idle { IfSome result (λ two. IsIdlePass L.Links links.now two.0 × IsIdlePass L.Links links.now two.1) }
{
    let one = next_pass(links, &mut passes)?;
    let mut two = next_pass(links, &mut passes)?;
    if !link_node(links, &mut two, 8) {
        return None;
    }
    Some((one, two))
}

// Unlinks what root 0 leads to, and works through the rows that the pass has in hand then. Answers whether that came about.
pub fn unlink_node<L: Links<Rule = AnyFit>>(links: &L, p: &mut L::Pass) -> bool
    requires idle { IsIdlePass L.Links links.now p.old }
    requires roots { 0 < (L.numbers links.now).roots }
    ensures idle { IsIdlePass L.Links links.now p.new }
{
    match links.look(p, &At::Root(0), 1) {
        Looked::Stable(_, Some(node)) => {
            let unlinked = swing_root(links, p, &Want::Node(&node, false), &Want::Null(false));
            links.release(p, node);
            links.settle(p);
            unlinked
        }
        Looked::Stable(_, None) | Looked::Moved => false,
    }
}

// Unlinks what root 0 leads to, and links a node with this value there.
pub fn replace_node<L: Links<Rule = AnyFit>>(links: &L, p: &mut L::Pass, value: u64) -> bool
    requires idle { IsIdlePass L.Links links.now p.old }
    requires roots { 0 < (L.numbers links.now).roots }
    ensures idle { IsIdlePass L.Links links.now p.new }
{
    let unlinked = unlink_node(links, p);
    let linked = link_node(links, p, value);
    unlinked && linked
}

// Holds what root 0 leads to, and answers its first value.
pub fn value_at_root<L: Links<Rule = AnyFit>>(links: &L, p: &mut L::Pass) -> Option<u64>
    requires idle { IsIdlePass L.Links links.now p.old }
    requires roots { 0 < (L.numbers links.now).roots }
    ensures idle { IsIdlePass L.Links links.now p.new }
{
    match links.look(p, &At::Root(0), 1) {
        Looked::Stable(_, Some(node)) => {
            let value = links.value(p, &node, 0);
            links.release(p, node);
            Some(value)
        }
        Looked::Stable(_, None) | Looked::Moved => None,
    }
}

// Replaces the node at root 0 once for each of these values, and lets the other pass see each. Answers whether it saw them.
pub fn sees_each<L: Links<Rule = AnyFit>>(
    links: &L,
    p: &mut L::Pass,
    other: &mut L::Pass,
    values: &[u64],
) -> bool
    requires idle { IsIdlePass L.Links links.now p.old × IsIdlePass L.Links links.now other.old }
    requires roots { 0 < (L.numbers links.now).roots }
    ensures idle { IsIdlePass L.Links links.now p.new × IsIdlePass L.Links links.now other.new }
{
    let mut seen = true;
    for value in values {
        seen &= replace_node(links, p, *value);
        seen &= value_at_root(links, other) == Some(*value);
    }
    seen
}

// Lets both passes see what each has seen, and tells whether they are of two agents.
pub fn learn_both<L: Links<Rule = AnyFit>>(links: &L, one: &mut L::Pass, two: &mut L::Pass) -> bool
    requires pass { L.belongs links.now one.old × L.belongs links.now two.old }
    ensures pass { L.belongs links.now one.new × L.belongs links.now two.new }
{
    if links.agent(one) == links.agent(two) {
        return false;
    }
    links.learn(one, two);
    true
}

// Gives another node, and releases it, and works through it. Answers whether that came about.
fn one_more<L: Links<Rule = AnyFit>>(links: &L, p: &mut L::Pass) -> bool
    requires idle { IsIdlePass L.Links links.now p.old }
    requires roots { 0 < (L.numbers links.now).roots }
    ensures idle { IsIdlePass L.Links links.now p.new }
{
    let given = one_node(links, p);
    links.settle(p);
    given == Some((9, true))
}

// Unlinks what root 0 leads to, and gives and releases two nodes more.
fn goes_on<L: Links<Rule = AnyFit>>(links: &L, p: &mut L::Pass) -> bool
    requires idle { IsIdlePass L.Links links.now p.old }
    requires roots { 0 < (L.numbers links.now).roots }
    ensures idle { IsIdlePass L.Links links.now p.new }
{
    let unlinked = unlink_node(links, p);
    let once = one_more(links, p);
    let twice = one_more(links, p);
    unlinked && once && twice
}

// Holds what root 0 leads to, while the other agent unlinks it and gives two nodes more. Answers its value before and after, and
// whether the other agent's calls came about.
pub fn held_meanwhile<L: Links<Rule = AnyFit>>(
    links: &L,
    p: &mut L::Pass,
    other: &mut L::Pass,
) -> Option<(u64, u64, bool)>
    requires idle { IsIdlePass L.Links links.now p.old × IsIdlePass L.Links links.now other.old }
    requires roots { 0 < (L.numbers links.now).roots }
    ensures idle { IsIdlePass L.Links links.now p.new × IsIdlePass L.Links links.now other.new }
{
    match links.look(p, &At::Root(0), 1) {
        Looked::Stable(_, Some(node)) => {
            let before = links.value(p, &node, 0);
            let went = goes_on(links, other);
            let after = links.value(p, &node, 0);
            links.release(p, node);
            Some((before, after, went))
        }
        Looked::Stable(_, None) | Looked::Moved => None,
    }
}

// Looks at root 0 again and again, and tells whether each node that was held had one of the two values.
fn look_often<L: Links<Rule = AnyFit>>(links: &L, p: &mut L::Pass) -> bool
    requires idle { IsIdlePass L.Links links.now p.old }
    requires roots { 0 < (L.numbers links.now).roots }
    ensures idle { IsIdlePass L.Links links.now p.new }
{
    let mut one_of_both = true;
    for _turn in 0..200 {
        let value = value_at_root(links, p);
        one_of_both &= value.is_none() || value == Some(8) || value == Some(9);
    }
    one_of_both
}

// Lets one agent look while the other one replaces the node, each in a thread of its own.
pub fn on_two_threads<R: Threads + Sync, L: Links<Rule = AnyFit> + Sync>(
    rt: &R,
    links: &L,
    p: &mut L::Pass,
    other: &mut L::Pass,
) -> (bool, bool)
where
    L::Pass: Send,
    requires idle { IsIdlePass L.Links links.now p.old × IsIdlePass L.Links links.now other.old }
    requires roots { 0 < (L.numbers links.now).roots }
    ensures idle { IsIdlePass L.Links links.now p.new × IsIdlePass L.Links links.now other.new }
{
    join_mut(
        rt,
        &mut || look_often(links, p),
        &mut || replace_node(links, other, 9),
    )
}
