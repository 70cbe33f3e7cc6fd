//! A stack of two nodes: built, read and taken away.

ghost use Rattle.std.specs.Prelude.{◌≡◌, ◌≢◌, ℕ, ◌<◌, None, Some, IfOk, IfErr};
ghost use Rattle.orc_heap.specs.{
  Seats.{HoldsPlace, HoldsTarget, HoldsWant, IsIdle, Seat, link_in, place_in, target_in},
  Slots.{Holds, IsFree, Slots, id_in},
};
ghost use Rattle.links_example.specs.Stacks.{Clears, FindsNode, HasTwo, HasTop, HoldsStackNode, StackLeadsTo, Pushes, StackStays, plain_link};

use crate::own_roots::OwnRoots;
use orc_fault::Spent;
use orc_heap::{At, Held, Links, Looked, Want};

/// Why a node couldn't be put on a stack.
#[derive(Clone, Copy, Debug, PartialEq, Eq)]
pub enum PushRefused {
    NoNode,
    Spent(Spent),
}

// Names the unmarked link to what is on top.
fn below<'a>(top: Option<&'a Held>) -> Want<'a>
    ensures link { (slots : Slots) → link_in slots result ≡ plain_link (target_in slots top.entry) }
    ensures held { (s : Seat ℕ) → HoldsTarget s top.entry → HoldsWant s.slots result }
{
    match top {
        None => Want::Null(false),
        Some(h) => Want::Node(h, false),
    }
}

// Puts a new node with this value on top of the stack.
fn push<L: Links<Rule = OwnRoots>>(
    links: &L,
    p: &mut L::Pass,
    top: Option<&Held>,
    slot: u32,
    value: u64,
) -> Result<Held, PushRefused>
    requires pass { L.belongs links.now p.old }
    requires slot { IsFree (L.seat links.now p.old).slots slot }
    requires fresh { (L.seat links.now p.old).fresh ≡ None }
    requires root { (L.seat links.now p.old).agent < (L.numbers links.now).roots }
    requires held { HoldsTarget (L.seat links.now p.old) top }
    requires top { HasTop (L.numbers links.now) (L.seat links.now p.old) (target_in (L.seat links.now p.old).slots top) }
    requires node { HoldsStackNode (L.numbers links.now) (L.seat links.now p.old) top }
    ensures pass { L.belongs links.now p.new }
    ensures pushed { IfOk result (λ h. Pushes (L.numbers links.now) (target_in (L.seat links.now p.old).slots top.entry) slot value (L.seat links.now p.old) h
        (L.seat links.now p.new)) }
    ensures none { IfErr result (λ e. StackStays (L.numbers links.now) (L.seat links.now p.old) (L.seat links.now p.new)) }
{
    let agent = links.agent(p);
    let node = match links.give(p, slot, value, 0) {
        Ok(node) => node,
        Err(_) => return Err(PushRefused::NoNode),
    };
    if let Err(why) = links.aim(p, &node, top) {
        links.release(p, node);
        return Err(PushRefused::Spent(why));
    }
    let below = below(top);
    match links.swing(
        p,
        &At::Root(agent),
        &below,
        &Want::Node(&node, false),
        Some(agent),
    ) {
        Ok(true) => Ok(node),
        Ok(false) => unreachable!(),
        Err(why) => {
            links.release(p, node);
            Err(PushRefused::Spent(why))
        }
    }
}

// Takes the whole stack away.
fn clear<L: Links<Rule = OwnRoots>>(links: &L, p: &mut L::Pass, top: &Held)
    requires pass { L.belongs links.now p.old }
    requires root { (L.seat links.now p.old).agent < (L.numbers links.now).roots }
    requires held { Holds (L.seat links.now p.old).slots top.now }
    requires top { HasTop (L.numbers links.now) (L.seat links.now p.old) (Some (id_in (L.seat links.now p.old).slots top.now)) }
    ensures pass { L.belongs links.now p.new }
    ensures cleared { Clears (L.numbers links.now) (L.seat links.now p.old) (L.seat links.now p.new) }
{
    let agent = links.agent(p);
    let root = At::Root(agent);
    match links.swing(
        p,
        &root,
        &Want::Node(top, false),
        &Want::Null(false),
        Some(agent),
    ) {
        Ok(true) => {}
        Ok(false) => unreachable!(),
        Err(_) => unreachable!(),
    }
}

// Looks at a link of the stack, which nobody else changes.
fn look_at<L: Links<Rule = OwnRoots>>(links: &L, p: &mut L::Pass, place: &At, slot: u32) -> Held
    requires pass { L.belongs links.now p.old }
    requires slot { IsFree (L.seat links.now p.old).slots slot }
    requires place { HoldsPlace (L.numbers links.now) (L.seat links.now p.old).slots place.now }
    requires stack { (to : ℕ) × StackLeadsTo (L.numbers links.now) (L.seat links.now p.old) (place_in (L.seat links.now p.old).slots place.now) to }
    ensures pass { L.belongs links.now p.new }
    ensures found { FindsNode (L.numbers links.now) (place_in (L.seat links.now p.old).slots place.now) slot (L.seat links.now p.old) result
        (L.seat links.now p.new) }
{
    match links.look(p, place, slot) {
        Looked::Stable(_, Some(h)) => h,
        Looked::Stable(_, None) => unreachable!(),
        Looked::Moved => unreachable!(),
    }
}

// Reads the values of the two nodes on the stack, the upper one first.
fn read_two<L: Links<Rule = OwnRoots>>(links: &L, p: &mut L::Pass) -> (u64, u64)
    requires pass { L.belongs links.now p.old }
    requires slots { IsFree (L.seat links.now p.old).slots 3 × IsFree (L.seat links.now p.old).slots 4 }
    requires fresh { (L.seat links.now p.old).fresh ≡ None }
    requires root { (L.seat links.now p.old).agent < (L.numbers links.now).roots }
    requires stack { (a : ℕ) × (b : ℕ) × HasTwo (L.numbers links.now) (L.seat links.now p.old) a b }
    ensures pass { L.belongs links.now p.new }
    ensures stays { StackStays (L.numbers links.now) (L.seat links.now p.old) (L.seat links.now p.new) }
    ensures read { (a b : ℕ) → HasTwo (L.numbers links.now) (L.seat links.now p.old) a b → result ≡ (a, b) }
{
    let agent = links.agent(p);
    let upper = look_at(links, p, &At::Root(agent), 3);
    let lower = look_at(links, p, &At::Node(&upper), 4);
    let first = links.value(p, &upper, 0);
    let second = links.value(p, &lower, 0);
    links.release(p, lower);
    links.release(p, upper);
    (first, second)
}

/// Puts two values on the agent's stack, reads them there, the upper one first, and takes the stack away again.
///
/// The stack has to be empty, and is so again, also where a node is refused.
pub fn through_a_stack<L: Links<Rule = OwnRoots>>(
    links: &L,
    p: &mut L::Pass,
    lower: u64,
    upper: u64,
) -> Result<(u64, u64), PushRefused>
    requires pass { L.belongs links.now p.old }
    requires idle { IsIdle (L.seat links.now p.old) }
    requires root { (L.seat links.now p.old).agent < (L.numbers links.now).roots }
    requires empty { HasTop (L.numbers links.now) (L.seat links.now p.old) None }
    ensures pass { L.belongs links.now p.new }
    ensures idle { IsIdle (L.seat links.now p.new) }
    ensures empty { HasTop (L.numbers links.now) (L.seat links.now p.new) None }
    ensures read { IfOk result (λ got. got ≡ (upper, lower)) }
{
    let one = push(links, p, None, 1, lower)?;
    let two = match push(links, p, Some(&one), 2, upper) {
        Ok(two) => two,
        Err(why) => {
            clear(links, p, &one);
            links.release(p, one);
            return Err(why);
        }
    };
    let got = read_two(links, p);
    clear(links, p, &two);
    links.release(p, two);
    links.release(p, one);
    links.settle(p);
    Ok(got)
}
