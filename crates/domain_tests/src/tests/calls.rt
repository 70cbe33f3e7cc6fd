//! The calls, over any domain.

ghost use Rattle.std.specs.Prelude.{◌≡◌, ◌<◌, All, None, Some, if◌then◌else◌, length};
ghost use Rattle.orc_any_domain.specs.Domains.{IsIdlePass};
ghost use Rattle.orc_heap.specs.{Calls.{unless_node}, Seats.{HoldsFresh, HoldsTarget, HoldsWant, link_in}, Slots.{Holds, IsFree}};
ghost use Rattle.orc_shared_words.specs.Lists.{EachAt};

use orc_heap::{At, Held, Links, Want};
use orc_plain_domain::twins::Twins;

// Swings root 0, and answers whether that came about.
fn swing_root<L: Links<Rule = Twins>>(links: &L, p: &mut L::Pass, from: &Want, to: &Want) -> bool
    requires pass { L.belongs links.now p.old }
    requires roots { 0 < (L.numbers links.now).roots }
    requires from { HoldsWant (L.seat links.now p.old).slots from.now }
    requires to { HoldsWant (L.seat links.now p.old).slots to.now }
    ensures pass { L.belongs links.now p.new }
    ensures agent { (L.seat links.now p.new).agent ≡ (L.seat links.now p.old).agent }
    ensures slots { (L.seat links.now p.new).slots ≡ (L.seat links.now p.old).slots }
    ensures fresh { (L.seat links.now p.new).fresh ≡ (if result
        then unless_node (L.seat links.now p.old).fresh (link_in (L.seat links.now p.old).slots to.now).to else (L.seat links.now p.old).fresh) }
{
    let Ok(done) = links.swing(p, &At::Root(0), from, to, None) else {
        return false;
    };
    done
}

// Aims both links of the fresh node, and answers whether both lead there then.
fn aim_both<L: Links<Rule = Twins>>(links: &L, p: &mut L::Pass, fresh: &Held, to: &Held) -> bool
    requires pass { L.belongs links.now p.old }
    requires two { (L.numbers links.now).links ≡ 2 }
    requires fresh { HoldsFresh (L.seat links.now p.old) fresh.now }
    requires target { HoldsTarget (L.seat links.now p.old) (Some to) }
    ensures pass { L.belongs links.now p.new }
    ensures agent { (L.seat links.now p.new).agent ≡ (L.seat links.now p.old).agent }
    ensures slots { (L.seat links.now p.new).slots ≡ (L.seat links.now p.old).slots }
    ensures fresh { (L.seat links.now p.new).fresh ≡ (L.seat links.now p.old).fresh }
{
    let Ok(()) = links.aim(p, fresh, Some(to)) else {
        return false;
    };
    let Ok(()) = links.aim_side(p, fresh, Some(to)) else {
        return false;
    };
    let first = links.same(p, &At::Node(fresh), &Want::Node(to, false), None);
    let second = links.same(p, &At::Side(fresh), &Want::Node(to, false), None);
    first && second
}

// Gives a node, both of whose links lead to the one that root 0 leads to, links it in that one's place, and unlinks it. Answers
// whether all that came about.
fn link_second<L: Links<Rule = Twins>>(links: &L, p: &mut L::Pass, one: &Held) -> bool
    requires pass { L.belongs links.now p.old }
    requires roots { 0 < (L.numbers links.now).roots }
    requires two { (L.numbers links.now).links ≡ 2 }
    requires held { Holds (L.seat links.now p.old).slots one.now }
    requires slot { IsFree (L.seat links.now p.old).slots 2 }
    requires fresh { (L.seat links.now p.old).fresh ≡ None }
    ensures pass { L.belongs links.now p.new }
    ensures agent { (L.seat links.now p.new).agent ≡ (L.seat links.now p.old).agent }
    ensures slots { (L.seat links.now p.new).slots ≡ (L.seat links.now p.old).slots }
    ensures fresh { (L.seat links.now p.new).fresh ≡ None }
{
    let Ok(two) = links.give(p, 2, 9, 10) else {
        return false;
    };
    let aimed = aim_both(links, p, &two, one);
    let linked = swing_root(links, p, &Want::Node(one, false), &Want::Node(&two, false));
    let unlinked = swing_root(links, p, &Want::Node(&two, false), &Want::Null(false));
    links.release(p, two);
    aimed & linked & unlinked
}

// Links a new node from root 0, and another one in its place; unlinks that, and holds none of them. Answers whether all that
// came about.
fn link_twins<L: Links<Rule = Twins>>(links: &L, p: &mut L::Pass) -> bool
    requires roots { 0 < (L.numbers links.now).roots }
    requires two { (L.numbers links.now).links ≡ 2 }
    requires idle { IsIdlePass L.Links links.now p.old }
    ensures agent { (L.seat links.now p.new).agent ≡ (L.seat links.now p.old).agent }
    ensures idle { IsIdlePass L.Links links.now p.new }
{
    let Ok(one) = links.give(p, 1, 7, 8) else {
        return false;
    };
    let linked = swing_root(links, p, &Want::Null(false), &Want::Node(&one, false));
    if !linked {
        links.release(p, one);
        return false;
    }
    let done = link_second(links, p, &one);
    links.release(p, one);
    done
}

// Lets the first of all passes do so.
pub fn first_links<L: Links<Rule = Twins>>(links: &L, passes: &mut [L::Pass]) -> bool
    requires order { EachAt (λ i p. (L.seat links.now p).agent ≡ i) passes.old }
    requires idle { All (IsIdlePass L.Links links.now) passes.old }
    requires roots { 0 < (L.numbers links.now).roots }
    requires two { (L.numbers links.now).links ≡ 2 }
    ensures many { length passes.new ≡ length passes.old }
    ensures order { EachAt (λ i p. (L.seat links.now p).agent ≡ i) passes.new }
    ensures idle { All (IsIdlePass L.Links links.now) passes.new }
{
    if passes.is_empty() {
        return false;
    }
    link_twins(links, &mut passes[0])
}
