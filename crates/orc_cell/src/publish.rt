//! Turns of a publish: the new pair is aimed at its parts, and root 0 is swung to it.

ghost use Rattle.std.specs.Prelude.{◌≡◌, ◌≢◌, ◌<◌, ◌+◌, ◌*◌, ℕ, [], ◌∷◌, Some, None, IfOk, IfErr, length};
ghost use mathlib.Core.List.{IsPrefix};
ghost use Rattle.orc_heap.specs.{
  Domains.{MakesAtMost},
  Calls.{event_of},
  Heap.{link_to, shown},
  OwnEvents.{Only},
  Seats.{HoldsFresh, HoldsWant, heap_of, link_in},
  Slots.{Holds, IsFree, id_in},
};
ghost use Rattle.orc_history.specs.Journals.{Within};
ghost use Rattle.orc_cell.specs.{
  Publishes.{Aims, AimsGiven, ComesAfter, IsHalfReady, IsPartOf, IsPrepared, MayPublish, NotFresh, PublishesFrom, PublishesGiven, PublishesTurns, SideHeld, Staged, SwingsPair, aim_act, events_a_turn, events_for, events_of_turns, given_of, half_at, part_count, staging_root},
  declared.publish.{Half.{Half}, PublishTurn.{PublishTurn}},
  Turns.{HoldsPart, IsCellDomain, IsPairOf},
};
ghost use Rattle.orc_fault.specs.declared.Spent.{Spent as SpentRow};

use crate::read::{PAIR, hold_part};
use orc_fault::Spent;
use orc_heap::{At, Held, Links, Looked, Want};
use orc_pairs_rule::{CellEntry, Pairs, PairsNote};

/// One of the two parts of a pair.
#[derive(Clone, Copy)]
pub enum Half {
    Left,
    Right,
}

/// A part of a new pair.
pub enum New {
    /// Its value is given, and this node has it.
    Given(u64, Held),
    /// It isn't given, and no pair was published before: a node with the value 0.
    Zero(Held),
    /// It is that of the pair before.
    Kept,
}

/// How a turn of a publish ended.
pub enum PublishTurn {
    /// With no answer.
    Over,
    /// The pair was published, with these parts.
    Published(u64, u64),
    /// A part's row is worn.
    Spent(Spent),
}

// Aims one half of the new pair at a part.
fn aim_half<L: Links<Rule = Pairs>>(
    links: &L,
    p: &mut L::Pass,
    half: Half,
    pair: &Held,
    part: &Held,
) -> Result<(), Spent>
    requires pass { L.belongs links.now p.old }
    requires made { IsCellDomain (L.numbers links.now) (L.agents links.now) (L.opening links.now) }
    requires fresh { HoldsFresh (L.seat links.now p.old) pair.now }
    requires part { Holds (L.seat links.now p.old).slots part.now }
    requires other { NotFresh (L.seat links.now p.old) part.now }
    ensures pass { L.belongs links.now p.new }
    ensures later { IsPrefix (L.journal p.old) (L.journal p.new) }
    ensures tries { MakesAtMost L.Links links.now 1 p.old p.new }
    ensures aimed { IfOk result (λ _. Only (event_of (L.seat links.now p.old)
        (aim_act half (id_in (L.seat links.now p.old).slots pair.now) (Some (id_in (L.seat links.now p.old).slots part.now))) None ∷ [])
        (L.seat links.now p.old) (L.seat links.now p.new)) }
    ensures none { IfErr result (λ e. Only [] (L.seat links.now p.old) (L.seat links.now p.new)) }
    ensures worn { IfErr result (λ e. Within (length (L.journal p.old)) (length (L.journal p.new))
        (L.worn links.now (L.seat links.now p.old).agent e (L.journal p.new))) }
{
    match half {
        Half::Left => links.aim(p, pair, Some(part)),
        Half::Right => links.aim_side(p, pair, Some(part)),
    }
}

// Holds the part to which one half of a pair leads.
fn hold_half<L: Links<Rule = Pairs>>(
    links: &L,
    p: &mut L::Pass,
    half: Half,
    pair: &Held,
    slot: u32,
) -> Held
    requires pass { L.belongs links.now p.old }
    requires two { (L.numbers links.now).links ≡ 2 }
    requires held { Holds (L.seat links.now p.old).slots pair.now }
    requires slot { IsFree (L.seat links.now p.old).slots slot }
    requires pair { IsPairOf (heap_of (L.numbers links.now) (L.seat links.now p.old)) (id_in (L.seat links.now p.old).slots pair.now) }
    ensures pass { L.belongs links.now p.new }
    ensures later { IsPrefix (L.journal p.old) (L.journal p.new) }
    ensures tries { MakesAtMost L.Links links.now 2 p.old p.new }
    ensures held { HoldsPart (L.numbers links.now) (half_at half (id_in (L.seat links.now p.old).slots pair.now)) slot (L.seat links.now p.old) result
        (L.seat links.now p.new) }
    ensures holds { Holds (L.seat links.now p.new).slots result }
{
    match half {
        Half::Left => hold_part(links, p, &At::Node(pair), slot),
        Half::Right => hold_part(links, p, &At::Side(pair), slot),
    }
}

// Aims one half of the new pair at the part of the pair before.
fn aim_kept<L: Links<Rule = Pairs>>(
    links: &L,
    p: &mut L::Pass,
    half: Half,
    pair: &Held,
    old: &Held,
) -> Result<u64, Spent>
    requires pass { L.belongs links.now p.old }
    requires made { IsCellDomain (L.numbers links.now) (L.agents links.now) (L.opening links.now) }
    requires fresh { HoldsFresh (L.seat links.now p.old) pair.now }
    requires old { Holds (L.seat links.now p.old).slots old.now }
    requires slot { IsFree (L.seat links.now p.old).slots 5 }
    requires before { IsPairOf (heap_of (L.numbers links.now) (L.seat links.now p.old)) (id_in (L.seat links.now p.old).slots old.now) }
    ensures pass { L.belongs links.now p.new }
    ensures later { IsPrefix (L.journal p.old) (L.journal p.new) }
    ensures tries { MakesAtMost L.Links links.now 3 p.old p.new }
    ensures aimed { Aims (L.numbers links.now) half pair.now (λ id value. shown (heap_of (L.numbers links.now) (L.seat links.now p.old))
        (half_at half (id_in (L.seat links.now p.old).slots old.now)) ≡ Some (link_to id)) (L.seat links.now p.old) result (L.seat links.now p.new) }
    ensures worn { IfErr result (λ e. Within (length (L.journal p.old)) (length (L.journal p.new))
        (L.worn links.now (L.seat links.now p.old).agent e (L.journal p.new))) }
{
    let part = hold_half(links, p, half, old, 5);
    let value = links.value(p, &part, 0);
    let aimed = aim_half(links, p, half, pair, &part);
    links.release(p, part);
    match aimed {
        Ok(()) => Ok(value),
        Err(spent) => Err(spent),
    }
}

// Aims one half of the new pair at a staged part.
fn aim_staged<L: Links<Rule = Pairs>>(
    links: &L,
    p: &mut L::Pass,
    half: Half,
    pair: &Held,
    part: &Held,
    value: u64,
) -> Result<u64, Spent>
    requires pass { L.belongs links.now p.old }
    requires made { IsCellDomain (L.numbers links.now) (L.agents links.now) (L.opening links.now) }
    requires fresh { HoldsFresh (L.seat links.now p.old) pair.now }
    requires staged { Staged (L.numbers links.now) (staging_root half (L.seat links.now p.old).agent) value part.now (L.seat links.now p.old) }
    ensures pass { L.belongs links.now p.new }
    ensures later { IsPrefix (L.journal p.old) (L.journal p.new) }
    ensures tries { MakesAtMost L.Links links.now 1 p.old p.new }
    ensures aimed { Aims (L.numbers links.now) half pair.now (λ id x. x ≡ value) (L.seat links.now p.old) result (L.seat links.now p.new) }
    ensures worn { IfErr result (λ e. Within (length (L.journal p.old)) (length (L.journal p.new))
        (L.worn links.now (L.seat links.now p.old).agent e (L.journal p.new))) }
{
    match aim_half(links, p, half, pair, part) {
        Ok(()) => Ok(value),
        Err(spent) => Err(spent),
    }
}

// Aims one half of the new pair at the part, if that is given.
fn aim_given<L: Links<Rule = Pairs>>(
    links: &L,
    p: &mut L::Pass,
    half: Half,
    pair: &Held,
    new: &New,
) -> Result<(), Spent>
    requires pass { L.belongs links.now p.old }
    requires made { IsCellDomain (L.numbers links.now) (L.agents links.now) (L.opening links.now) }
    requires fresh { HoldsFresh (L.seat links.now p.old) pair.now }
    requires new { SideHeld (L.numbers links.now) (staging_root half (L.seat links.now p.old).agent) new.now (L.seat links.now p.old) }
    ensures pass { L.belongs links.now p.new }
    ensures later { IsPrefix (L.journal p.old) (L.journal p.new) }
    ensures tries { MakesAtMost L.Links links.now (part_count (given_of new.now)) p.old p.new }
    ensures aimed { AimsGiven (L.numbers links.now) half pair.now new.now (L.seat links.now p.old) result (L.seat links.now p.new) }
    ensures worn { IfErr result (λ e. Within (length (L.journal p.old)) (length (L.journal p.new))
        (L.worn links.now (L.seat links.now p.old).agent e (L.journal p.new))) }
{
    match new {
        New::Given(_, part) => aim_half(links, p, half, pair, part),
        New::Zero(_) => Ok(()),
        New::Kept => Ok(()),
    }
}

// Aims one half of a pair that is to follow what this link leads to. A part that is given was aimed at before.
fn aim_part<L: Links<Rule = Pairs>>(
    links: &L,
    p: &mut L::Pass,
    half: Half,
    pair: &Held,
    new: &New,
    from: &Want,
) -> Result<u64, Spent>
    requires pass { L.belongs links.now p.old }
    requires made { IsCellDomain (L.numbers links.now) (L.agents links.now) (L.opening links.now) }
    requires fresh { HoldsFresh (L.seat links.now p.old) pair.now }
    requires new { SideHeld (L.numbers links.now) (staging_root half (L.seat links.now p.old).agent) new.now (L.seat links.now p.old) }
    requires ready { IsHalfReady (L.numbers links.now) half pair.now new.now (L.seat links.now p.old) }
    requires follows { ComesAfter (L.numbers links.now) from.now (L.seat links.now p.old) new.now }
    requires slot { IsFree (L.seat links.now p.old).slots 5 }
    ensures pass { L.belongs links.now p.new }
    ensures later { IsPrefix (L.journal p.old) (L.journal p.new) }
    ensures tries { MakesAtMost L.Links links.now (events_for (given_of new.now)) p.old p.new }
    ensures aimed { Aims (L.numbers links.now) half pair.now (IsPartOf (L.numbers links.now) half from.now (L.seat links.now p.old) new.now)
        (L.seat links.now p.old) result (L.seat links.now p.new) }
    ensures same { given_of new.now ≢ None → L.seat links.now p.new ≡ L.seat links.now p.old }
    ensures worn { IfErr result (λ e. Within (length (L.journal p.old)) (length (L.journal p.new))
        (L.worn links.now (L.seat links.now p.old).agent e (L.journal p.new))) }
{
    match new {
        New::Given(value, _) => Ok(*value),
        New::Zero(part) => match *from {
            Want::Null(_) => aim_staged(links, p, half, pair, part, 0),
            Want::Node(old, _) => aim_kept(links, p, half, pair, old),
        },
        New::Kept => match *from {
            Want::Null(_) => unreachable!(),
            Want::Node(old, _) => aim_kept(links, p, half, pair, old),
        },
    }
}

// The value that is given.
fn given(new: &New) -> Option<u64>
    ensures { result ≡ given_of new.now }
{
    match new {
        New::Given(value, _) => Some(*value),
        New::Zero(_) => None,
        New::Kept => None,
    }
}

// Swings root 0 from this link to the new pair.
fn swing_pair<L: Links<Rule = Pairs>>(
    links: &L,
    p: &mut L::Pass,
    from: &Want,
    pair: &Held,
    left: &New,
    right: &New,
    parts: (u64, u64),
) -> bool
    requires pass { L.belongs links.now p.old }
    requires made { IsCellDomain (L.numbers links.now) (L.agents links.now) (L.opening links.now) }
    requires fresh { HoldsFresh (L.seat links.now p.old) pair.now }
    requires from { HoldsWant (L.seat links.now p.old).slots from.now }
    requires allowed { MayPublish (L.numbers links.now) (L.seat links.now p.old) (link_in (L.seat links.now p.old).slots from.now)
        (id_in (L.seat links.now p.old).slots pair.now) (given_of left.now) (given_of right.now) parts.0 parts.1 }
    ensures pass { L.belongs links.now p.new }
    ensures later { IsPrefix (L.journal p.old) (L.journal p.new) }
    ensures tries { MakesAtMost L.Links links.now 1 p.old p.new }
    ensures swung { SwingsPair (link_in (L.seat links.now p.old).slots from.now) (id_in (L.seat links.now p.old).slots pair.now)
        (given_of left.now) (given_of right.now) parts.0 parts.1 (L.seat links.now p.old) result (L.seat links.now p.new) }
{
    let agent = links.agent(p);
    let note = PairsNote::Entry(CellEntry::Published {
        agent,
        left: given(left),
        right: given(right),
        now_left: parts.0,
        now_right: parts.1,
    });
    match links.swing(
        p,
        &At::Root(PAIR),
        from,
        &Want::Node(pair, false),
        Some(note),
    ) {
        Ok(done) => done,
        Err(_) => unreachable!(),
    }
}

// Publishes a pair that follows what this link leads to, if root 0 still shows the link.
fn publish_from<L: Links<Rule = Pairs>>(
    links: &L,
    p: &mut L::Pass,
    pair: &Held,
    from: &Want,
    left: &New,
    right: &New,
) -> PublishTurn
    requires pass { L.belongs links.now p.old }
    requires made { IsCellDomain (L.numbers links.now) (L.agents links.now) (L.opening links.now) }
    requires prepared { IsPrepared (L.numbers links.now) pair.now left.now right.now (L.seat links.now p.old) }
    requires slot { IsFree (L.seat links.now p.old).slots 5 }
    requires follows { ComesAfter (L.numbers links.now) from.now (L.seat links.now p.old) left.now
        × ComesAfter (L.numbers links.now) from.now (L.seat links.now p.old) right.now }
    ensures pass { L.belongs links.now p.new }
    ensures later { IsPrefix (L.journal p.old) (L.journal p.new) }
    ensures tries { MakesAtMost L.Links links.now (events_for (given_of left.now) + events_for (given_of right.now) + 1) p.old p.new }
    ensures published { PublishesFrom (L.numbers links.now) (link_in (L.seat links.now p.old).slots from.now) (given_of left.now) (given_of right.now)
        pair.now (L.seat links.now p.old) result (L.seat links.now p.new) }
    ensures worn { (why : SpentRow) → result ≡ PublishTurn.Spent why → Within (length (L.journal p.old)) (length (L.journal p.new))
        (L.worn links.now (L.seat links.now p.old).agent why (L.journal p.new)) }
{
    let x = match aim_part(links, p, Half::Left, pair, left, from) {
        Ok(x) => x,
        Err(spent) => return PublishTurn::Spent(spent),
    };
    let y = match aim_part(links, p, Half::Right, pair, right, from) {
        Ok(y) => y,
        Err(spent) => return PublishTurn::Spent(spent),
    };
    if swing_pair(links, p, from, pair, left, right, (x, y)) {
        PublishTurn::Published(x, y)
    } else {
        PublishTurn::Over
    }
}

// Makes one turn of a publish.
fn publish_turn<L: Links<Rule = Pairs>>(
    links: &L,
    p: &mut L::Pass,
    pair: &Held,
    left: &New,
    right: &New,
) -> PublishTurn
    requires pass { L.belongs links.now p.old }
    requires made { IsCellDomain (L.numbers links.now) (L.agents links.now) (L.opening links.now) }
    requires prepared { IsPrepared (L.numbers links.now) pair.now left.now right.now (L.seat links.now p.old) }
    requires slots { IsFree (L.seat links.now p.old).slots 4 × IsFree (L.seat links.now p.old).slots 5 }
    ensures pass { L.belongs links.now p.new }
    ensures later { IsPrefix (L.journal p.old) (L.journal p.new) }
    ensures tries { MakesAtMost L.Links links.now (events_a_turn (given_of left.now) (given_of right.now)) p.old p.new }
    ensures published { PublishesTurns (L.numbers links.now) 1 (given_of left.now) (given_of right.now) pair.now (L.seat links.now p.old) result
        (L.seat links.now p.new) }
    ensures worn { (why : SpentRow) → result ≡ PublishTurn.Spent why → Within (length (L.journal p.old)) (length (L.journal p.new))
        (L.worn links.now (L.seat links.now p.old).agent why (L.journal p.new)) }
{
    match links.look(p, &At::Root(PAIR), 4) {
        Looked::Stable(_, Some(old)) => {
            let from = Want::Node(&old, false);
            let turn = publish_from(links, p, pair, &from, left, right);
            links.release(p, old);
            turn
        }
        Looked::Stable(_, None) => publish_from(links, p, pair, &Want::Null(false), left, right),
        Looked::Moved => PublishTurn::Over,
    }
}

// Aims the new pair at the parts that are given, and publishes it, in at most so many turns.
pub(crate) fn publish_given<L: Links<Rule = Pairs>>(
    links: &L,
    p: &mut L::Pass,
    pair: &Held,
    left: &New,
    right: &New,
    turns: u64,
) -> PublishTurn
    requires pass { L.belongs links.now p.old }
    requires made { IsCellDomain (L.numbers links.now) (L.agents links.now) (L.opening links.now) }
    requires fresh { HoldsFresh (L.seat links.now p.old) pair.now }
    requires left { SideHeld (L.numbers links.now) (staging_root Half.Left (L.seat links.now p.old).agent) left.now (L.seat links.now p.old) }
    requires right { SideHeld (L.numbers links.now) (staging_root Half.Right (L.seat links.now p.old).agent) right.now (L.seat links.now p.old) }
    requires slots { IsFree (L.seat links.now p.old).slots 4 × IsFree (L.seat links.now p.old).slots 5 }
    ensures pass { L.belongs links.now p.new }
    ensures later { IsPrefix (L.journal p.old) (L.journal p.new) }
    ensures tries { MakesAtMost L.Links links.now (events_of_turns turns (given_of left.now) (given_of right.now)) p.old p.new }
    ensures published { PublishesGiven (L.numbers links.now) turns (given_of left.now) (given_of right.now) pair.now (L.seat links.now p.old) result
        (L.seat links.now p.new) }
    ensures worn { (why : SpentRow) → result ≡ PublishTurn.Spent why → Within (length (L.journal p.old)) (length (L.journal p.new))
        (L.worn links.now (L.seat links.now p.old).agent why (L.journal p.new)) }
{
    match aim_given(links, p, Half::Left, pair, left) {
        Ok(()) => {}
        Err(spent) => return PublishTurn::Spent(spent),
    }
    match aim_given(links, p, Half::Right, pair, right) {
        Ok(()) => {}
        Err(spent) => return PublishTurn::Spent(spent),
    }
    publish_turns(links, p, pair, left, right, turns)
}

// Publishes the new pair, in at most so many turns.
fn publish_turns<L: Links<Rule = Pairs>>(
    links: &L,
    p: &mut L::Pass,
    pair: &Held,
    left: &New,
    right: &New,
    turns: u64,
) -> PublishTurn
    requires pass { L.belongs links.now p.old }
    requires made { IsCellDomain (L.numbers links.now) (L.agents links.now) (L.opening links.now) }
    requires prepared { IsPrepared (L.numbers links.now) pair.now left.now right.now (L.seat links.now p.old) }
    requires slots { IsFree (L.seat links.now p.old).slots 4 × IsFree (L.seat links.now p.old).slots 5 }
    ensures pass { L.belongs links.now p.new }
    ensures later { IsPrefix (L.journal p.old) (L.journal p.new) }
    ensures tries { MakesAtMost L.Links links.now (turns * events_a_turn (given_of left.now) (given_of right.now)) p.old p.new }
    ensures published { PublishesTurns (L.numbers links.now) turns (given_of left.now) (given_of right.now) pair.now (L.seat links.now p.old) result
        (L.seat links.now p.new) }
    ensures worn { (why : SpentRow) → result ≡ PublishTurn.Spent why → Within (length (L.journal p.old)) (length (L.journal p.new))
        (L.worn links.now (L.seat links.now p.old).agent why (L.journal p.new)) }
{
    for _ in 0..turns {
        match publish_turn(links, p, pair, left, right) {
            PublishTurn::Over => {}
            turn => return turn,
        }
    }
    PublishTurn::Over
}
