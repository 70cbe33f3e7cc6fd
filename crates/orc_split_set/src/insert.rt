//! Adding a key.

ghost use Rattle.std.specs.Prelude.{◌≡◌, ◌<◌, ◌≤◌, ◌+◌, ◌*◌, ◌^◌, ℕ, None, Option, true};
ghost use mathlib.Core.List.{IsPrefix};
ghost use Rattle.orc_fault.specs.declared.Spent.{Spent};
ghost use Rattle.orc_heap.specs.{Moves.{gives_in}, Seats.{IsIdle, Seat, heap_of}, Slots.{Slots}, declared.events.Place.{Place}};
ghost use Rattle.orc_history.specs.{declared.set.SetEntry.{SetEntry}, Parts.{WithinPart}};
ghost use Rattle.orc_ordered_search.specs.{
  Inserts.{HasRoomFor, InsertAnswers, Inserts, InsertsTurns, KeepsNode, SeesAbsent, answer_by},
  Turns.{made_from},
  declared.turn.InsertTurn.{InsertTurn},
};
ghost use Rattle.orc_split_rule.specs.{SplitDiscipline.{greatest}, SplitOrder.{key_place}, declared.split.SplitNote.{SplitNote}};
ghost use Rattle.orc_split_set.specs.{Crowds.{BeginsBy, CountsFrom, CountsKeys}, FewEvents.{MadeFewBySearch}, SplitSearches.{BeginsAt, split_reading}};

use crate::begin::{Begun, begin};
use crate::node::NewNode;
use crate::order::SplitPlace;
use crate::search::search_for;
use orc_heap::{Held, Links};
use orc_ordered_search::{InsertTurn, insert_found, let_go};
use orc_split_rule::Split;

// One turn of an insert, which begins at the dummy in hand, or else at root 0, with the node that an earlier turn was given,
// if one was.
fn insert_from<L: Links<Rule = Split>>(
    links: &L,
    p: &mut L::Pass,
    key: u64,
    left: Option<Held>,
    node: Option<Held>,
) -> (InsertTurn, Option<Held>)
    requires pass { L.belongs links.now p.old }
    requires roots { 0 < (L.numbers links.now).roots }
    requires begins { (start : Place) × (slots : Slots) × (s : Seat SplitNote) × HasRoomFor slots
        × KeepsNode (split_reading (L.numbers links.now)) key 1 node slots s
        × BeginsAt (L.numbers links.now) start (key_place key) left s (L.seat links.now p.old) }
    ensures pass { L.belongs links.now p.new }
    ensures later { IsPrefix (L.journal p.old) (L.journal p.new) }
    ensures tries { MadeFewBySearch 4 1 (3 * gives_in (made_from (L.seat links.now p.old) (L.seat links.now p.new)))
        (L.seat links.now p.old) (L.seat links.now p.new) }
    ensures inserted { (start : Place) (slots : Slots) (s : Seat SplitNote) → HasRoomFor slots
        → KeepsNode (split_reading (L.numbers links.now)) key 1 node slots s
        → BeginsAt (L.numbers links.now) start (key_place key) left s (L.seat links.now p.old)
        → Inserts (split_reading (L.numbers links.now)) key 1 (λ answer. SetEntry.Added s.agent key answer) 1 slots node s result.0 result.1
        (L.seat links.now p.new) }
    ensures counted { (start : Place) (slots : Slots) (s : Seat SplitNote) → HasRoomFor slots
        → KeepsNode (split_reading (L.numbers links.now)) key 1 node slots s
        → BeginsAt (L.numbers links.now) start (key_place key) left s (L.seat links.now p.old)
        → (bucket many : ℕ) → BeginsBy (heap_of (L.numbers links.now) s) start bucket → result.0 ≡ InsertTurn.Answered true many
        → CountsFrom bucket key s many (L.seat links.now p.new) }
    ensures absent { (start : Place) (slots : Slots) (s : Seat SplitNote) → HasRoomFor slots
        → KeepsNode (split_reading (L.numbers links.now)) key 1 node slots s
        → BeginsAt (L.numbers links.now) start (key_place key) left s (L.seat links.now p.old)
        → result.0 ≡ InsertTurn.NoNode → SeesAbsent (split_reading (L.numbers links.now)) (key_place key) (made_from s (L.seat links.now p.new))
        (L.seat links.now p.new) }
    ensures lacking { result.0 ≡ InsertTurn.NoNode → WithinPart L.agent_of (L.seat links.now p.old).agent (L.journal p.old) (L.journal p.new)
        (L.lacking links.now (L.seat links.now p.old).agent (L.journal p.new)) }
    ensures worn { (why : Spent) → result.0 ≡ InsertTurn.Spent why
        → WithinPart L.agent_of (L.seat links.now p.old).agent (L.journal p.old) (L.journal p.new) (L.worn links.now (L.seat links.now p.old).agent why
        (L.journal p.new)) }
{
    let found = search_for(links, p, NewNode::Key(key), left);
    insert_found::<SplitPlace, L>(links, p, 0, key, found, node)
}

// One turn of an insert, with the node that an earlier turn was given, if one was.
fn insert_turn<L: Links<Rule = Split>>(
    links: &L,
    p: &mut L::Pass,
    most: u32,
    key: u64,
    node: Option<Held>,
) -> (InsertTurn, Option<Held>)
    requires pass { L.belongs links.now p.old }
    requires most { (most ≡ greatest (L.numbers links.now)) × (1 ≤ most) }
    requires keeps { (slots : Slots) × HasRoomFor slots × KeepsNode (split_reading (L.numbers links.now)) key 1 node slots (L.seat links.now p.old) }
    ensures pass { L.belongs links.now p.new }
    ensures later { IsPrefix (L.journal p.old) (L.journal p.new) }
    ensures tries { (k : ℕ) → most ≤ 2 ^ k → MadeFewBySearch (6 + 2 * k) 1 (3 * gives_in (made_from (L.seat links.now p.old) (L.seat links.now p.new)))
        (L.seat links.now p.old) (L.seat links.now p.new) }
    ensures inserted { (slots : Slots) → HasRoomFor slots → KeepsNode (split_reading (L.numbers links.now)) key 1 node slots (L.seat links.now p.old)
        → Inserts (split_reading (L.numbers links.now)) key 1 (λ answer. SetEntry.Added (L.seat links.now p.old).agent key answer) 1 slots node
        (L.seat links.now p.old) result.0 result.1 (L.seat links.now p.new) }
    ensures counted { (many : ℕ) → result.0 ≡ InsertTurn.Answered true many → CountsKeys (L.numbers links.now) key (L.seat links.now p.old) many
        (L.seat links.now p.new) }
    ensures absent { result.0 ≡ InsertTurn.NoNode → SeesAbsent (split_reading (L.numbers links.now)) (key_place key)
        (made_from (L.seat links.now p.old) (L.seat links.now p.new)) (L.seat links.now p.new) }
    ensures lacking { result.0 ≡ InsertTurn.NoNode → WithinPart L.agent_of (L.seat links.now p.old).agent (L.journal p.old) (L.journal p.new)
        (L.lacking links.now (L.seat links.now p.old).agent (L.journal p.new)) }
    ensures worn { (why : Spent) → result.0 ≡ InsertTurn.Spent why
        → WithinPart L.agent_of (L.seat links.now p.old).agent (L.journal p.old) (L.journal p.new) (L.worn links.now (L.seat links.now p.old).agent why
        (L.journal p.new)) }
{
    match begin(links, p, most, key) {
        Begun::Moved => (InsertTurn::Over, node),
        Begun::From(left) => insert_from(links, p, key, left, node),
    }
}

// Adds the key, in at most so many turns, and answers with the node that is left in hand.
fn insert_turns<L: Links<Rule = Split>>(
    links: &L,
    p: &mut L::Pass,
    most: u32,
    key: u64,
    turns: u64,
) -> (InsertTurn, Option<Held>)
    requires pass { L.belongs links.now p.old }
    requires most { (most ≡ greatest (L.numbers links.now)) × (1 ≤ most) }
    requires room { HasRoomFor (L.seat links.now p.old).slots }
    requires fresh { (L.seat links.now p.old).fresh ≡ None }
    ensures pass { L.belongs links.now p.new }
    ensures later { IsPrefix (L.journal p.old) (L.journal p.new) }
    ensures tries { (k : ℕ) → most ≤ 2 ^ k → MadeFewBySearch (6 + 2 * k) turns (3 * gives_in (made_from (L.seat links.now p.old) (L.seat links.now p.new)))
        (L.seat links.now p.old) (L.seat links.now p.new) }
    ensures inserted { InsertsTurns (split_reading (L.numbers links.now)) key 1 (λ answer. SetEntry.Added (L.seat links.now p.old).agent key answer) turns
        (L.seat links.now p.old) result.0 result.1 (L.seat links.now p.new) }
    ensures counted { (many : ℕ) → result.0 ≡ InsertTurn.Answered true many → CountsKeys (L.numbers links.now) key (L.seat links.now p.old) many
        (L.seat links.now p.new) }
    ensures absent { result.0 ≡ InsertTurn.NoNode → SeesAbsent (split_reading (L.numbers links.now)) (key_place key)
        (made_from (L.seat links.now p.old) (L.seat links.now p.new)) (L.seat links.now p.new) }
    ensures lacking { result.0 ≡ InsertTurn.NoNode → WithinPart L.agent_of (L.seat links.now p.old).agent (L.journal p.old) (L.journal p.new)
        (L.lacking links.now (L.seat links.now p.old).agent (L.journal p.new)) }
    ensures worn { (why : Spent) → result.0 ≡ InsertTurn.Spent why
        → WithinPart L.agent_of (L.seat links.now p.old).agent (L.journal p.old) (L.journal p.new) (L.worn links.now (L.seat links.now p.old).agent why
        (L.journal p.new)) }
{
    let mut node = None;
    for _ in 0..turns {
        let (turn, kept) = insert_turn(links, p, most, key, node);
        node = kept;
        match turn {
            InsertTurn::Over => {}
            turn => return (turn, node),
        }
    }
    (InsertTurn::Over, node)
}

// Adds the key, in at most so many turns, and answers how they ended.
pub(crate) fn insert_key<L: Links<Rule = Split>>(
    links: &L,
    p: &mut L::Pass,
    most: u32,
    key: u64,
    turns: u64,
) -> InsertTurn
    requires pass { L.belongs links.now p.old }
    requires most { (most ≡ greatest (L.numbers links.now)) × (1 ≤ most) }
    requires idle { IsIdle (L.seat links.now p.old) }
    ensures pass { L.belongs links.now p.new }
    ensures later { IsPrefix (L.journal p.old) (L.journal p.new) }
    ensures tries { (k : ℕ) → most ≤ 2 ^ k → MadeFewBySearch (6 + 2 * k) turns (3 * gives_in (made_from (L.seat links.now p.old) (L.seat links.now p.new)))
        (L.seat links.now p.old) (L.seat links.now p.new) }
    ensures inserted { InsertAnswers (split_reading (L.numbers links.now)) (λ answer. SetEntry.Added (L.seat links.now p.old).agent key answer) turns
        (L.seat links.now p.old) (answer_by result) (L.seat links.now p.new) }
    ensures counted { (many : ℕ) → result ≡ InsertTurn.Answered true many → CountsKeys (L.numbers links.now) key (L.seat links.now p.old) many
        (L.seat links.now p.new) }
    ensures absent { result ≡ InsertTurn.NoNode → SeesAbsent (split_reading (L.numbers links.now)) (key_place key)
        (made_from (L.seat links.now p.old) (L.seat links.now p.new)) (L.seat links.now p.new) }
    ensures lacking { result ≡ InsertTurn.NoNode → WithinPart L.agent_of (L.seat links.now p.old).agent (L.journal p.old) (L.journal p.new)
        (L.lacking links.now (L.seat links.now p.old).agent (L.journal p.new)) }
    ensures worn { (why : Spent) → result ≡ InsertTurn.Spent why
        → WithinPart L.agent_of (L.seat links.now p.old).agent (L.journal p.old) (L.journal p.new) (L.worn links.now (L.seat links.now p.old).agent why
        (L.journal p.new)) }
{
    let (turn, node) = insert_turns(links, p, most, key, turns);
    let_go(links, p, node);
    turn
}
