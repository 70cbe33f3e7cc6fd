//! Adding a key.

ghost use Rattle.std.specs.Prelude.{◌≡◌, ◌<◌, ◌%◌, ℕ, Err, None, Ok, true};
ghost use mathlib.Core.List.{IsPrefix};
ghost use Rattle.orc_fault.specs.declared.Spent.{Spent};
ghost use Rattle.orc_heap.specs.{Seats.{IsIdle, heap_of}, Slots.{Slots}};
ghost use Rattle.orc_history.specs.{Parts.{WithinPart}, declared.set.{ListRefused.{ListRefused}, SetEntry.{SetEntry}}};
ghost use Rattle.orc_list.specs.{Inserts.{LeavesRunOff, SeesAbsent}, Searches.{list_reading}, Turns.{MadeFew}};
ghost use Rattle.orc_ordered_search.specs.{
  Inserts.{HasRoomFor, InsertAnswers, Inserts, InsertsTurns, KeepsNode},
  Turns.{made_from},
  declared.turn.InsertTurn.{InsertTurn},
};

use crate::key::Key;
use orc_chain_rule::Chain;
use orc_heap::{Held, Links};
use orc_history::ListRefused;
use orc_ordered_search::{InsertTurn, answer_of, insert_found, let_go, search_chain};

// One turn of an insert, with the node that an earlier turn was given, if one was.
fn insert_turn<L: Links<Rule = Chain>>(
    links: &L,
    p: &mut L::Pass,
    root: u32,
    key: u64,
    node: Option<Held>,
) -> (InsertTurn, Option<Held>)
    requires pass { L.belongs links.now p.old }
    requires root { (root < (L.numbers links.now).roots) × (root ≡ key % (L.numbers links.now).roots) }
    requires keeps { (slots : Slots) × HasRoomFor slots × KeepsNode (list_reading (L.numbers links.now)) key 0 node slots (L.seat links.now p.old) }
    ensures pass { L.belongs links.now p.new }
    ensures later { IsPrefix (L.journal p.old) (L.journal p.new) }
    ensures inserted { (slots : Slots) → HasRoomFor slots → KeepsNode (list_reading (L.numbers links.now)) key 0 node slots (L.seat links.now p.old)
        → Inserts (list_reading (L.numbers links.now)) key 0 (λ yes. SetEntry.Added (L.seat links.now p.old).agent key yes) 1 slots node
        (L.seat links.now p.old) result.0 result.1 (L.seat links.now p.new) }
    ensures few { MadeFew 1 (L.seat links.now p.old) (L.seat links.now p.new) }
    ensures off { (many : ℕ) → result.0 ≡ InsertTurn.Answered true many
        → LeavesRunOff key (made_from (L.seat links.now p.old) (L.seat links.now p.new)) (heap_of (L.numbers links.now) (L.seat links.now p.new)) }
    ensures absent { result.0 ≡ InsertTurn.NoNode
        → SeesAbsent (L.numbers links.now) key (made_from (L.seat links.now p.old) (L.seat links.now p.new)) (L.seat links.now p.new) }
    ensures lacking { result.0 ≡ InsertTurn.NoNode → WithinPart L.agent_of (L.seat links.now p.old).agent (L.journal p.old) (L.journal p.new)
        (L.lacking links.now (L.seat links.now p.old).agent (L.journal p.new)) }
    ensures worn { (why : Spent) → result.0 ≡ InsertTurn.Spent why
        → WithinPart L.agent_of (L.seat links.now p.old).agent (L.journal p.old) (L.journal p.new) (L.worn links.now (L.seat links.now p.old).agent why
        (L.journal p.new)) }
{
    let found = search_chain(links, p, root, Key(key), None);
    insert_found::<Key, L>(links, p, root, key, found, node)
}

// Adds the key, in at most so many turns, and answers with the node that is left in hand.
fn insert_turns<L: Links<Rule = Chain>>(
    links: &L,
    p: &mut L::Pass,
    root: u32,
    key: u64,
    turns: u64,
) -> (InsertTurn, Option<Held>)
    requires pass { L.belongs links.now p.old }
    requires root { (root < (L.numbers links.now).roots) × (root ≡ key % (L.numbers links.now).roots) }
    requires room { HasRoomFor (L.seat links.now p.old).slots }
    requires fresh { (L.seat links.now p.old).fresh ≡ None }
    ensures pass { L.belongs links.now p.new }
    ensures later { IsPrefix (L.journal p.old) (L.journal p.new) }
    ensures inserted { InsertsTurns (list_reading (L.numbers links.now)) key 0 (λ yes. SetEntry.Added (L.seat links.now p.old).agent key yes) turns
        (L.seat links.now p.old) result.0 result.1 (L.seat links.now p.new) }
    ensures few { MadeFew turns (L.seat links.now p.old) (L.seat links.now p.new) }
    ensures off { (many : ℕ) → result.0 ≡ InsertTurn.Answered true many
        → LeavesRunOff key (made_from (L.seat links.now p.old) (L.seat links.now p.new)) (heap_of (L.numbers links.now) (L.seat links.now p.new)) }
    ensures absent { result.0 ≡ InsertTurn.NoNode
        → SeesAbsent (L.numbers links.now) key (made_from (L.seat links.now p.old) (L.seat links.now p.new)) (L.seat links.now p.new) }
    ensures lacking { result.0 ≡ InsertTurn.NoNode → WithinPart L.agent_of (L.seat links.now p.old).agent (L.journal p.old) (L.journal p.new)
        (L.lacking links.now (L.seat links.now p.old).agent (L.journal p.new)) }
    ensures worn { (why : Spent) → result.0 ≡ InsertTurn.Spent why
        → WithinPart L.agent_of (L.seat links.now p.old).agent (L.journal p.old) (L.journal p.new) (L.worn links.now (L.seat links.now p.old).agent why
        (L.journal p.new)) }
{
    let mut node = None;
    for _ in 0..turns {
        let (turn, kept) = insert_turn(links, p, root, key, node);
        node = kept;
        match turn {
            InsertTurn::Over => {}
            turn => return (turn, node),
        }
    }
    (InsertTurn::Over, node)
}

// Adds the key, in at most so many turns.
pub(crate) fn insert_key<L: Links<Rule = Chain>>(
    links: &L,
    p: &mut L::Pass,
    root: u32,
    key: u64,
    turns: u64,
) -> Result<bool, ListRefused>
    requires pass { L.belongs links.now p.old }
    requires root { (root < (L.numbers links.now).roots) × (root ≡ key % (L.numbers links.now).roots) }
    requires idle { IsIdle (L.seat links.now p.old) }
    ensures pass { L.belongs links.now p.new }
    ensures later { IsPrefix (L.journal p.old) (L.journal p.new) }
    ensures inserted { InsertAnswers (list_reading (L.numbers links.now)) (λ yes. SetEntry.Added (L.seat links.now p.old).agent key yes) turns
        (L.seat links.now p.old) result (L.seat links.now p.new) }
    ensures few { MadeFew turns (L.seat links.now p.old) (L.seat links.now p.new) }
    ensures off { result ≡ Ok true
        → LeavesRunOff key (made_from (L.seat links.now p.old) (L.seat links.now p.new)) (heap_of (L.numbers links.now) (L.seat links.now p.new)) }
    ensures absent { result ≡ Err ListRefused.NoNode
        → SeesAbsent (L.numbers links.now) key (made_from (L.seat links.now p.old) (L.seat links.now p.new)) (L.seat links.now p.new) }
    ensures lacking { result ≡ Err ListRefused.NoNode → WithinPart L.agent_of (L.seat links.now p.old).agent (L.journal p.old) (L.journal p.new)
        (L.lacking links.now (L.seat links.now p.old).agent (L.journal p.new)) }
    ensures worn { (why : Spent) → result ≡ Err (ListRefused.Spent why)
        → WithinPart L.agent_of (L.seat links.now p.old).agent (L.journal p.old) (L.journal p.new) (L.worn links.now (L.seat links.now p.old).agent why
        (L.journal p.new)) }
{
    let (turn, node) = insert_turns(links, p, root, key, turns);
    let_go(links, p, node);
    answer_of(turn)
}
