//! Answers whether a key is present, and takes it out.

ghost use Rattle.std.specs.Prelude.{◌≡◌, ◌<◌, ◌≤◌, ◌+◌, ◌*◌, ◌-◌, ◌^◌, ℕ, Ok, Err, List, Option, Some, true};
ghost use mathlib.Core.List.{IsPrefix};
ghost use Rattle.orc_heap.specs.{Seats.{Seat, heap_of}, declared.events.Place.{Place}};
ghost use Rattle.orc_ordered_chains.specs.Chains.{IsPath};
ghost use Rattle.orc_ordered_search.specs.{Entries.{entry_by}, Searches.{HasRoom}, Turns.{AnswersTurn, AnswersTurns}};
ghost use Rattle.orc_split_rule.specs.{SplitDiscipline.{greatest}, SplitOrder.{key_place}, declared.split.SplitNote.{SplitNote}};
ghost use Rattle.orc_split_set.specs.{
  FewEvents.{MadeFewBySearch},
  Looks.{HasStart, LoadsFew, MayEnd, ReachesIn, StepsFew, bucket_now, root_loads, search_loads},
  SplitSearches.{BeginsAt, split_reading},
};

use crate::begin::{Begun, begin};
use crate::node::NewNode;
use crate::order::SplitPlace;
use crate::search::search_for;
use orc_fault::Again;
use orc_heap::{Held, Links};
use orc_ordered_search::{Call, answer_found};
use orc_split_rule::Split;

// One turn of a call, which begins at the dummy in hand, or else at root 0.
fn call_from<L: Links<Rule = Split>>(
    links: &L,
    p: &mut L::Pass,
    key: u64,
    call: Call,
    left: Option<Held>,
) -> Option<bool>
    requires pass { L.belongs links.now p.old }
    requires roots { 0 < (L.numbers links.now).roots }
    requires begins { (start : Place) × (s : Seat SplitNote) × HasRoom s.slots
        × BeginsAt (L.numbers links.now) start (key_place key) left s (L.seat links.now p.old) }
    ensures pass { L.belongs links.now p.new }
    ensures later { IsPrefix (L.journal p.old) (L.journal p.new) }
    ensures tries { MadeFewBySearch 4 1 0 (L.seat links.now p.old) (L.seat links.now p.new) }
    ensures answered { (start : Place) (s : Seat SplitNote) → HasRoom s.slots
        → BeginsAt (L.numbers links.now) start (key_place key) left s (L.seat links.now p.old)
        → AnswersTurn (split_reading (L.numbers links.now)) (λ yes. entry_by call s.agent key yes) s result (L.seat links.now p.new) }
    ensures few { call ≡ Call.Ask → (start : Place) (s : Seat SplitNote) → HasRoom s.slots
        → BeginsAt (L.numbers links.now) start (key_place key) left s (L.seat links.now p.old)
        → (nodes : List ℕ) (to : Option ℕ) → IsPath (heap_of (L.numbers links.now) s) start nodes to
        → MayEnd (heap_of (L.numbers links.now) s) (key_place key) to → LoadsFew (search_loads nodes to + 1) s (L.seat links.now p.new) }
    ensures taken { call ≡ Call.Remove → result ≡ Some true → (start : Place) (s : Seat SplitNote) → HasRoom s.slots
        → BeginsAt (L.numbers links.now) start (key_place key) left s (L.seat links.now p.old)
        → (nodes : List ℕ) (to : Option ℕ) → IsPath (heap_of (L.numbers links.now) s) start nodes to
        → MayEnd (heap_of (L.numbers links.now) s) (key_place key) to → StepsFew (search_loads nodes to + 2) s (L.seat links.now p.new) }
{
    let found = search_for(links, p, NewNode::Key(key), left);
    answer_found::<SplitPlace, L>(links, p, 0, key, call, found)
}

// One turn of a call.
fn call_turn<L: Links<Rule = Split>>(
    links: &L,
    p: &mut L::Pass,
    most: u32,
    key: u64,
    call: Call,
) -> Option<bool>
    requires pass { L.belongs links.now p.old }
    requires most { (most ≡ greatest (L.numbers links.now)) × (1 ≤ most) }
    requires room { HasRoom (L.seat links.now p.old).slots }
    ensures pass { L.belongs links.now p.new }
    ensures later { IsPrefix (L.journal p.old) (L.journal p.new) }
    ensures tries { (k : ℕ) → most ≤ 2 ^ k → MadeFewBySearch (6 + 2 * k) 1 0 (L.seat links.now p.old) (L.seat links.now p.new) }
    ensures answered { AnswersTurn (split_reading (L.numbers links.now)) (λ yes. entry_by call (L.seat links.now p.old).agent key yes)
        (L.seat links.now p.old) result (L.seat links.now p.new) }
    ensures few { call ≡ Call.Ask
        → HasStart (heap_of (L.numbers links.now) (L.seat links.now p.old)) (bucket_now (L.numbers links.now) key (L.seat links.now p.old))
        → (many : ℕ) → ReachesIn (heap_of (L.numbers links.now) (L.seat links.now p.old))
        (bucket_now (L.numbers links.now) key (L.seat links.now p.old)) (key_place key) many
        → LoadsFew (6 + 4 * many - root_loads (bucket_now (L.numbers links.now) key (L.seat links.now p.old))) (L.seat links.now p.old)
        (L.seat links.now p.new) }
    ensures taken { call ≡ Call.Remove → result ≡ Some true
        → HasStart (heap_of (L.numbers links.now) (L.seat links.now p.old)) (bucket_now (L.numbers links.now) key (L.seat links.now p.old))
        → (many : ℕ) → ReachesIn (heap_of (L.numbers links.now) (L.seat links.now p.old))
        (bucket_now (L.numbers links.now) key (L.seat links.now p.old)) (key_place key) many
        → StepsFew (7 + 4 * many - root_loads (bucket_now (L.numbers links.now) key (L.seat links.now p.old))) (L.seat links.now p.old)
        (L.seat links.now p.new) }
{
    match begin(links, p, most, key) {
        Begun::Moved => None,
        Begun::From(left) => call_from(links, p, key, call, left),
    }
}

// Answers whether the key is present, or takes it out, in at most so many turns.
pub(crate) fn call_turns<L: Links<Rule = Split>>(
    links: &L,
    p: &mut L::Pass,
    most: u32,
    key: u64,
    call: Call,
    turns: u64,
) -> Result<bool, Again>
    requires pass { L.belongs links.now p.old }
    requires most { (most ≡ greatest (L.numbers links.now)) × (1 ≤ most) }
    requires room { HasRoom (L.seat links.now p.old).slots }
    ensures pass { L.belongs links.now p.new }
    ensures later { IsPrefix (L.journal p.old) (L.journal p.new) }
    ensures tries { (k : ℕ) → most ≤ 2 ^ k → MadeFewBySearch (6 + 2 * k) turns 0 (L.seat links.now p.old) (L.seat links.now p.new) }
    ensures answered { AnswersTurns (split_reading (L.numbers links.now)) (λ yes. entry_by call (L.seat links.now p.old).agent key yes) turns
        (L.seat links.now p.old) result (L.seat links.now p.new) }
    ensures few { call ≡ Call.Ask
        → HasStart (heap_of (L.numbers links.now) (L.seat links.now p.old)) (bucket_now (L.numbers links.now) key (L.seat links.now p.old))
        → (many : ℕ) → ReachesIn (heap_of (L.numbers links.now) (L.seat links.now p.old))
        (bucket_now (L.numbers links.now) key (L.seat links.now p.old)) (key_place key) many
        → LoadsFew (6 + 4 * many - root_loads (bucket_now (L.numbers links.now) key (L.seat links.now p.old))) (L.seat links.now p.old)
        (L.seat links.now p.new) }
    ensures taken { call ≡ Call.Remove → result ≡ Ok true
        → HasStart (heap_of (L.numbers links.now) (L.seat links.now p.old)) (bucket_now (L.numbers links.now) key (L.seat links.now p.old))
        → (many : ℕ) → ReachesIn (heap_of (L.numbers links.now) (L.seat links.now p.old))
        (bucket_now (L.numbers links.now) key (L.seat links.now p.old)) (key_place key) many
        → StepsFew (7 + 4 * many - root_loads (bucket_now (L.numbers links.now) key (L.seat links.now p.old))) (L.seat links.now p.old)
        (L.seat links.now p.new) }
{
    for _ in 0..turns {
        if let Some(answer) = call_turn(links, p, most, key, call) {
            return Ok(answer);
        }
    }
    Err(Again)
}
