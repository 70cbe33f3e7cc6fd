//! Calls that answer whether a key is present, and may take it out.

ghost use Rattle.std.specs.Prelude.{◌≡◌, ◌≢◌, ◌<◌, if◌then◌else◌, None, Some, true};
ghost use mathlib.Core.List.{IsPrefix};
ghost use Rattle.orc_heap.specs.{Seats.{Seat}, declared.events.Place.{Place}};
ghost use Rattle.orc_history.specs.declared.set.SetEntry.{SetEntry};
ghost use Rattle.orc_ordered_search.specs.{
  Causes.{HasWorn},
  Entries.{entry_by},
  Reading.{reading_by},
  Steps.{Finds},
  Turns.{AnswersTurn, LoadsOnce, TakesFound, made_from},
  Ways.{IsFew},
};

use crate::answer::{enter_absent, enter_present};
use crate::remove::take_out;
use crate::set_rank::SetRank;
use crate::walk::Searched;
use orc_heap::Links;
use orc_history::SetEntry;

/// A call that answers whether a key is present.
#[derive(Clone, Copy)]
pub enum Call {
    /// It changes nothing.
    Ask,
    /// It takes the key out.
    Remove,
}

// What this agent enters where the call answers so.
fn entry_of(call: Call, agent: u32, key: u64, yes: bool) -> SetEntry
    ensures { result ≡ entry_by call agent key yes }
{
    match call {
        Call::Ask => SetEntry::Asked { agent, key, yes },
        Call::Remove => SetEntry::Removed { agent, key, yes },
    }
}

// This answer, if it was entered.
fn answer_if(entered: bool, yes: bool) -> Option<bool>
    ensures { result ≡ (if entered then Some yes else None) }
{
    if entered { Some(yes) } else { None }
}

/// Answers by what a search found, unless a link moved meanwhile. Lets all nodes go.
pub fn answer_found<K: SetRank, L: Links<Rule = K::Rule>>(
    links: &L,
    p: &mut L::Pass,
    root: u32,
    key: u64,
    call: Call,
    found: Searched,
) -> Option<bool>
    requires pass { L.belongs links.now p.old }
    requires root { (root < (L.numbers links.now).roots) × (root ≡ (reading_by (L.numbers links.now) K.manner).order.root (K.key_rank key)) }
    requires found { (start : Place) × (s : Seat K.Rule.Note) × Finds (reading_by (L.numbers links.now) K.manner) start (K.key_rank key) s found
        (L.seat links.now p.old) }
    ensures pass { L.belongs links.now p.new }
    ensures later { IsPrefix (L.journal p.old) (L.journal p.new) }
    ensures answered { (start : Place) (s : Seat K.Rule.Note)
        → Finds (reading_by (L.numbers links.now) K.manner) start (K.key_rank key) s found (L.seat links.now p.old)
        → AnswersTurn (reading_by (L.numbers links.now) K.manner) (λ yes. entry_by call s.agent key yes) s result (L.seat links.now p.new) }
    ensures few { (start : Place) (s : Seat K.Rule.Note)
        → Finds (reading_by (L.numbers links.now) K.manner) start (K.key_rank key) s found (L.seat links.now p.old)
        → IsFew 4 (made_from s (L.seat links.now p.new)) }
    ensures load { call ≡ Call.Ask → found ≢ Searched.Over → LoadsOnce (L.seat links.now p.old) (L.seat links.now p.new) }
    ensures taken { (start : Place) (s : Seat K.Rule.Note)
        → Finds (reading_by (L.numbers links.now) K.manner) start (K.key_rank key) s found (L.seat links.now p.old)
        → call ≡ Call.Remove → result ≡ Some true
        → TakesFound (reading_by (L.numbers links.now) K.manner) (K.noted (SetEntry.Removed (L.seat links.now p.old).agent key true)) K.unlinking start
        (K.key_rank key)
        (HasWorn (L.worn links.now (L.seat links.now p.old).agent) (L.journal p.old) (L.journal p.new)) s (L.seat links.now p.old) (L.seat links.now p.new) }
{
    let agent = links.agent(p);
    match found {
        Searched::Over => None,
        Searched::Absent {
            left,
            first,
            right,
            passed: _,
        } => {
            let entry = entry_of(call, agent, key, false);
            let entered = enter_absent::<K, L>(links, p, root, key, left, first, right, entry);
            answer_if(entered, false)
        }
        Searched::Present {
            left,
            first,
            node,
            next,
            passed: _,
        } => match call {
            Call::Ask => {
                let yes = true;
                let entry = SetEntry::Asked { agent, key, yes };
                let entered = enter_present::<K, L>(links, p, key, left, first, node, next, entry);
                answer_if(entered, yes)
            }
            Call::Remove => {
                let removed = take_out::<K, L>(links, p, root, key, left, first, node, next);
                answer_if(removed, true)
            }
        },
    }
}
