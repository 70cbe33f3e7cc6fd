//! Answers whether a key is present, and takes it out.

ghost use Rattle.std.specs.Prelude.{◌≡◌, ◌<◌, ◌%◌, Ok, Some, true};
ghost use mathlib.Core.List.{IsPrefix};
ghost use Rattle.orc_list.specs.{Searches.{list_reading}, Turns.{MadeFew, TakesOff}};
ghost use Rattle.orc_ordered_search.specs.{Causes.{HasWorn}, Entries.{entry_by}, Searches.{HasRoom}, Turns.{AnswersTurn, AnswersTurns}};

use crate::key::Key;
use orc_chain_rule::Chain;
use orc_fault::Again;
use orc_heap::Links;
use orc_ordered_search::{Call, answer_found, search_chain};

// One turn of a call.
fn call_turn<L: Links<Rule = Chain>>(
    links: &L,
    p: &mut L::Pass,
    root: u32,
    key: u64,
    call: Call,
) -> Option<bool>
    requires pass { L.belongs links.now p.old }
    requires root { (root < (L.numbers links.now).roots) × (root ≡ key % (L.numbers links.now).roots) }
    requires room { HasRoom (L.seat links.now p.old).slots }
    ensures pass { L.belongs links.now p.new }
    ensures later { IsPrefix (L.journal p.old) (L.journal p.new) }
    ensures answered { AnswersTurn (list_reading (L.numbers links.now)) (λ yes. entry_by call (L.seat links.now p.old).agent key yes)
        (L.seat links.now p.old) result (L.seat links.now p.new) }
    ensures few { MadeFew 1 (L.seat links.now p.old) (L.seat links.now p.new) }
    ensures off { call ≡ Call.Remove → result ≡ Some true → TakesOff (L.numbers links.now) key
        (HasWorn (L.worn links.now (L.seat links.now p.old).agent) (L.journal p.old) (L.journal p.new))
        (L.seat links.now p.old) (L.seat links.now p.new) }
{
    let found = search_chain(links, p, root, Key(key), None);
    answer_found::<Key, L>(links, p, root, key, call, found)
}

// Answers whether the key is present, or takes it out, in at most so many turns.
pub(crate) fn call_turns<L: Links<Rule = Chain>>(
    links: &L,
    p: &mut L::Pass,
    root: u32,
    key: u64,
    call: Call,
    turns: u64,
) -> Result<bool, Again>
    requires pass { L.belongs links.now p.old }
    requires root { (root < (L.numbers links.now).roots) × (root ≡ key % (L.numbers links.now).roots) }
    requires room { HasRoom (L.seat links.now p.old).slots }
    ensures pass { L.belongs links.now p.new }
    ensures later { IsPrefix (L.journal p.old) (L.journal p.new) }
    ensures answered { AnswersTurns (list_reading (L.numbers links.now)) (λ yes. entry_by call (L.seat links.now p.old).agent key yes) turns
        (L.seat links.now p.old) result (L.seat links.now p.new) }
    ensures few { MadeFew turns (L.seat links.now p.old) (L.seat links.now p.new) }
    ensures off { call ≡ Call.Remove → result ≡ Ok true → TakesOff (L.numbers links.now) key
        (HasWorn (L.worn links.now (L.seat links.now p.old).agent) (L.journal p.old) (L.journal p.new))
        (L.seat links.now p.old) (L.seat links.now p.new) }
{
    for _ in 0..turns {
        if let Some(answer) = call_turn(links, p, root, key, call) {
            return Ok(answer);
        }
    }
    Err(Again)
}
