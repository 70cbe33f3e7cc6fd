//! Definitions at values worked out by hand, and each public call on its happy path and at its limits.
ghost use Rattle.std.specs.Prelude.{◌≡◌, ◌-◌, ◌<◌, ◌^◌, [], ◌∷◌, Some, None, true, false};
ghost use Rattle.orc_history.specs.{
  Journals.{Adds, Within, own_of},
  QueueHistory.{IsLegalQueue, agent_of_entry, entry_of_dequeue, puts_in, waiting_after},
  SetHistory.{IsLegalSet, agent_of_set_entry, has, keys_after, with_key, without_key},
  StoredHistory.{HasTurn, LacksTurn, RefusedAt, history_room},
  PlainQueue.{IsQueuePass, RefusesEnqueue},
  PlainSet.{IsSetPass, RefusesInsert},
};

use super::{plain_queue, plain_set};
use orc_history::{ListRefused, QueueEntry, QueueRefused, SetEntry, SharedQueue, SharedSet};
use std::test::Fail;
use std::thread::join;

mod calls;
mod learning;

// Agent 1 posts the jobs 0 and 1; agent 0 takes both and then finds nothing.
fn a_queue_in_order()
    ensures legal { IsLegalQueue 0 (QueueEntry.Put 1 0 0 ∷ QueueEntry.Put 1 1 1
        ∷ QueueEntry.Took 0 0 0 ∷ QueueEntry.Took 0 1 1 ∷ QueueEntry.Empty 0 ∷ []) }
    ensures from_five { IsLegalQueue 5 (QueueEntry.Put 1 0 5 ∷ QueueEntry.Put 1 1 6 ∷ []) }
    ensures puts { puts_in (QueueEntry.Put 1 0 0 ∷ QueueEntry.Put 1 1 1 ∷ QueueEntry.Took 0 0 0 ∷ []) ≡ 2 }
    ensures waiting { waiting_after [] (QueueEntry.Put 1 0 0 ∷ QueueEntry.Put 1 1 1
        ∷ QueueEntry.Took 0 0 0 ∷ []) ≡ (1, 1) ∷ [] }
    ensures took { entry_of_dequeue 3 (Some (1, 4)) ≡ QueueEntry.Took 3 1 4 }
    ensures empty { entry_of_dequeue 3 None ≡ QueueEntry.Empty 3 }
    ensures agent { agent_of_entry (QueueEntry.Took 3 0 4) ≡ 3 }
{}

// A Took from the back, a position twice, and an Empty while a job waits.
fn queues_out_of_order()
    ensures back { ¬ IsLegalQueue 0 (QueueEntry.Put 1 0 0 ∷ QueueEntry.Put 1 1 1
        ∷ QueueEntry.Took 0 1 1 ∷ []) }
    ensures position { ¬ IsLegalQueue 0 (QueueEntry.Put 1 0 0 ∷ QueueEntry.Put 1 1 0 ∷ []) }
    ensures empty { ¬ IsLegalQueue 0 (QueueEntry.Put 1 0 0 ∷ QueueEntry.Empty 0 ∷ []) }
{}

// Agent 1 opens 7 and 9, closes 9, finds 7 open and 8 absent; agent 0 closes 7 and finds 9 absent.
fn a_set_with_its_answers()
    ensures legal { IsLegalSet (SetEntry.Added 1 7 true ∷ SetEntry.Added 1 9 true
        ∷ SetEntry.Removed 1 9 true ∷ SetEntry.Added 1 7 false ∷ SetEntry.Removed 1 8 false
        ∷ SetEntry.Removed 0 7 true ∷ SetEntry.Removed 0 9 false ∷ []) }
    ensures keys { keys_after [] (SetEntry.Added 1 7 true ∷ SetEntry.Added 1 9 true
        ∷ SetEntry.Removed 1 7 true ∷ SetEntry.Asked 1 9 true ∷ []) ≡ 9 ∷ [] }
    ensures added { (with_key 8 true (7 ∷ []) ≡ 7 ∷ 8 ∷ []) × (with_key 7 false (7 ∷ []) ≡ 7 ∷ []) }
    ensures removed { (without_key 7 true (7 ∷ 9 ∷ []) ≡ 9 ∷ []) × (without_key 8 false (7 ∷ []) ≡ 7 ∷ []) }
    ensures present { (has 9 (7 ∷ 9 ∷ []) ≡ true) × (has 8 (7 ∷ 9 ∷ []) ≡ false) }
    ensures agent { agent_of_set_entry (SetEntry.Removed 3 7 true) ≡ 3 }
{}

// A key added twice, one removed that is absent, and one present that is told absent.
fn sets_with_other_answers()
    ensures added { ¬ IsLegalSet (SetEntry.Added 1 7 true ∷ SetEntry.Added 1 7 true ∷ []) }
    ensures removed { ¬ IsLegalSet (SetEntry.Added 1 7 true ∷ SetEntry.Removed 1 8 true ∷ []) }
    ensures asked { ¬ IsLegalSet (SetEntry.Added 1 7 true ∷ SetEntry.Asked 0 7 false ∷ []) }
{}

// Agent 1's Took comes after agent 2's Empty, for which there is no place without a crowd.
fn entries_of_one_call()
    ensures own { own_of agent_of_entry 1 (QueueEntry.Empty 2 ∷ QueueEntry.Took 1 7 0 ∷ [])
        ≡ QueueEntry.Took 1 7 0 ∷ [] }
    ensures adds { Adds agent_of_entry (λ agent. agent < 3) 1 (QueueEntry.Put 2 7 0 ∷ [])
        (QueueEntry.Took 1 7 0 ∷ [])
        (QueueEntry.Put 2 7 0 ∷ QueueEntry.Empty 2 ∷ QueueEntry.Took 1 7 0 ∷ []) }
    ensures alone { ¬ Adds agent_of_entry (λ agent. ⊥) 1 [] [] (QueueEntry.Empty 2 ∷ []) }
    ensures within { Within 2 4 (λ from to. (from ≡ 3) × (to ≡ 4)) × ¬ Within 2 4 (λ from to. to ≡ 5) }
{}

// A container of room 1 stores 8 entries.
fn turns_of_room_one()
    ensures room { history_room 1 ≡ 8 }
    ensures has { HasTurn 1 1 7 × ¬ HasTurn 1 0 7 × ¬ HasTurn 1 1 8 }
    ensures lacks { LacksTurn 1 0 7 × LacksTurn 1 1 8 × ¬ LacksTurn 1 1 7 }
{}

// A queue of room 1 is full after its Put, until a Took; the last position is 2^62 - 1.
fn refusals_of_a_queue()
    ensures full { RefusesEnqueue (record { room = 1; first = 0; whole = false }) 1
        (QueueEntry.Put 1 5 0 ∷ []) QueueRefused.NoNode }
    ensures not_full { ¬ RefusesEnqueue (record { room = 1; first = 0; whole = false }) 1
        [] QueueRefused.NoNode }
    ensures used_up { RefusesEnqueue (record { room = 1; first = 2 ^ 62; whole = false }) 1
        [] QueueRefused.Positions }
    ensures one_left { ¬ RefusesEnqueue (record { room = 1; first = 2 ^ 62 - 1; whole = false }) 1
        [] QueueRefused.Positions }
    ensures before { RefusedAt (RefusesEnqueue (record { room = 1; first = 0; whole = false }) 1)
        QueueRefused.NoNode (QueueEntry.Put 1 5 0 ∷ QueueEntry.Took 1 5 0 ∷ []) 1 }
    ensures after { ¬ RefusedAt (RefusesEnqueue (record { room = 1; first = 0; whole = false }) 1)
        QueueRefused.NoNode (QueueEntry.Put 1 5 0 ∷ QueueEntry.Took 1 5 0 ∷ []) 2 }
{}

fn refusals_of_a_set()
    ensures full { RefusesInsert (record { room = 1; whole = false }) 1
        (SetEntry.Added 1 7 true ∷ []) ListRefused.NoNode }
    ensures no_turns { RefusesInsert (record { room = 1; whole = false }) 0 [] ListRefused.Again }
    ensures one_turn { ¬ RefusesInsert (record { room = 1; whole = false }) 1 [] ListRefused.Again }
{}

// A queue whose positions start at 5 has this pass, and one where they start at 6 has not.
fn passes_of_containers()
    ensures own { IsQueuePass (record { room = 1; first = 5; whole = false })
        (record { agent = 0; room = 1; first = 5; history = QueueEntry.Put 1 7 5 ∷ [] }) }
    ensures other { ¬ IsQueuePass (record { room = 1; first = 6; whole = false })
        (record { agent = 0; room = 1; first = 5; history = [] }) }
    ensures set { IsSetPass (record { room = 1; whole = false })
        (record { agent = 0; room = 1; history = SetEntry.Asked 1 7 false ∷ [] }) }
    ensures illegal { ¬ IsSetPass (record { room = 1; whole = false })
        (record { agent = 0; room = 1; history = SetEntry.Asked 1 7 true ∷ [] }) }
{}

#[test]
fn definitions_at_values() {
    a_queue_in_order();
    queues_out_of_order();
    a_set_with_its_answers();
    sets_with_other_answers();
    entries_of_one_call();
    turns_of_room_one();
    refusals_of_a_queue();
    refusals_of_a_set();
    passes_of_containers();
}

#[test]
fn passes_cross_threads(rt: HostRuntime) -> Result<(), Fail> {
    let (queue, mut jobs) = plain_queue(rt.alloc(), 1, 0)?;
    let (set, mut keys) = plain_set(rt.alloc(), 1)?;
    let (at, absent) = join(
        &rt,
        || queue.enqueue(&mut jobs, 3, 1),
        || set.insert(&mut keys, 7, 1),
    );
    assert!(rt; at == Ok(0));
    assert!(rt; absent == Ok(true));
    Ok(())
}
