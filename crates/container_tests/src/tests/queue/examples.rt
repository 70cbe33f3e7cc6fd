//! Worked examples of the definitions, computed by hand and proved, and what a caller of the queue sees.

ghost use Rattle.std.specs.Prelude.{◌≡◌, ◌≤◌, ℕ, ◌-◌, ◌^◌, List, ◌∷◌, [], Some, None, Ok, Err};
ghost use Rattle.orc_heap.specs.{
  Heap.{null, link_to},
  declared.events.{Act.{Act}, Event.{Event}, Place.{Place}},
  Seats.{IsIdle},
  Journals.{event_by},
};
ghost use Rattle.orc_history.specs.{declared.queue.{QueueEntry.{QueueEntry}, QueueRefused.{QueueRefused}}};
ghost use Rattle.orc_fifo_rule.specs.declared.fifo.FifoNote.{FifoNote};
ghost use Rattle.orc_queue.specs.{
  Answers.{gives_of},
  Causes.{Cause, LacksPosition, UsesTurns, entered_by_others},
  QueueCalls.{others_puts},
  Turns.{IsFullLook, KeepsTail, SwingsTail, TailIsLast, TailIsPast, next_position},
};
ghost use Rattle.container_tests.specs.QueueHeaps.{dummy, last_node, links_node, opening, put_at, roots_at};

use orc_fifo_rule::{Fifo, FifoNote};
use orc_heap::{Act, Links, Place};
use orc_history::{QueueEntry, QueueRefused, SharedQueue};
use orc_queue::Queue;

// A put that has turns gives one node, unless it could have none.
fn nodes_of_a_put()
    ensures no_turns { gives_of 0 (Err QueueRefused.Again) ≡ 0 }
    ensures no_node { gives_of 3 (Err QueueRefused.NoNode) ≡ 0 }
    ensures used_up { gives_of 3 (Err QueueRefused.Again) ≡ 1 }
    ensures full { gives_of 3 (Err QueueRefused.Positions) ≡ 1 }
    ensures put { gives_of 3 (Ok 5) ≡ 1 }
{}

// Agent 2 moved the tail once while agent 1 looked: that uses up one turn of agent 1, and not two.
fn one_turn_is_used()
    ensures one { UsesTurns {S = Event FifoNote} (λ e. e.agent) (λ j. j) 1 1 (event_by 1 (Act.Look (Place.Root 1) (link_to 0)) None
        ∷ event_by 2 (Act.Move (Place.Root 1) (link_to 0) (link_to 1)) (Some FifoNote.Swing) ∷ []) 0 2 }
    ensures not_two { ¬ UsesTurns {S = Event FifoNote} (λ e. e.agent) (λ j. j) 1 2 (event_by 1 (Act.Look (Place.Root 1) (link_to 0)) None
        ∷ event_by 2 (Act.Move (Place.Root 1) (link_to 0) (link_to 1)) (Some FifoNote.Swing) ∷ []) 0 2 }
    ensures before { ¬ UsesTurns {S = Event FifoNote} (λ e. e.agent) (λ j. j) 1 1
        (event_by 2 (Act.Move (Place.Root 1) (link_to 0) (link_to 1)) (Some FifoNote.Swing)
        ∷ event_by 1 (Act.Look (Place.Root 1) (link_to 1)) None ∷ []) 1 2 }
{}

// While agent 1 looked, agent 2 took a job, and agent 3 put one and swung the tail: these use up three turns of agent 1, and
// not five. What stood in the history before doesn't count.
fn others_use_up_turns()
    ensures three { let es : List (Event FifoNote) =
        event_by 2 (Act.Move (Place.Next 0) null (link_to 1)) (Some (FifoNote.Entry (QueueEntry.Put 2 7 5)))
        ∷ event_by 1 (Act.Look (Place.Root 1) (link_to 1)) None
        ∷ event_by 2 (Act.Move (Place.Root 0) (link_to 0) (link_to 1)) (Some (FifoNote.Entry (QueueEntry.Took 2 7 5)))
        ∷ event_by 3 (Act.Move (Place.Next 1) null (link_to 2)) (Some (FifoNote.Entry (QueueEntry.Put 3 8 6)))
        ∷ event_by 3 (Act.Move (Place.Root 1) (link_to 1) (link_to 2)) (Some FifoNote.Swing) ∷ [] in
        (entered_by_others {S = Event FifoNote} (λ j. j) 1 es 1 5 ≡ QueueEntry.Took 2 7 5 ∷ QueueEntry.Put 3 8 6 ∷ [])
        × (entered_by_others {S = Event FifoNote} (λ j. j) 2 es 1 5 ≡ QueueEntry.Put 3 8 6 ∷ [])
        × UsesTurns {S = Event FifoNote} (λ e. e.agent) (λ j. j) 1 3 es 1 5
        × (¬ UsesTurns {S = Event FifoNote} (λ e. e.agent) (λ j. j) 1 5 es 1 5) }
{}

// Two Swings and no Put between them, which no queue makes, are no excuse for two turns: others' work is missing.
fn swings_alone_are_no_excuse()
    ensures { ¬ UsesTurns {S = Event FifoNote} (λ e. e.agent) (λ j. j) 1 2
        (event_by 2 (Act.Move (Place.Root 1) (link_to 0) (link_to 1)) (Some FifoNote.Swing)
        ∷ event_by 2 (Act.Move (Place.Root 1) (link_to 1) (link_to 2)) (Some FifoNote.Swing) ∷ []) 0 2 }
{}

// Two Moves of its own use up two turns of no agent.
fn own_moves_are_no_excuse()
    ensures { ¬ UsesTurns {S = Event FifoNote} (λ e. e.agent) (λ j. j) 1 2 (event_by 1 (Act.Move (Place.Root 1) (link_to 0) (link_to 1)) (Some FifoNote.Swing)
        ∷ event_by 1 (Act.Move (Place.Root 1) (link_to 1) (link_to 2)) (Some FifoNote.Swing) ∷ []) 0 2 }
{}

// Without turns a lack of rows is no cause. From position 2^62 - 1 on one Put leaves none.
fn other_causes()
    ensures no_row { Cause {S = Event FifoNote} (λ e. e.agent) (λ j. j) 0 (◌≡◌ {A = ℕ} 0 0) 1 1 QueueRefused.NoNode [] 0 0 }
    ensures a_row { ¬ Cause {S = Event FifoNote} (λ e. e.agent) (λ j. j) 0 (◌≡◌ {A = ℕ} 0 1) 1 1 QueueRefused.NoNode [] 0 0 }
    ensures no_turns { ¬ Cause {S = Event FifoNote} (λ e. e.agent) (λ j. j) 0 (◌≡◌ {A = ℕ} 0 0) 1 0 QueueRefused.NoNode [] 0 0 }
    ensures full { LacksPosition {S = Event FifoNote} (λ j. j) (2 ^ 62 - 1) 1
        (event_by 1 links_node (put_at (2 ^ 62 - 1)) ∷ []) 1 }
    ensures not_yet { ¬ LacksPosition {S = Event FifoNote} (λ j. j) (2 ^ 62 - 1) 1
        (event_by 1 links_node (put_at (2 ^ 62 - 1)) ∷ []) 0 }
{}

// Node 0 is the dummy and leads to node 1, the last. A tail at node 0 lags; one at node 1 doesn't, and is past the head.
fn where_the_tail_is()
    ensures lags { ¬ TailIsLast (roots_at 0 0 (dummy (Some 5) (link_to 1) ∷ last_node ∷ [])) }
    ensures last { TailIsLast (roots_at 0 1 (dummy (Some 5) (link_to 1) ∷ last_node ∷ [])) }
    ensures past { TailIsPast (roots_at 0 1 []) }
    ensures at_the_head { ¬ TailIsPast (roots_at 0 0 []) }
{}

// A swing of root 1, and a miss of it, help the tail on; a move of root 0 leaves it.
fn help()
    ensures swing { SwingsTail 0 (event_by 1 (Act.Move (Place.Root 1) (link_to 0) (link_to 1)) (Some FifoNote.Swing)) }
    ensures miss { SwingsTail 0 (event_by 1 (Act.Miss (Place.Root 1) (link_to 0) (link_to 1)) None) }
    ensures not_its_own { ¬ SwingsTail 2 (event_by 1 (Act.Miss (Place.Root 1) (link_to 0) (link_to 1)) None) }
    ensures keeps { KeepsTail (event_by 1 (Act.Move (Place.Root 0) (link_to 0) (link_to 1)) None ∷ []) }
    ensures moves { ¬ KeepsTail (event_by 1 (Act.Move (Place.Root 1) (link_to 0) (link_to 1)) None ∷ []) }
{}

// In a queue whose first position is 2^62 a Look at the dummy's null link finds no position left; one at the link of a
// node that was never linked does not.
fn no_position_is_left()
    ensures first { let es = opening (2 ^ 62) in
        (next_position (record { roots = 2; links = 1 }) es ≡ 2 ^ 62) × IsFullLook (record { roots = 2; links = 1 }) 1 es (event_by 1 (Act.Look (Place.Next 0) null) None) }
    ensures unlinked { let es : List (Event FifoNote) =
        event_by 0 Act.Give None
        ∷ event_by 0 (Act.Fill 0 1 (2 ^ 62)) None ∷ [] in
        ¬ IsFullLook (record { roots = 2; links = 1 }) 1 es (event_by 1 (Act.Look (Place.Next 0) null) None) }
{}

// A caller that names the queue's type sees what the queue promises, and not the trait's clauses alone.
fn enqueue_in_three_turns<L: Links<Rule = Fifo>>(
    queue: &Queue<L>,
    p: &mut L::Pass,
) -> Result<u64, QueueRefused>
    requires { L.belongs queue.now.links p.old × IsIdle (L.seat queue.now.links p.old) }
    ensures { result ≡ Err QueueRefused.Again → 1 ≤ others_puts L.Links queue.now.links p.old p.new }
{
    queue.enqueue(p, 7, 3)
}
