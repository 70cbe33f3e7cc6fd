//! Rows that leak: out while all is at rest, with no links that lead to them from the roots.

ghost use Rattle.std.specs.Prelude.{◌≡◌, ◌<◌, ℕ, IfNone, IfSome, true, false};
ghost use Rattle.std.specs.List.{list_any};
ghost use Rattle.orc_trace.specs.{Reaching.{HasMarks}, Watched.{IsLeastLeak, at_rest, slot_holds, is_lost, rests, rests_at}};

use crate::reaching::Reach;
use crate::waiting::handovers_of;
use orc_core::{Agent, SlotUse, State};

// Whether the slot protects a row.
fn slot_holds(slot: SlotUse) -> bool
    ensures { result ≡ slot_holds slot }
{
    match slot {
        SlotUse::Held(_) => true,
        _ => false,
    }
}

// Whether the agent protects a row.
fn holds_some(agent: &Agent) -> bool
    ensures { result ≡ list_any slot_holds agent.now.slots }
{
    agent.slots.iter().any(|slot| slot_holds(*slot))
}

// Whether the agent has nothing under way.
fn rests(agent: &Agent) -> bool
    ensures { result ≡ rests agent.now }
{
    !holds_some(agent)
        && agent.fresh.is_none()
        && agent.inc.is_none()
        && agent.dec.is_none()
        && agent.due.is_none()
        && agent.hand.is_none()
        && agent.scan.is_none()
        && agent.doom.is_none()
        && agent.list.len() == 0
}

// Whether the agent has nothing under way, and nothing was handed to it.
fn rests_at(state: &State, agent: u32) -> bool
    requires { agent < state.now.bounds.agents }
    ensures { result ≡ rests_at state.now agent }
{
    rests(state.agent(agent)) && handovers_of(state, agent) == 0
}

// Whether the state is at rest.
#[tactic(auto, using(orc_sound::proofs::Passed::passed_none, orc_sound::proofs::Passed::passed_more, orc_sound::proofs::Passed::passed_all))]
fn is_at_rest(state: &State) -> bool
    ensures { result ≡ at_rest state.now }
{
    let mut rest = true;
    for agent in 0..state.shape().agents() {
        rest &= rests_at(state, agent);
    }
    rest
}

// The least row that is out and has no mark.
fn first_lost(state: &State, reach: &Reach) -> Option<u32>
    requires { HasMarks reach.now state.now.bounds.rows }
    ensures some { IfSome result (λ row. (row < state.now.bounds.rows) × (is_lost state.now reach.now.marks.items row ≡ true)
        × ((r : ℕ) → r < row → is_lost state.now reach.now.marks.items r ≡ false)) }
    ensures none { IfNone result ((r : ℕ) → r < state.now.bounds.rows → is_lost state.now reach.now.marks.items r ≡ false) }
{
    for row in 0..state.shape().rows() {
        if state.is_out(row) && !reach.is_marked(row) {
            return Some(row);
        }
    }
    None
}

/// The least row that leaks. Unless the state is at rest, no row is looked at. The marks are written over.
pub fn leak_in(state: &State, reach: &mut Reach) -> Option<u32>
    requires { HasMarks reach.old state.now.bounds.rows }
    ensures leak { IsLeastLeak state.now result }
    ensures room { HasMarks reach.new state.now.bounds.rows }
{
    if !is_at_rest(state) {
        return None;
    }
    reach.mark_reached(state);
    first_lost(state, reach)
}
