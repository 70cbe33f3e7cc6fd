//! The retired rows that wait outside the work lists, counted where they wait.

ghost use Rattle.std.specs.Prelude.{◌≡◌, ◌<◌, ◌≤◌, ◌*◌};
ghost use Rattle.orc_core.specs.{Counts.{handovers}, Sums.{sum_below}};
ghost use Rattle.orc_trace.specs.Watched.{has_bit, waiting, waiting_at};

use orc_core::{Doom, State};
use orc_words::Word;

// Whether the doomed row has its retired bit still.
fn has_bit(doom: Option<Doom>) -> bool
    ensures { result ≡ has_bit doom }
{
    match doom {
        None => false,
        Some(doom) => !doom.bare,
    }
}

// How many handover words of the agent name a row.
#[tactic(auto, using(orc_core::proofs::Counted::count_none, orc_core::proofs::Counted::count_more, orc_core::proofs::Counted::count_all))]
pub fn handovers_of(state: &State, agent: u32) -> u32
    requires { agent < state.now.bounds.agents }
    ensures count { result ≡ handovers state.now agent }
    ensures few { result ≤ 8 }
{
    let mut count = 0;
    for slot in 0..8 {
        count += u32::from(state.word(Word::Handover(agent, slot)) != 0);
    }
    count
}

// How many retired rows wait with the agent, outside its work list.
fn waiting_with(state: &State, agent: u32) -> u32
    requires { agent < state.now.bounds.agents }
    ensures count { result ≡ waiting_at state.now agent }
    ensures few { result ≤ 11 }
{
    let record = state.agent(agent);
    let hand = u32::from(record.hand.is_some());
    let scan = u32::from(record.scan.is_some());
    let doom = u32::from(has_bit(record.doom));
    hand + scan + doom + handovers_of(state, agent)
}

/// How many retired rows wait with all agents, outside the work lists. After a lawful list of steps that is the backlog; no row
/// is looked at.
#[tactic(auto, using(orc_core::proofs::Counted::sum_none, orc_core::proofs::Counted::sum_more, orc_core::proofs::Counted::sum_all))]
pub fn waiting_of(state: &State) -> u32
    ensures { result ≡ waiting state.now }
{
    let mut count = 0;
    for agent in 0..state.shape().agents() {
        count += waiting_with(state, agent);
    }
    count
}
