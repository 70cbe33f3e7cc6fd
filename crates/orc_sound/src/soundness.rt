//! Whether one state is sound.

ghost use Rattle.std.specs.Prelude.{◌≡◌, ℕ, ◌<◌, ◌↔◌, IsTrue, length};
ghost use Rattle.orc_words.specs.declared.place.Word.{Word};
ghost use Rattle.orc_core.specs.Machine.{record_at, word_in};
ghost use Rattle.orc_sound.specs.{Decisions.{agent_fits, all_below, all_fit, row_fits, target_fits}, Sound.{IsSound}};

use crate::agent_tests::agent_fits;
use crate::row_tests::{row_fits, target_fits};
use orc_core::{SlotUse, State};
use orc_words::Word;

#[tactic(auto, using(crate::proofs::Passed::passed_none, crate::proofs::Passed::passed_more, crate::proofs::Passed::passed_all))]
fn roots_fit(state: &State) -> bool
    ensures { result ≡ all_below state.now.bounds.roots (λ i. target_fits state.now (word_in state.now (Word.Root i))) }
{
    let mut fit = true;
    for root in 0..state.shape().roots() {
        fit &= target_fits(state, state.word(Word::Root(root)));
    }
    fit
}

#[tactic(auto, using(crate::proofs::Passed::passed_none, crate::proofs::Passed::passed_more, crate::proofs::Passed::passed_all))]
fn rows_fit(state: &State) -> bool
    ensures { result ≡ all_below state.now.bounds.rows (row_fits state.now) }
{
    let mut fit = true;
    for row in 0..state.shape().rows() {
        fit &= row_fits(state, row);
    }
    fit
}

#[tactic(auto, using(crate::proofs::Passed::passed_none, crate::proofs::Passed::passed_more, crate::proofs::Passed::passed_all))]
fn agents_fit(state: &State) -> bool
    ensures { result ≡ all_below state.now.bounds.agents (agent_fits state.now) }
{
    let mut fit = true;
    for agent in 0..state.shape().agents() {
        fit &= agent_fits(state, agent);
    }
    fit
}

// A record has eight slots, since its type says so.
fn has_eight_slots(state: &State, agent: u32)
    requires { agent < state.now.bounds.agents }
    ensures { length (record_at state.now agent).slots ≡ 8 }
{
    let slots: &[SlotUse] = &state.agent(agent).slots;
    prove!(slots.len() == 8);
}

// Each record has eight slots.
fn all_have_eight_slots(state: &State)
    ensures { (a : ℕ) → a < state.now.bounds.agents → length (record_at state.now a).slots ≡ 8 }
{
    for agent in 0..state.shape().agents() {
        has_eight_slots(state, agent);
    }
}

fn all_fit(state: &State) -> bool
    ensures { result ≡ all_fit state.now }
{
    let shape = state.shape();
    state.word(Word::Enrolled) <= u64::from(shape.agents())
        && roots_fit(state)
        && rows_fit(state)
        && agents_fit(state)
}

/// Whether the state is sound. It takes no memory.
pub fn sound(state: &State) -> bool
    ensures { IsTrue result ↔ IsSound state.now }
{
    let _shape = state.shape();
    all_have_eight_slots(state);
    all_fit(state)
}
