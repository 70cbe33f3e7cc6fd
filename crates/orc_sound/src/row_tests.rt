//! Tests of one row, by which a state is seen to be sound.

ghost use Rattle.std.specs.Prelude.{◌≡◌, ℕ, ◌<◌, ◌≤◌, ◌%◌, ◌/◌, ◌==◌};
ghost use Rattle.orc_words.specs.{declared.place.Word.{Word}, Packed.{sequence_of}};
ghost use Rattle.orc_core.specs.{Machine.{record_at, word_in}, Sums.{some_below}};
ghost use Rattle.orc_sound.specs.{
  Balance.{decrements, increments},
  Decisions.{count_fits, free_fits, links_fit, null_links, out_in, range_fits, row_fits, target_fits, token_fits, unreachable_in},
  Doomed.{dooms},
  Linked.{changes},
  NoLeak.{has_reason, keeps_out},
};

use crate::counting::{is_held, linked_of, tokens_of};
use crate::parts::{changes, dooms, keeps_out};
use orc_core::{SEQUENCE, State};
use orc_words::{HIGHEST_LIMIT, NEW_COUNTER, RETIRED, Word, link_of_row};

// What a sequence may exceed the greatest life by.
const MARGIN: u64 = 524_288;

#[tactic(auto, using(orc_core::proofs::Counted::count_none, orc_core::proofs::Counted::count_more, orc_core::proofs::Counted::count_all))]
pub(crate) fn increments_of(state: &State, row: u32) -> u32
    ensures count { result ≡ increments state.now row }
    ensures few { result ≤ state.now.bounds.agents }
{
    let mut count = 0;
    for agent in 0..state.shape().agents() {
        count += u32::from(state.agent(agent).has_increment(row));
    }
    count
}

#[tactic(auto, using(orc_core::proofs::Counted::count_none, orc_core::proofs::Counted::count_more, orc_core::proofs::Counted::count_all))]
pub(crate) fn decrements_of(state: &State, row: u32) -> u32
    ensures count { result ≡ decrements state.now row }
    ensures few { result ≤ state.now.bounds.agents }
{
    let mut count = 0;
    for agent in 0..state.shape().agents() {
        count += u32::from(state.agent(agent).has_decrement(row));
    }
    count
}

#[tactic(auto, using(crate::proofs::Found::found_none, crate::proofs::Found::found_more, crate::proofs::Found::found_all))]
fn is_changing(state: &State, row: u32) -> bool
    ensures { result ≡ some_below state.now.bounds.agents (λ a. changes (record_at state.now a) row) }
{
    let mut found = false;
    for agent in 0..state.shape().agents() {
        found |= changes(state.agent(agent), row);
    }
    found
}

#[tactic(auto, using(crate::proofs::Found::found_none, crate::proofs::Found::found_more, crate::proofs::Found::found_all))]
fn is_doomed(state: &State, row: u32) -> bool
    ensures { result ≡ some_below state.now.bounds.agents (λ a. dooms (record_at state.now a).doom row) }
{
    let mut found = false;
    for agent in 0..state.shape().agents() {
        found |= dooms(state.agent(agent).doom, row);
    }
    found
}

#[tactic(auto, using(crate::proofs::Found::found_none, crate::proofs::Found::found_more, crate::proofs::Found::found_all))]
fn is_kept_out(state: &State, row: u32, sequence: u64) -> bool
    ensures { result ≡ some_below state.now.bounds.agents (λ a. keeps_out (record_at state.now a) row sequence) }
{
    let mut found = false;
    for agent in 0..state.shape().agents() {
        found |= keeps_out(state.agent(agent), row, sequence);
    }
    found
}

// Whether the row is one of the table's, and out.
pub(crate) fn out_in(state: &State, row: u32) -> bool
    ensures { result ≡ out_in state.now row }
{
    row < state.shape().rows() && state.is_out(row)
}

// Whether a link word names no row, or one that is out.
pub(crate) fn target_fits(state: &State, word: u64) -> bool
    ensures { result ≡ target_fits state.now word }
{
    if word / 2 == 0 {
        return true;
    }
    let row = word / 2 - 1;
    row < u64::from(state.shape().rows()) && state.is_out(row as u32)
}

fn count_fits(state: &State, row: u32) -> bool
    requires { row < state.now.bounds.rows }
    ensures { result ≡ count_fits state.now row }
{
    let shape = state.shape();
    let increments = increments_of(state, row);
    let decrements = decrements_of(state, row);
    prove!(shape.agents() <= 16);
    let count = state.word(Word::Counter(row)) % RETIRED;
    let linked = u64::from(linked_of(state, row));
    count + u64::from(increments) == NEW_COUNTER + linked + u64::from(decrements)
}

fn token_fits(state: &State, row: u32) -> bool
    requires { row < state.now.bounds.rows }
    ensures { result ≡ token_fits state.now row }
{
    tokens_of(state, row) == u32::from(state.is_retired(row))
}

fn range_fits(state: &State, row: u32) -> bool
    requires { row < state.now.bounds.rows }
    ensures { result ≡ range_fits state.now row }
{
    state.word(Word::Counter(row)) / SEQUENCE < HIGHEST_LIMIT + MARGIN
        && state.word(Word::Gate(row)) / 2 <= HIGHEST_LIMIT
}

// Whether nothing links the row, nobody holds it, no change of it is pending or due, and its count is 0.
pub(crate) fn unreachable_in(state: &State, row: u32) -> bool
    requires { row < state.now.bounds.rows }
    ensures { result ≡ unreachable_in state.now row }
{
    linked_of(state, row) == 0
        && !is_held(state, row)
        && !is_changing(state, row)
        && state.word(Word::Counter(row)) % RETIRED == NEW_COUNTER
}

#[tactic(auto, using(crate::proofs::Passed::passed_none, crate::proofs::Passed::passed_more, crate::proofs::Passed::passed_all))]
fn null_links(state: &State, row: u32) -> bool
    requires { row < state.now.bounds.rows }
    ensures { result ≡ null_links state.now row }
{
    let mut null = true;
    for number in 0..state.shape().links() {
        null &= state.word(link_of_row(number, row)) == 0;
    }
    null
}

#[tactic(auto, using(crate::proofs::Passed::passed_none, crate::proofs::Passed::passed_more, crate::proofs::Passed::passed_all))]
fn links_fit(state: &State, row: u32) -> bool
    requires { row < state.now.bounds.rows }
    ensures { result ≡ links_fit state.now row }
{
    let mut fit = true;
    for number in 0..state.shape().links() {
        fit &= target_fits(state, state.word(link_of_row(number, row)));
    }
    fit
}

fn free_fits(state: &State, row: u32) -> bool
    requires { row < state.now.bounds.rows }
    ensures { result ≡ free_fits state.now row }
{
    unreachable_in(state, row)
        && !state.is_retired(row)
        && null_links(state, row)
        && !is_doomed(state, row)
}

fn has_reason(state: &State, row: u32) -> bool
    requires { row < state.now.bounds.rows }
    ensures { result ≡ has_reason state.now row }
{
    let word = state.word(Word::Counter(row));
    word % RETIRED != NEW_COUNTER
        || state.is_retired(row)
        || is_kept_out(state, row, word / SEQUENCE)
}

pub(crate) fn row_fits(state: &State, row: u32) -> bool
    requires { row < state.now.bounds.rows }
    ensures { result ≡ row_fits state.now row }
{
    if !(count_fits(state, row) && token_fits(state, row) && range_fits(state, row)) {
        return false;
    }
    if state.is_out(row) {
        links_fit(state, row) && has_reason(state, row)
    } else {
        free_fits(state, row)
    }
}
