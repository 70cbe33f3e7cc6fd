//! Counting over a state.

ghost use Rattle.std.specs.Prelude.{◌≡◌, ℕ, ◌<◌, ◌&&◌, ◌||◌, ◌≤◌, length, slice_index_or, false};
ghost use Rattle.orc_core.specs.{
  Sums.{count_below, sum_below},
  Machine.{record_at},
  Counts.{census_of, handovers, is_out, is_row_target, is_retired, is_root_target, is_target, links_to, some_links_to},
};

use crate::counts::Census;
use crate::state::State;
use orc_words::{Word, link_of_row, named};

// The greatest number of rows.
const MOST_ROWS: usize = 65_535;

/// The counts of this state. It takes no memory.
pub fn census(state: &State) -> Census
    ensures { result ≡ census_of state.now }
{
    Census {
        out: count_out(state),
        retired: count_retired(state),
        handed: count_handed(state),
        listed: count_listed(state),
        linked: count_linked(state),
    }
}

#[tactic(auto, using(crate::proofs::Counted::count_none, crate::proofs::Counted::count_more, crate::proofs::Counted::count_all))]
fn count_out(state: &State) -> u32
    ensures { result ≡ count_below state.now.bounds.rows (is_out state.now) }
{
    let mut count = 0;
    for row in 0..state.shape().rows() {
        count += u32::from(state.is_out(row));
    }
    count
}

#[tactic(auto, using(crate::proofs::Counted::count_none, crate::proofs::Counted::count_more, crate::proofs::Counted::count_all))]
fn count_retired(state: &State) -> u32
    ensures { result ≡ count_below state.now.bounds.rows (is_retired state.now) }
{
    let mut count = 0;
    for row in 0..state.shape().rows() {
        count += u32::from(state.is_retired(row));
    }
    count
}

#[tactic(auto, using(crate::proofs::Counted::count_none, crate::proofs::Counted::count_more, crate::proofs::Counted::count_all))]
fn count_handovers(state: &State, agent: u32) -> u32
    requires { agent < state.now.bounds.agents }
    ensures count { result ≡ handovers state.now agent }
    ensures few { result ≤ 8 }
{
    let mut count = 0;
    for slot in 0..8 {
        count += u32::from(state.word(Word::Handover(agent, slot)) != 0);
    }
    count
}

#[tactic(auto, using(crate::proofs::Counted::sum_none, crate::proofs::Counted::sum_more, crate::proofs::Counted::sum_all))]
fn count_handed(state: &State) -> u32
    ensures { result ≡ sum_below state.now.bounds.agents (handovers state.now) }
{
    let mut count = 0;
    for agent in 0..state.shape().agents() {
        count += count_handovers(state, agent);
    }
    count
}

// How many rows an agent's work list has.
fn list_length(state: &State, agent: u32) -> u32
    requires { agent < state.now.bounds.agents }
    ensures length { result ≡ length (record_at state.now agent).list.items }
    ensures few { result ≤ 65535 }
{
    let shape = state.shape();
    prove!(shape.rows() <= 65_535);
    state.agent(agent).list.len() as u32
}

#[tactic(auto, using(crate::proofs::Counted::sum_none, crate::proofs::Counted::sum_more, crate::proofs::Counted::sum_all))]
fn count_listed(state: &State) -> u32
    ensures { result ≡ sum_below state.now.bounds.agents (λ a. length (record_at state.now a).list.items) }
{
    let mut count = 0;
    for agent in 0..state.shape().agents() {
        count += list_length(state, agent);
    }
    count
}

// Marks the target of a link word.
fn mark_target(marked: &mut [bool; MOST_ROWS], word: u64)
    ensures { (r : ℕ) → r < 65535 → slice_index_or marked.new r false
        ≡ (slice_index_or marked.old r false || links_to word r) }
{
    if let Some(row) = named(word / 2) {
        marked[row as usize] = true;
    }
}

// Marks the targets of the roots.
fn mark_roots(state: &State, marked: &mut [bool; MOST_ROWS])
    ensures { (r : ℕ) → r < 65535 → slice_index_or marked.new r false
        ≡ (slice_index_or marked.old r false || is_root_target state.now r) }
{
    for root in 0..state.shape().roots() {
        mark_target(marked, state.word(Word::Root(root)));
    }
}

// Marks the targets of a row's links.
fn mark_row(state: &State, row: u32, marked: &mut [bool; MOST_ROWS])
    requires { row < state.now.bounds.rows }
    ensures { (r : ℕ) → r < 65535 → slice_index_or marked.new r false
        ≡ (slice_index_or marked.old r false || some_links_to state.now row r state.now.bounds.links) }
{
    for number in 0..state.shape().links() {
        mark_target(marked, state.word(link_of_row(number, row)));
    }
}

// Marks the targets of the rows that are out.
fn mark_rows(state: &State, marked: &mut [bool; MOST_ROWS])
    ensures { (r : ℕ) → r < 65535 → slice_index_or marked.new r false
        ≡ (slice_index_or marked.old r false || is_row_target state.now r) }
{
    for row in 0..state.shape().rows() {
        if state.is_out(row) {
            mark_row(state, row, marked);
        }
    }
}

// The targets of all links, marked.
fn marked_targets(state: &State) -> [bool; MOST_ROWS]
    ensures { (r : ℕ) → r < 65535 → slice_index_or result r false ≡ is_target state.now r }
{
    let mut marked = [false; MOST_ROWS];
    mark_roots(state, &mut marked);
    mark_rows(state, &mut marked);
    marked
}

fn is_linked(state: &State, marked: &[bool; MOST_ROWS], row: u32) -> bool
    requires row { row < state.now.bounds.rows }
    requires marked { (r : ℕ) → r < 65535 → slice_index_or marked.now r false ≡ is_target state.now r }
    ensures { result ≡ (is_out state.now row && is_target state.now row) }
{
    let shape = state.shape();
    prove!(shape.rows() <= 65_535);
    state.is_out(row) && marked[row as usize]
}

#[tactic(auto, using(crate::proofs::Counted::count_none, crate::proofs::Counted::count_more, crate::proofs::Counted::count_all))]
fn count_linked(state: &State) -> u32
    ensures { result ≡ count_below state.now.bounds.rows (λ r. is_out state.now r && is_target state.now r) }
{
    let marked = marked_targets(state);
    let mut count = 0;
    for row in 0..state.shape().rows() {
        count += u32::from(is_linked(state, &marked, row));
    }
    count
}
