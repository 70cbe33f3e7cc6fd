//! Links, holds, tokens and the backlog of one state, counted. Nothing here takes memory.

ghost use Rattle.std.specs.Prelude.{◌≡◌, ℕ, ◌+◌, ◌*◌, ◌<◌, ◌≤◌, ◌&&◌, ◌==◌, not};
ghost use Rattle.std.specs.List.{list_any};
ghost use Rattle.orc_words.specs.{Places.{link_at}, declared.place.Word.{Word}};
ghost use Rattle.orc_core.specs.{Counts.{is_out, is_retired, links_to}, Machine.{record_at, word_in}, Sums.{count_below, sum_below}};
ghost use Rattle.orc_sound.specs.{
  Backlog.{backlog, is_listed},
  Linked.{held, holds_row, linked, linked_from},
  RetirementToken.{listings, places_of, tokens},
};

use crate::parts::{dooming, links_to};
use orc_core::State;
use orc_words::{Word, link_of_row};

#[tactic(auto, using(orc_core::proofs::Counted::count_none, orc_core::proofs::Counted::count_more, orc_core::proofs::Counted::count_all))]
fn linked_from_roots(state: &State, row: u32) -> u32
    ensures count { result ≡ count_below state.now.bounds.roots (λ i. links_to (word_in state.now (Word.Root i)) row) }
    ensures few { result ≤ state.now.bounds.roots }
{
    let mut count = 0;
    for root in 0..state.shape().roots() {
        count += u32::from(links_to(state.word(Word::Root(root)), row));
    }
    count
}

// Whether the row `from` is out and the target of its link of this number is the row.
fn is_linked_by(state: &State, from: u32, number: u32, row: u32) -> bool
    requires row { from < state.now.bounds.rows }
    requires number { number < state.now.bounds.links }
    ensures { result ≡ (is_out state.now from && links_to (word_in state.now (link_at number from)) row) }
{
    state.is_out(from) && links_to(state.word(link_of_row(number, from)), row)
}

#[tactic(auto, using(orc_core::proofs::Counted::count_none, orc_core::proofs::Counted::count_more, orc_core::proofs::Counted::count_all))]
fn linked_from(state: &State, row: u32, from: u32) -> u32
    requires { from < state.now.bounds.rows }
    ensures count { result ≡ linked_from state.now row from }
    ensures few { result ≤ 2 }
{
    let mut count = 0;
    let shape = state.shape();
    prove!(shape.links() <= 2);
    for number in 0..shape.links() {
        count += u32::from(is_linked_by(state, from, number, row));
    }
    count
}

#[tactic(auto, using(orc_core::proofs::Counted::sum_none, orc_core::proofs::Counted::sum_more, orc_core::proofs::Counted::sum_all))]
fn linked_from_rows(state: &State, row: u32) -> u32
    ensures count { result ≡ sum_below state.now.bounds.rows (linked_from state.now row) }
    ensures few { result ≤ 2 * state.now.bounds.rows }
{
    let mut count = 0;
    for from in 0..state.shape().rows() {
        count += linked_from(state, row, from);
    }
    count
}

/// How many link words, of the roots and of the rows that are out, have the row as their target.
pub fn linked_of(state: &State, row: u32) -> u32
    ensures { result ≡ linked state.now row }
{
    let shape = state.shape();
    let from_roots = linked_from_roots(state, row);
    let from_rows = linked_from_rows(state, row);
    prove!(shape.roots() <= 257 && shape.rows() <= 65_535);
    from_roots + from_rows
}

/// Whether some agent holds the row.
#[tactic(auto, using(crate::proofs::Found::found_none, crate::proofs::Found::found_more, crate::proofs::Found::found_all))]
pub fn is_held(state: &State, row: u32) -> bool
    ensures { result ≡ held state.now row }
{
    let mut found = false;
    for agent in 0..state.shape().agents() {
        found |= state.agent(agent).holds(row);
    }
    found
}

// How many entries of the agent's work list are the row.
#[tactic(auto, using(crate::proofs::Found::listings_le))]
fn listings(state: &State, agent: u32, row: u32) -> u32
    requires { agent < state.now.bounds.agents }
    ensures count { result ≡ listings (record_at state.now agent).list.items row }
    ensures few { result ≤ 65535 }
{
    let shape = state.shape();
    prove!(shape.rows() <= 65_535);
    let list = &state.agent(agent).list;
    let entries = list.count_of(row);
    prove!(entries <= list.len());
    entries as u32
}

// How many places of an agent's record have the row.
fn places_of(state: &State, agent: u32, row: u32) -> u32
    requires { agent < state.now.bounds.agents }
    ensures count { result ≡ places_of (record_at state.now agent) row }
    ensures few { result ≤ 65538 }
{
    let record = state.agent(agent);
    let hand = u32::from(record.has_in_hand(row));
    let scan = u32::from(record.scans(row));
    let doom = u32::from(dooming(record.doom, row));
    hand + scan + doom + listings(state, agent, row)
}

#[tactic(auto, using(orc_core::proofs::Counted::count_none, orc_core::proofs::Counted::count_more, orc_core::proofs::Counted::count_all))]
fn handed_to(state: &State, agent: u32, row: u32) -> u32
    requires { agent < state.now.bounds.agents }
    ensures count { result ≡ count_below 8 (λ k. word_in state.now (Word.Handover agent k) == row + 1) }
    ensures few { result ≤ 8 }
{
    let mut count = 0;
    for slot in 0..8 {
        count += u32::from(state.word(Word::Handover(agent, slot)) == u64::from(row) + 1);
    }
    count
}

#[tactic(auto, using(orc_core::proofs::Counted::sum_none, orc_core::proofs::Counted::sum_more, orc_core::proofs::Counted::sum_all))]
fn tokens_in_records(state: &State, row: u32) -> u32
    ensures count { result ≡ sum_below state.now.bounds.agents (λ a. places_of (record_at state.now a) row) }
    ensures few { result ≤ 65538 * state.now.bounds.agents }
{
    let mut count = 0;
    for agent in 0..state.shape().agents() {
        count += places_of(state, agent, row);
    }
    count
}

#[tactic(auto, using(orc_core::proofs::Counted::sum_none, orc_core::proofs::Counted::sum_more, orc_core::proofs::Counted::sum_all))]
fn tokens_in_handovers(state: &State, row: u32) -> u32
    ensures count { result ≡ sum_below state.now.bounds.agents (λ a. count_below 8 (λ k. word_in state.now (Word.Handover a k) == row + 1)) }
    ensures few { result ≤ 8 * state.now.bounds.agents }
{
    let mut count = 0;
    for agent in 0..state.shape().agents() {
        count += handed_to(state, agent, row);
    }
    count
}

/// How many places have the row: hands, scans, dooms that aren't bare, work list entries and handover words.
pub fn tokens_of(state: &State, row: u32) -> u32
    ensures { result ≡ tokens state.now row }
{
    let shape = state.shape();
    let in_records = tokens_in_records(state, row);
    let in_handovers = tokens_in_handovers(state, row);
    prove!(shape.agents() <= 16);
    in_records + in_handovers
}

// Whether the agent's work list has the row.
fn lists(state: &State, agent: u32, row: u32) -> bool
    requires { agent < state.now.bounds.agents }
    ensures { result ≡ list_any (λ q. q == row) (record_at state.now agent).list.items }
{
    listings(state, agent, row) != 0
}

// Whether some work list has the row.
#[tactic(auto, using(crate::proofs::Found::found_none, crate::proofs::Found::found_more, crate::proofs::Found::found_all))]
fn is_listed(state: &State, row: u32) -> bool
    ensures { result ≡ is_listed state.now row }
{
    let mut found = false;
    for agent in 0..state.shape().agents() {
        found |= lists(state, agent, row);
    }
    found
}

/// How many retired rows are in no work list. After a lawful list of steps these are at most nine for each
/// agent.
#[tactic(auto, using(orc_core::proofs::Counted::count_none, orc_core::proofs::Counted::count_more, orc_core::proofs::Counted::count_all))]
pub fn backlog_of(state: &State) -> u32
    ensures { result ≡ backlog state.now }
{
    let mut count = 0;
    for row in 0..state.shape().rows() {
        count += u32::from(state.is_retired(row) && !is_listed(state, row));
    }
    count
}
