//! Tests of one agent, by which a state is seen to be sound.

ghost use Rattle.std.specs.Prelude.{◌≡◌, ℕ, ◌+◌, ◌*◌, ◌<◌, ◌&&◌, ◌||◌, ◌==◌, not, nat_le, nat_lt};
ghost use Rattle.orc_words.specs.{Packed.{count_bits, sequence_of}, declared.place.Word.{Word}};
ghost use Rattle.orc_core.specs.{
  Counts.{links_to},
  Machine.{record_at, word_in},
  RecordParts.{any_holds, holds, is_empty, names, number_of, saw, slot_of},
};
ghost use Rattle.orc_sound.specs.{
  Decisions.{agent_fits, all_below, cuts_fit, doom_fits, enrolment_fits, fresh_fits, is_nobody, left_in, looks_fit, named_passes, names_none, one_part_in, out_in, pending_fits, row_held, row_seen, same_fits, scan_fits, slot_fits, slots_fit},
  Doomed.{dooms},
  Linked.{uses},
  QuietScan.{holds_from, is_linked_anew},
};

use crate::counting::linked_of;
use crate::parts::{dooms, links_to, slot_word, uses};
use crate::row_tests::{decrements_of, increments_of, out_in, unreachable_in};
use orc_core::{Agent, Doom, Reading, SEQUENCE, Scan, SlotUse, State};
use orc_words::{NEW_COUNTER, RETIRED, Word, link_of_row};

// Whether each slot of the agent that holds the row has scan place `k` or a later one.
#[tactic(auto, using(crate::proofs::Passed::passed_none, crate::proofs::Passed::passed_more, crate::proofs::Passed::passed_all))]
fn agent_holds_late(state: &State, agent: u32, row: u32, k: u32) -> bool
    requires { agent < state.now.bounds.agents }
    ensures { result ≡ all_below 8 (λ j. not (holds (slot_of (record_at state.now agent) j) row) || nat_le k (8 * agent + j)) }
{
    let shape = state.shape();
    prove!(shape.agents() <= 16);
    let record = state.agent(agent);
    let mut late = true;
    for slot in 0..8 {
        late &= !record.slot(slot).holds(row) || k <= 8 * agent + slot;
    }
    late
}

#[tactic(auto, using(crate::proofs::Passed::passed_none, crate::proofs::Passed::passed_more, crate::proofs::Passed::passed_all))]
fn all_hold_late(state: &State, row: u32, k: u32) -> bool
    ensures { result ≡ all_below state.now.bounds.agents (λ a. all_below 8 (λ j. not (holds (slot_of (record_at state.now a) j) row) || nat_le k (8 * a + j))) }
{
    let mut late = true;
    for agent in 0..state.shape().agents() {
        late &= agent_holds_late(state, agent, row, k);
    }
    late
}

fn left_in(state: &State, row: u32, k: u32) -> bool
    ensures { result ≡ left_in state.now row k }
{
    linked_of(state, row) == 0
        && increments_of(state, row) == 0
        && decrements_of(state, row) == 0
        && all_hold_late(state, row, k)
}

#[tactic(auto, using(crate::proofs::Found::found_none, crate::proofs::Found::found_more, crate::proofs::Found::found_all))]
fn holds_from(state: &State, row: u32, k: u32, agent: u32) -> bool
    requires { agent < state.now.bounds.agents }
    ensures { result ≡ holds_from state.now row k agent }
{
    let shape = state.shape();
    prove!(shape.agents() <= 16);
    let record = state.agent(agent);
    let mut found = false;
    for slot in 0..8 {
        found |= record.slot(slot).holds(row) && k <= 8 * agent + slot;
    }
    found
}

fn links_anew(state: &State, row: u32, k: u32, agent: u32) -> bool
    requires { agent < state.now.bounds.agents }
    ensures { result ≡ (names (record_at state.now agent).inc row && holds_from state.now row k agent) }
{
    state.agent(agent).has_increment(row) && holds_from(state, row, k, agent)
}

#[tactic(auto, using(crate::proofs::Found::found_none, crate::proofs::Found::found_more, crate::proofs::Found::found_all))]
fn is_linked_anew(state: &State, row: u32, k: u32) -> bool
    ensures { result ≡ is_linked_anew state.now row k }
{
    let mut found = false;
    for agent in 0..state.shape().agents() {
        found |= links_anew(state, row, k, agent);
    }
    found
}

fn same_fits(state: &State, scan: &Scan) -> bool
    requires { scan.now.row < state.now.bounds.rows }
    ensures { result ≡ same_fits state.now scan.now }
{
    let count = scan.word % RETIRED;
    state.word(Word::Counter(scan.row)) % RETIRED == count
        && (count != NEW_COUNTER
            || is_linked_anew(state, scan.row, scan.place)
            || left_in(state, scan.row, scan.place))
}

fn found_fits(state: &State, scan: &Scan) -> bool
    ensures { result ≡ (not scan.now.found || ((count_bits scan.now.word == 4194304) && nat_lt scan.now.place (8 * state.now.bounds.agents))) }
{
    let shape = state.shape();
    prove!(shape.agents() <= 16);
    !scan.found || (scan.word % RETIRED == NEW_COUNTER && scan.place < 8 * shape.agents())
}

fn scan_fits(state: &State, scan: Option<Scan>) -> bool
    ensures { result ≡ scan_fits state.now scan }
{
    let Some(scan) = scan else {
        return true;
    };
    if scan.row >= state.shape().rows() {
        return false;
    }
    let sequence = state.word(Word::Counter(scan.row)) / SEQUENCE;
    let kept = scan.word / SEQUENCE;
    scan.word / RETIRED % 2 == 1
        && kept <= sequence
        && (sequence != kept || same_fits(state, &scan))
        && found_fits(state, &scan)
}

#[tactic(auto, using(crate::proofs::Passed::passed_none, crate::proofs::Passed::passed_more, crate::proofs::Passed::passed_all))]
fn is_alone_doomed(state: &State, agent: u32, row: u32) -> bool
    ensures { result ≡ all_below state.now.bounds.agents (λ x. (x == agent) || not (dooms (record_at state.now x).doom row)) }
{
    let mut alone = true;
    for other in 0..state.shape().agents() {
        alone &= other == agent || !dooms(state.agent(other).doom, row);
    }
    alone
}

// Whether the doomed row's links that were cut are null.
#[tactic(auto, using(crate::proofs::Passed::passed_none, crate::proofs::Passed::passed_more, crate::proofs::Passed::passed_all))]
fn cuts_fit(state: &State, doom: &Doom) -> bool
    requires { doom.now.row < state.now.bounds.rows }
    ensures { result ≡ cuts_fit state.now doom.now }
{
    let mut null = true;
    for number in 0..state.shape().links() {
        null &= number >= doom.cuts || state.word(link_of_row(number, doom.row)) == 0;
    }
    null
}

fn doom_fits(state: &State, agent: u32, doom: Option<Doom>) -> bool
    ensures { result ≡ doom_fits state.now agent doom }
{
    let Some(doom) = doom else {
        return true;
    };
    if !out_in(state, doom.row) {
        return false;
    }
    let shape = state.shape();
    unreachable_in(state, doom.row)
        && is_alone_doomed(state, agent, doom.row)
        && cuts_fit(state, &doom)
        && (!doom.bare || (doom.cuts == shape.links() && !state.is_retired(doom.row)))
}

#[tactic(auto, using(crate::proofs::Passed::passed_none, crate::proofs::Passed::passed_more, crate::proofs::Passed::passed_all))]
fn is_used_alone(state: &State, agent: u32, row: u32) -> bool
    ensures { result ≡ all_below state.now.bounds.agents (λ x. (x == agent) || not (uses (record_at state.now x) row)) }
{
    let mut alone = true;
    for other in 0..state.shape().agents() {
        alone &= other == agent || !uses(state.agent(other), row);
    }
    alone
}

#[tactic(auto, using(crate::proofs::Passed::passed_none, crate::proofs::Passed::passed_more, crate::proofs::Passed::passed_all))]
fn no_root_links(state: &State, row: u32) -> bool
    ensures { result ≡ all_below state.now.bounds.roots (λ i. not (links_to (word_in state.now (Word.Root i)) row)) }
{
    let mut none = true;
    for root in 0..state.shape().roots() {
        none &= !links_to(state.word(Word::Root(root)), row);
    }
    none
}

#[tactic(auto, using(crate::proofs::Passed::passed_none, crate::proofs::Passed::passed_more, crate::proofs::Passed::passed_all))]
fn names_none(state: &State, row: u32, from: u32) -> bool
    requires { from < state.now.bounds.rows }
    ensures { result ≡ names_none state.now row from }
{
    let mut none = true;
    for number in 0..state.shape().links() {
        none &= !links_to(state.word(link_of_row(number, from)), row);
    }
    none
}

#[tactic(auto, using(crate::proofs::Passed::passed_none, crate::proofs::Passed::passed_more, crate::proofs::Passed::passed_all))]
fn no_other_row_links(state: &State, row: u32) -> bool
    ensures { result ≡ all_below state.now.bounds.rows (λ j. (j == row) || names_none state.now row j) }
{
    let mut none = true;
    for from in 0..state.shape().rows() {
        none &= from == row || names_none(state, row, from);
    }
    none
}

fn fresh_fits(state: &State, agent: u32, row: u32) -> bool
    ensures { result ≡ fresh_fits state.now agent row }
{
    if !out_in(state, row) {
        return false;
    }
    !state.is_retired(row)
        && is_used_alone(state, agent, row)
        && no_root_links(state, row)
        && no_other_row_links(state, row)
}

fn fresh_part_fits(state: &State, agent: u32, fresh: Option<u32>) -> bool
    ensures { result ≡ named_passes fresh (fresh_fits state.now agent) }
{
    match fresh {
        None => true,
        Some(row) => fresh_fits(state, agent, row),
    }
}

fn held_row_fits(state: &State, slot: SlotUse) -> bool
    ensures { result ≡ named_passes (row_held slot) (out_in state.now) }
{
    match slot {
        SlotUse::Held(row) => out_in(state, row),
        _ => true,
    }
}

fn slot_fits(state: &State, agent: u32, slot: u32) -> bool
    requires agent { agent < state.now.bounds.agents }
    requires slot { slot < 8 }
    ensures { result ≡ slot_fits state.now agent slot }
{
    let used = state.agent(agent).slot(slot);
    state.word(Word::Slot(agent, slot)) == slot_word(used) && held_row_fits(state, used)
}

#[tactic(auto, using(crate::proofs::Passed::passed_none, crate::proofs::Passed::passed_more, crate::proofs::Passed::passed_all))]
fn all_slots_fit(state: &State, agent: u32) -> bool
    requires { agent < state.now.bounds.agents }
    ensures { result ≡ all_below 8 (slot_fits state.now agent) }
{
    let mut fit = true;
    for slot in 0..8 {
        fit &= slot_fits(state, agent, slot);
    }
    fit
}

fn slots_fit(state: &State, agent: u32) -> bool
    requires { agent < state.now.bounds.agents }
    ensures { result ≡ slots_fit state.now agent }
{
    all_slots_fit(state, agent) && !state.agent(agent).slot(0).is_published()
}

// Whether the row, if one is named, is held by the agent and out.
fn held_and_out(state: &State, agent: &Agent, name: Option<u32>) -> bool
    ensures { result ≡ named_passes name (λ r. any_holds agent.now.slots r && out_in state.now r) }
{
    match name {
        None => true,
        Some(row) => agent.holds(row) && out_in(state, row),
    }
}

fn named_out(state: &State, name: Option<u32>) -> bool
    ensures { result ≡ named_passes name (out_in state.now) }
{
    match name {
        None => true,
        Some(row) => out_in(state, row),
    }
}

fn row_seen(seen: Option<Reading>) -> Option<u32>
    ensures { result ≡ row_seen seen }
{
    match seen {
        None => None,
        Some(seen) => Some(seen.row),
    }
}

fn pending_fits(state: &State, agent: &Agent) -> bool
    ensures { result ≡ pending_fits state.now agent.now }
{
    held_and_out(state, agent, agent.inc)
        && named_out(state, agent.dec)
        && held_and_out(state, agent, row_seen(agent.due))
}

fn one_part_in(agent: &Agent) -> bool
    ensures { result ≡ one_part_in agent.now }
{
    let hand = u32::from(agent.hand.is_some());
    let scan = u32::from(agent.scan.is_some());
    let doom = u32::from(agent.doom.is_some());
    hand + scan + doom <= 1
}

fn look_fits(state: &State, agent: &Agent, row: u32) -> bool
    ensures { result ≡
        (not (nat_lt row state.now.bounds.rows) || not (saw agent.now.checked row) || not
        (word_in state.now (Word.Gate row) == 2 * number_of agent.now.looked) ||
        (sequence_of (word_in state.now (Word.Counter row)) == number_of agent.now.checked)) }
{
    if row >= state.shape().rows() || !agent.has_checked(row) {
        return true;
    }
    let gate = state.word(Word::Gate(row));
    gate % 2 == 1
        || gate / 2 != agent.life_seen()
        || state.word(Word::Counter(row)) / SEQUENCE == agent.sequence_seen()
}

fn looks_fit(state: &State, agent: &Agent) -> bool
    ensures { result ≡ looks_fit state.now agent.now }
{
    match row_seen(agent.looked) {
        None => true,
        Some(row) => look_fits(state, agent, row),
    }
}

#[tactic(auto, using(crate::proofs::Passed::passed_none, crate::proofs::Passed::passed_more, crate::proofs::Passed::passed_all))]
fn all_slots_empty(agent: &Agent) -> bool
    ensures { result ≡ all_below 8 (λ k. is_empty (slot_of agent.now k)) }
{
    let mut empty = true;
    for slot in 0..8 {
        empty &= agent.slot(slot).is_empty();
    }
    empty
}

fn is_nobody(agent: &Agent) -> bool
    ensures { result ≡ is_nobody agent.now }
{
    !agent.enrolled
        && all_slots_empty(agent)
        && agent.fresh.is_none()
        && agent.looked.is_none()
        && agent.checked.is_none()
        && agent.inc.is_none()
        && agent.dec.is_none()
        && agent.due.is_none()
        && agent.hand.is_none()
        && agent.scan.is_none()
        && agent.doom.is_none()
        && agent.list.len() == 0
}

fn enrolment_fits(state: &State, agent: u32) -> bool
    requires { agent < state.now.bounds.agents }
    ensures { result ≡ enrolment_fits state.now agent }
{
    let record = state.agent(agent);
    if u64::from(agent) < state.word(Word::Enrolled) {
        record.enrolled
    } else {
        is_nobody(record)
    }
}

pub(crate) fn agent_fits(state: &State, agent: u32) -> bool
    requires { agent < state.now.bounds.agents }
    ensures { result ≡ agent_fits state.now agent }
{
    let record = state.agent(agent);
    enrolment_fits(state, agent)
        && slots_fit(state, agent)
        && pending_fits(state, record)
        && one_part_in(record)
        && scan_fits(state, record.scan)
        && doom_fits(state, agent, record.doom)
        && fresh_part_fits(state, agent, record.fresh)
        && looks_fit(state, record)
}
