//! Runs of the machine with words and records computed by hand, and a refused step of each kind.

use super::playing::{
    NULL, hold, let_go, link, look_at_slots, scan_and_free, start, step, steps, unlink,
};
use orc_core::*;
use orc_words::{Shape, Word};
use std::alloc::Global;
use std::process::Abort;
use std::test::Fail;

mod examples;
mod fewer_steps;
mod permissions;
mod two_links;

const ROOT_0: Word = Word::Root(0);

const NONE_OUT: Census = Census {
    out: 0,
    retired: 0,
    handed: 0,
    listed: 0,
    linked: 0,
};

// A step of each kind that agent 0 may not make once it is enrolled.
static REFUSED: [Op; 27] = [
    Op::Enroll,
    Op::GateLook { row: 2 },
    Op::GateTake { row: 0 },
    Op::Fill {
        row: 0,
        which: 0,
        value: 1,
    },
    Op::Read { row: 0, which: 2 },
    Op::LinkLoad {
        place: Word::Next(0),
        slot: None,
    },
    Op::LinkLoad {
        place: ROOT_0,
        slot: Some(8),
    },
    Op::LinkLoad {
        place: Word::Gate(0),
        slot: None,
    },
    Op::Publish { slot: 0, row: 0 },
    Op::Clear { slot: 1 },
    Op::Arm { row: 0 },
    Op::LinkCas {
        place: Word::Root(1),
        from: NULL,
        to: NULL,
    },
    Op::LinkStore {
        row: 0,
        number: 0,
        link: NULL,
    },
    Op::Inc { row: 0 },
    Op::Dec { row: 0 },
    Op::SetRetired {
        row: 0,
        sequence: 0,
    },
    Op::CounterLoad {
        row: u32::MAX,
        how: CounterUse::Check,
    },
    Op::CounterLoad {
        row: 0,
        how: CounterUse::Start,
    },
    Op::CounterLoad {
        row: 0,
        how: CounterUse::End,
    },
    Op::Unretire { row: 0 },
    Op::SlotLook { k: 16 },
    Op::Hand { k: 0 },
    Op::TakeIn { slot: 8 },
    Op::Free { row: 0 },
    Op::MoveOn { slot: 1, row: 0 },
    Op::HandoverLook { slot: 8 },
    Op::DecHeld { row: 0 },
];

// Row 0 is linked by agent 0, held by agent 1, unlinked, and found held by a scan of agent 0: 32 steps.
fn found_held(rt: &impl Abort, alloc: Global) -> Result<State, Fail> {
    let shape = Shape::new(2, 1, 2, 8)?;
    let mut state = State::new(alloc, &shape)?;
    hold_and_unlink(rt, &mut state)?;
    find_held(rt, &mut state)?;
    Ok(state)
}

// Row 0 is linked by agent 0, held by agent 1, and unlinked.
fn hold_and_unlink(rt: &impl Abort, state: &mut State) -> Result<(), NotAllowed> {
    check_steps(rt, state, &[(0, Op::Enroll, Ok(0)), (1, Op::Enroll, Ok(1))]);
    link(state, 0)?;
    check_row_0(rt, state, (3, 20_971_521, 2), SlotUse::Held(0));
    hold(state, 0, 2)?;
    unlink(state, 0)?;
    let_go(state)?;
    check_row_0(rt, state, (3, 46_137_344, 0), SlotUse::Empty);
    Ok(())
}

// A scan of agent 0 finds row 0 held.
fn find_held(rt: &impl Abort, state: &mut State) -> Result<(), NotAllowed> {
    start(state, 0, 0)?;
    look_at_slots(state, 0, 0, 11)?;
    let found = Scan {
        row: 0,
        word: 46_137_344,
        place: 10,
        found: true,
    };
    assert_eq!(rt; scan_of(state, 0), Some(found));
    Ok(())
}

// Steps of agents have these answers.
fn check_steps(rt: &impl Abort, state: &mut State, steps: &[(u32, Op, Result<u64, NotAllowed>)]) {
    for (agent, op, answer) in steps {
        assert_eq!(rt; step(state, *agent, *op), *answer);
    }
}

// Row 0 has these words, agent 0 uses its slot 1 so, and nothing else stands in its record.
fn check_row_0(rt: &impl Abort, state: &State, words: (u64, u64, u64), slot: SlotUse) {
    assert_eq!(rt; words_of_row_0(state), words);
    assert_eq!(rt; record_of(state, 0), (slot, None, None, None));
}

// Row 0's gate and counter, and root 0.
fn words_of_row_0(state: &State) -> (u64, u64, u64) {
    (
        word_of(state, Word::Gate(0)),
        word_of(state, Word::Counter(0)),
        word_of(state, ROOT_0),
    )
}

// A word of row 0, a root 0 or a slot's word of the small states; 0 for another.
fn word_of(state: &State, word: Word) -> u64 {
    let shape = state.shape();
    match word {
        Word::Root(0) | Word::Gate(0) | Word::Counter(0) => state.word(word),
        Word::Handover(1, 2) if shape.agents() > 1 => state.word(word),
        _ => 0,
    }
}

// Slot 1 of an agent's record, its fresh row and its pending changes.
fn record_of(state: &State, agent: u32) -> (SlotUse, Option<u32>, Option<u32>, Option<u32>) {
    if agent >= state.shape().agents() {
        return (SlotUse::Empty, None, None, None);
    }
    let record = state.agent(agent);
    (record.slots[1], record.fresh, record.inc, record.dec)
}

fn scan_of(state: &State, agent: u32) -> Option<Scan> {
    if agent >= state.shape().agents() {
        return None;
    }
    state.agent(agent).scan
}

// How many entries of the agent's work list are this row.
fn entries_of(state: &State, agent: u32, row: u32) -> usize {
    if agent >= state.shape().agents() {
        return 0;
    }
    state.agent(agent).list.count_of(row)
}

// The oldest row of the agent's work list.
fn first_of(state: &State, agent: u32) -> Option<u32> {
    if agent >= state.shape().agents() {
        return None;
    }
    state.agent(agent).list.first()
}

#[test]
fn handed_over_taken_in_and_freed(rt: HostRuntime) -> Result<(), Fail> {
    let mut state = found_held(&rt, rt.alloc())?;
    hand_over_and_take_in(&rt, &mut state);
    scan_and_free(&mut state)?;
    assert_eq!(rt; words_of_row_0(&state), (2, 37_748_736, 0));
    assert_eq!(rt; census(&state), NONE_OUT);
    Ok(())
}

// Row 0 is handed over by agent 0, and taken in by agent 1.
fn hand_over_and_take_in(rt: &impl Abort, state: &mut State) {
    check_steps(rt, state, &[(0, Op::Hand { k: 10 }, Ok(0))]);
    assert_eq!(rt;
        (word_of(state, Word::Handover(1, 2)), scan_of(state, 0)),
        (1, None)
    );
    check_steps(
        rt,
        state,
        &[
            (1, Op::Clear { slot: 2 }, Ok(0)),
            (1, Op::TakeIn { slot: 2 }, Ok(1)),
        ],
    );
    let retired = Census {
        out: 1,
        retired: 1,
        listed: 1,
        ..NONE_OUT
    };
    assert_eq!(rt; census(state), retired);
    assert_eq!(rt; (entries_of(state, 1, 0), entries_of(state, 1, 1)), (1, 0));
    assert_eq!(rt; (first_of(state, 0), first_of(state, 1)), (None, Some(0)));
}

// None of these steps of an agent is allowed.
fn check_refused(rt: &impl Abort, state: &mut State, agent: u32, ops: &[Op]) {
    for op in ops {
        assert_eq!(rt; step(state, agent, *op), Err(NotAllowed));
    }
}

#[test]
fn a_refused_step_of_each_kind(rt: HostRuntime) -> Result<(), Fail> {
    let shape = Shape::new(2, 1, 2, 8)?;
    let mut state = State::new(rt.alloc(), &shape)?;
    let _ = step(&mut state, 0, Op::Enroll)?;
    check_refused(&rt, &mut state, 0, REFUSED.as_slice());
    for agent in [1, 2] {
        check_refused(&rt, &mut state, agent, &[Op::GateLook { row: 0 }]);
    }
    assert_eq!(rt; word_of(&state, ROOT_0), 0);
    Ok(())
}

#[test]
fn the_laws_are_called(_rt: HostRuntime) {
    pending_changes_come_first();
    permission_lies_in_the_record();
    a_step_writes_one_word_and_one_record();
    runs_go_on();
    every_run_is_whole();
    moving_on_is_clearing_and_publishing();
    a_look_at_nothing_is_a_take_in_of_nothing();
    a_decrement_under_a_hold_is_a_decrement();
}
