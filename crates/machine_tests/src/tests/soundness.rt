//! Links, holds, tokens and backlogs of states that traces reach, with numbers counted by hand.

use super::playing::{
    enroll_both, hold, let_go, link, look_at_slots, scan_and_free, start, steps, unlink,
};
use orc_core::{NotAllowed, Op, State};
use orc_sound::*;
use orc_words::Shape;
use std::alloc::Global;
use std::process::Abort;
use std::test::Fail;

mod examples;

// Agent 0 gives up its holds, and hands the row over at scan place `k`, where it finds it.
fn hand_over(state: &mut State, row: u32, k: u32) -> Result<(), NotAllowed> {
    let_go(state)?;
    start(state, 0, row)?;
    look_at_slots(state, 0, 0, k)?;
    steps(state, 0, &[Op::SlotLook { k }, Op::Hand { k }])
}

// Agent 1 gives up this slot, and takes in what was handed over there.
fn take_in(state: &mut State, slot: u32) -> Result<(), NotAllowed> {
    steps(state, 1, &[Op::Clear { slot }, Op::TakeIn { slot }])
}

// Agent 0 links this row, which agent 1 holds in this slot, and unlinks it.
fn link_hold_and_unlink(state: &mut State, row: u32, slot: u32) -> Result<(), NotAllowed> {
    link(state, row)?;
    hold(state, row, slot)?;
    unlink(state, row)
}

// A new state of two agents, both enrolled.
fn enrolled(rt: &impl Abort, alloc: Global, rows: u32, roots: u32) -> Result<State, Fail> {
    let shape = Shape::new(rows, roots, 2, 8)?;
    let mut state = State::new(alloc, &shape)?;
    enroll_both(&mut state)?;
    assert_eq!(rt; backlog_of(&state), 0);
    Ok(state)
}

// Links to row 0, whether it is held, the places that have it, and the backlog; of a sound state.
fn row_0(rt: &impl Abort, state: &State) -> (u32, bool, u32, u32) {
    assert!(rt; sound(state));
    (
        linked_of(state, 0),
        is_held(state, 0),
        tokens_of(state, 0),
        backlog_of(state),
    )
}

// Row 0 of a sound state has so many links and places, is held or not, and so long is the backlog.
fn check_row_0(rt: &impl Abort, state: &State, wanted: (u32, bool, u32, u32)) {
    assert_eq!(rt; row_0(rt, state), wanted);
}

#[test]
fn a_row_is_linked_retired_handed_over_and_freed(rt: HostRuntime) -> Result<(), Fail> {
    let mut state = enrolled(&rt, rt.alloc(), 2, 1)?;
    link_retire_and_free(&rt, &mut state)?;
    Ok(())
}

// Row 0 is linked, retired, handed over, taken in and freed.
fn link_retire_and_free(rt: &impl Abort, state: &mut State) -> Result<(), NotAllowed> {
    link(state, 0)?;
    check_row_0(rt, state, (1, true, 0, 0));
    hold(state, 0, 2)?;
    unlink(state, 0)?;
    // 16 steps: unlinked, held by both agents, in agent 0's work list
    check_row_0(rt, state, (0, true, 1, 0));
    hand_over(state, 0, 10)?;
    // 33 steps: in a handover word
    check_row_0(rt, state, (0, true, 1, 1));
    take_in(state, 2)?;
    // 35 steps: held by nobody, in agent 1's work list
    check_row_0(rt, state, (0, false, 1, 0));
    scan_and_free(state)?;
    // 56 steps
    check_row_0(rt, state, (0, false, 0, 0));
    assert_eq!(rt;
        (linked_of(state, 1), is_held(state, 1), tokens_of(state, 1)),
        (0, false, 0)
    );
    Ok(())
}

#[test]
fn a_stopped_agent_keeps_seven_rows_of_a_bound_of_18(rt: HostRuntime) -> Result<(), Fail> {
    let mut state = enrolled(&rt, rt.alloc(), 8, 7)?;
    for row in 0..7 {
        link_hold_and_unlink(&mut state, row, row + 1)?;
        hand_over(&mut state, row, 9 + row)?;
        assert_eq!(rt; backlog_of(&state), row + 1);
    }
    for slot in 1..8 {
        take_in(&mut state, slot)?;
    }
    assert_eq!(rt; backlog_of(&state), 0);
    assert!(rt; sound(&state));
    Ok(())
}

#[test]
fn the_laws_are_called(_rt: HostRuntime) {
    journals_go_on::<u32>();
    every_run_is_sound();
    records_are_in_order();
    every_journal_is_sound::<u32>();
    a_freed_row_is_unreachable();
    a_row_is_freed_once_a_life();
    the_backlog_is_bounded();
    work_lists_have_room();
    no_sum_wraps();
}
