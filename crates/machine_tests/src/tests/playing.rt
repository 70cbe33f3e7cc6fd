//! Steps of one agent after another, as tests make them.

use orc_core::{CounterUse, NotAllowed, Op, State, apply};
use orc_words::{RowLink, Word};

// The link to no row.
pub(super) const NULL: RowLink = RowLink {
    to: None,
    mark: false,
};

// The link to this row.
pub(super) fn link_to(row: u32) -> RowLink {
    RowLink {
        to: Some(row),
        mark: false,
    }
}

// A look at the row's counter.
pub(super) fn check(row: u32) -> Op {
    Op::CounterLoad {
        row,
        how: CounterUse::Check,
    }
}

// Makes a step; a step of an agent whose work list is full counts as refused.
pub(super) fn step(state: &mut State, agent: u32, op: Op) -> Result<u64, NotAllowed> {
    if !state.has_room(agent) {
        return Err(NotAllowed);
    }
    apply(state, agent, &op)
}

// Makes these steps of one agent.
pub(super) fn steps(state: &mut State, agent: u32, ops: &[Op]) -> Result<(), NotAllowed> {
    for op in ops {
        let _ = step(state, agent, *op)?;
    }
    Ok(())
}

// Agents 0 and 1 enroll.
pub(super) fn enroll_both(state: &mut State) -> Result<(), NotAllowed> {
    steps(state, 0, &[Op::Enroll])?;
    steps(state, 1, &[Op::Enroll])
}

// An agent's looks at the slots of these scan places.
pub(super) fn look_at_slots(
    state: &mut State,
    agent: u32,
    from: u32,
    end: u32,
) -> Result<(), NotAllowed> {
    for k in from..end {
        let _ = step(state, agent, Op::SlotLook { k })?;
    }
    Ok(())
}

// Agent 0 takes a row and links it from the root of the same number.
pub(super) fn link(state: &mut State, row: u32) -> Result<(), NotAllowed> {
    steps(
        state,
        0,
        &[
            Op::GateLook { row },
            check(row),
            Op::GateTake { row },
            Op::Publish { slot: 1, row },
            check(row),
            Op::LinkCas {
                place: Word::Root(row),
                from: NULL,
                to: link_to(row),
            },
            Op::Inc { row },
        ],
    )
}

// Agent 1 holds the row in this slot, as the root of the same number shows it.
pub(super) fn hold(state: &mut State, row: u32, slot: u32) -> Result<(), NotAllowed> {
    let place = Word::Root(row);
    let slot_to_hold = Some(slot);
    steps(
        state,
        1,
        &[
            Op::LinkLoad { place, slot: None },
            Op::Publish { slot, row },
            Op::LinkLoad {
                place,
                slot: slot_to_hold,
            },
        ],
    )
}

// Agent 0 takes the link out and retires the row.
pub(super) fn unlink(state: &mut State, row: u32) -> Result<(), NotAllowed> {
    steps(
        state,
        0,
        &[
            Op::LinkCas {
                place: Word::Root(row),
                from: link_to(row),
                to: NULL,
            },
            Op::Arm { row },
            Op::Dec { row },
            Op::SetRetired { row, sequence: 2 },
        ],
    )
}

// Agent 0 gives up its holds.
pub(super) fn let_go(state: &mut State) -> Result<(), NotAllowed> {
    steps(
        state,
        0,
        &[
            Op::Clear { slot: 0 },
            Op::TakeIn { slot: 0 },
            Op::Clear { slot: 1 },
            Op::TakeIn { slot: 1 },
        ],
    )
}

// The agent begins a scan for the row.
pub(super) fn start(state: &mut State, agent: u32, row: u32) -> Result<(), NotAllowed> {
    let how = CounterUse::Start;
    steps(state, agent, &[Op::CounterLoad { row, how }])
}

// Agent 1 scans all slots of two agents for row 0 and frees it.
pub(super) fn scan_and_free(state: &mut State) -> Result<(), NotAllowed> {
    let row = 0;
    start(state, 1, row)?;
    look_at_slots(state, 1, 0, 16)?;
    let how = CounterUse::End;
    steps(
        state,
        1,
        &[
            Op::CounterLoad { row, how },
            Op::LinkStore {
                row,
                number: 0,
                link: NULL,
            },
            Op::Unretire { row },
            Op::Free { row },
        ],
    )
}
