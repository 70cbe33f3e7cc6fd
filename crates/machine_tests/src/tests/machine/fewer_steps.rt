//! Runs of the kinds that save steps, with answers and words computed by hand.

use super::*;
use crate::tests::playing::link_to;

// Row 0 is handed over beside slot 2 of agent 1, which has moved on to row 1, and stays there until the slot is empty.
#[test]
fn a_slot_moves_on(rt: HostRuntime) -> Result<(), Fail> {
    let mut state = found_held(&rt, rt.alloc())?;
    check_steps(
        &rt,
        &mut state,
        &[
            (1, Op::MoveOn { slot: 2, row: 1 }, Ok(2)),
            (0, Op::Hand { k: 10 }, Ok(0)),
            (1, Op::HandoverLook { slot: 2 }, Err(NotAllowed)),
            (1, Op::TakeIn { slot: 2 }, Err(NotAllowed)),
            (1, Op::Clear { slot: 2 }, Ok(0)),
            (1, Op::HandoverLook { slot: 2 }, Ok(1)),
            (1, Op::TakeIn { slot: 2 }, Ok(1)),
            (1, Op::HandoverLook { slot: 2 }, Ok(0)),
        ],
    );
    assert_eq!(rt; first_of(&state, 1), Some(0));
    Ok(())
}

// Agent 0 holds row 0 in slot 1, takes its link out, counts that without arming slot 0, and retires the row.
#[test]
fn a_decrement_under_a_hold(rt: HostRuntime) -> Result<(), Fail> {
    let shape = Shape::new(2, 1, 2, 8)?;
    let mut state = State::new(rt.alloc(), &shape)?;
    let _ = step(&mut state, 0, Op::Enroll)?;
    link(&mut state, 0)?;
    let swing = Op::LinkCas {
        place: ROOT_0,
        from: link_to(0),
        to: NULL,
    };
    let set = Op::SetRetired {
        row: 0,
        sequence: 2,
    };
    check_steps(
        &rt,
        &mut state,
        &[
            (0, swing, Ok(1)),
            (0, Op::Dec { row: 0 }, Err(NotAllowed)),
            (0, Op::DecHeld { row: 0 }, Ok(20_971_521)),
            (0, set, Ok(1)),
        ],
    );
    assert_eq!(rt; words_of_row_0(&state), (3, 46_137_344, 0));
    Ok(())
}
