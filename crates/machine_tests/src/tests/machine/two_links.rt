//! A run in which a row has two links, with words and counts computed by hand.

use super::*;
use crate::tests::playing::{check, link_to};

// Row 0 is linked from root 0, and from both links of row 1.
fn link_row_0_thrice(state: &mut State) -> Result<(), NotAllowed> {
    let _ = step(state, 0, Op::Enroll)?;
    link(state, 0)?;
    steps(
        state,
        0,
        &[
            Op::GateLook { row: 1 },
            check(1),
            Op::GateTake { row: 1 },
            Op::Publish { slot: 2, row: 1 },
            check(0),
            Op::LinkStore {
                row: 1,
                number: 0,
                link: link_to(0),
            },
            Op::Inc { row: 0 },
            check(0),
            Op::LinkStore {
                row: 1,
                number: 1,
                link: link_to(0),
            },
            Op::Inc { row: 0 },
        ],
    )
}

// Row 1 is retired and scanned, and its first link is taken out.
fn take_out_the_first(state: &mut State) -> Result<(), NotAllowed> {
    steps(
        state,
        0,
        &[
            Op::SetRetired {
                row: 1,
                sequence: 0,
            },
            Op::Clear { slot: 2 },
            Op::TakeIn { slot: 2 },
            Op::CounterLoad {
                row: 1,
                how: CounterUse::Start,
            },
        ],
    )?;
    look_at_slots(state, 0, 0, 8)?;
    steps(
        state,
        0,
        &[
            Op::CounterLoad {
                row: 1,
                how: CounterUse::End,
            },
            Op::LinkStore {
                row: 1,
                number: 0,
                link: NULL,
            },
            Op::Arm { row: 0 },
            Op::Dec { row: 0 },
            Op::Clear { slot: 0 },
        ],
    )
}

// Its second link is taken out, and it is freed.
fn take_out_the_second(state: &mut State) -> Result<(), NotAllowed> {
    steps(
        state,
        0,
        &[
            Op::LinkStore {
                row: 1,
                number: 1,
                link: NULL,
            },
            Op::Arm { row: 0 },
            Op::Dec { row: 0 },
            Op::Clear { slot: 0 },
            Op::Unretire { row: 1 },
            Op::Free { row: 1 },
        ],
    )
}

// When a row with two links is to be freed these are taken out one after the other, and its bit isn't cleared after the first.
#[test]
fn a_row_with_two_links(rt: HostRuntime) -> Result<(), Fail> {
    let shape = Shape::with_links(2, 1, 1, 8, 2)?;
    let mut state = State::new(rt.alloc(), &shape)?;
    take_out_both(&rt, &mut state)?;
    Ok(())
}

// Row 1 links row 0 twice, and both links are taken out.
fn take_out_both(rt: &impl Abort, state: &mut State) -> Result<(), NotAllowed> {
    link_row_0_thrice(state)?;
    let two_out = Census {
        out: 2,
        linked: 1,
        ..NONE_OUT
    };
    assert_eq!(rt; census(state), two_out);
    assert_eq!(rt; words_of_row_0(state), (3, 54_525_955, 2));
    take_out_the_first(state)?;
    check_steps(rt, state, &[(0, Op::Unretire { row: 1 }, Err(NotAllowed))]);
    take_out_the_second(state)?;
    let one_out = Census {
        out: 1,
        linked: 1,
        ..NONE_OUT
    };
    assert_eq!(rt; census(state), one_out);
    Ok(())
}
