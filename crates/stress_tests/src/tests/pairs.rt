//! Pairs that were published, and such as can't have been, or not then.

use orc_stress::{PairLog, value_of};
use std::test::Fail;

// Whether this pair can be left, and the other one can't.
fn tells_apart(log: &PairLog, pair: (u64, u64), other: (u64, u64)) -> bool {
    log.may_be_left(pair) && !log.may_be_left(other)
}

// The first agent publishes a left part, and the second one both, which the first reads. Then it reads its own left part again, with
// the second one's right part: such a pair was never published.
#[test]
fn pairs_that_were_never_published_are_wrong(rt: HostRuntime) -> Result<(), Fail> {
    let log = PairLog::new(rt.alloc(), 2, 3)?;
    let (mine, other) = (value_of(0, 0), value_of(1, 0));
    log.note(0, 0, (mine, 0));
    log.note(1, 0, (other, other));
    log.note(0, 1, (other, other));
    assert_eq!(rt; (log.noted(), log.all_published()), (3, true));
    assert!(rt; tells_apart(&log, (other, other), (mine, other)));
    log.note(0, 2, (mine, other));
    assert_eq!(rt; (log.noted(), log.all_published()), (4, false));
    Ok(())
}

// An agent publishes two left parts, one after the other. So the first one isn't left, nor none, and once another agent has read the
// second one it doesn't read the first.
#[test]
fn parts_that_come_back_are_wrong(rt: HostRuntime) -> Result<(), Fail> {
    let log = PairLog::new(rt.alloc(), 2, 3)?;
    let (first, second) = (value_of(0, 0), value_of(0, 1));
    assert!(rt; log.may_be_left((0, 0)));
    log.note(0, 0, (first, 0));
    assert!(rt; tells_apart(&log, (first, 0), (0, 0)));
    log.note(0, 1, (second, 0));
    log.note(1, 0, (second, 0));
    assert!(rt; tells_apart(&log, (second, 0), (first, 0)));
    log.note(1, 1, (first, 0));
    assert!(rt; !log.may_be_left((second, 0)) && !log.may_be_left((first, 0)));
    Ok(())
}

// Of right parts that two agents publish at once either can be left, until a call that begins after both reads one.
#[test]
fn calls_that_overlap_come_in_either_order(rt: HostRuntime) -> Result<(), Fail> {
    let log = PairLog::new(rt.alloc(), 2, 2)?;
    let (one, other) = (value_of(0, 0), value_of(1, 0));
    log.note(0, 0, (0, one));
    log.note(1, 0, (0, other));
    assert!(rt; log.may_be_left((0, one)) && log.may_be_left((0, other)));
    log.note(1, 1, (0, one));
    assert!(rt; tells_apart(&log, (0, one), (0, other)));
    Ok(())
}
