//! That workers of a watch work beside each other, which no contract says: a gate that holds each until the other has come.

use super::super::gates::TwoMeet;
use orc_board::Gate;
use orc_fault::NoMemory;
use orc_watch::read_watch;
use orc_watch_domain::watch_new_cell;
use std::alloc::Global;
use std::sync::Wait;
use std::test::Fail;
use std::thread::Threads;

// Two workers work through this file, over a cell of 64 rows.
fn watch_by_two<R: Threads + Wait + Sync, G: Gate + Sync>(
    rt: &R,
    alloc: Global,
    bytes: &[u8],
    gate: &G,
) -> Result<(), NoMemory> {
    match read_watch(alloc, bytes) {
        Ok(lines) => {
            let _finished = watch_new_cell(rt, alloc, &lines, 2, 64, gate)?;
            Ok(())
        }
        Err(_) => Err(NoMemory),
    }
}

#[test]
fn two_workers_each_see_the_other_come(rt: HostRuntime) -> Result<(), Fail> {
    let lines = b"left,1\nright,2\nsee\nsee\nboth,3,4\nsee\n";
    let gate = TwoMeet::new();
    watch_by_two(&rt, rt.alloc(), lines, &gate)?;
    assert!(rt; gate.met() == 2);
    Ok(())
}
