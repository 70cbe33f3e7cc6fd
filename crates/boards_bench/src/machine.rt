//! Steps of the machine over a state of 65,535 rows.

use orc_core::{CounterUse, NotAllowed, Op, State, apply};
use orc_words::{HIGHEST_LIMIT, RowLink, Shape, Word};
use std::alloc::Global;
use std::io;
use std::io::{Eprint, Print};
use std::time::{Clock, Instant};

// How many times each row is taken, linked, retired and freed.
const LIVES: u32 = 10;

const ROWS: u32 = 65_535;

const NULL: RowLink = RowLink {
    to: None,
    mark: false,
};

// A state, and how many steps were made on it.
#[derive(Drop)]
struct Bench {
    state: State,
    steps: u64,
}

impl Bench {
    // One step of agent 0.
    fn step(&mut self, op: Op) -> Result<(), NotAllowed> {
        if !self.state.has_room(0) {
            return Err(NotAllowed);
        }
        let _ = apply(&mut self.state, 0, &op)?;
        self.steps = self.steps.wrapping_add(1);
        Ok(())
    }

    fn count(&mut self, row: u32, how: CounterUse) -> Result<(), NotAllowed> {
        self.step(Op::CounterLoad { row, how })
    }

    // The row is taken, filled, and linked from root 0.
    fn link(&mut self, row: u32) -> Result<(), NotAllowed> {
        self.step(Op::GateLook { row })?;
        self.count(row, CounterUse::Check)?;
        self.step(Op::GateTake { row })?;
        for which in 0..2 {
            self.step(Op::Fill {
                row,
                which,
                value: 7,
            })?;
        }
        self.step(Op::Publish { slot: 1, row })?;
        self.count(row, CounterUse::Check)?;
        self.step(Op::LinkCas {
            place: Word::Root(0),
            from: NULL,
            to: to_row(row),
        })?;
        self.step(Op::Inc { row })
    }

    // The row is unlinked from root 0 and retired, and its slots are cleared.
    fn retire(&mut self, row: u32, sequence: u64) -> Result<(), NotAllowed> {
        self.step(Op::LinkCas {
            place: Word::Root(0),
            from: to_row(row),
            to: NULL,
        })?;
        self.step(Op::Arm { row })?;
        self.step(Op::Dec { row })?;
        self.step(Op::SetRetired { row, sequence })?;
        for slot in 0..2 {
            self.step(Op::Clear { slot })?;
            self.step(Op::TakeIn { slot })?;
        }
        Ok(())
    }

    // The row is scanned for, and freed.
    fn free(&mut self, row: u32, slots: u32) -> Result<(), NotAllowed> {
        self.count(row, CounterUse::Start)?;
        for k in 0..slots {
            self.step(Op::SlotLook { k })?;
        }
        self.count(row, CounterUse::End)?;
        self.step(Op::LinkStore {
            row,
            number: 0,
            link: NULL,
        })?;
        self.step(Op::Unretire { row })?;
        self.step(Op::Free { row })
    }
}

fn to_row(row: u32) -> RowLink {
    RowLink {
        to: Some(row),
        mark: false,
    }
}

// A new state of 65,535 rows, if memory is there for it.
fn new_state(alloc: Global, roots: u32, agents: u32) -> Option<State> {
    let shape = Shape::new(ROWS, roots, agents, HIGHEST_LIMIT).ok()?;
    State::new(alloc, &shape).ok()
}

// All lives of all rows, one row after another.
fn run(bench: &mut Bench) -> Result<(), NotAllowed> {
    bench.step(Op::Enroll)?;
    for life in 1..=LIVES {
        for row in 0..ROWS {
            bench.link(row)?;
            bench.retire(row, 2 * u64::from(life))?;
            bench.free(row, 16)?;
        }
    }
    Ok(())
}

// How many microseconds a new state of the largest shape takes, if memory is there for it.
fn time_largest<R: Clock>(rt: &R, alloc: Global) -> io::Result<Option<u128>> {
    let start = Instant::now(rt)?;
    let largest = new_state(alloc, 257, 16);
    let took = start.elapsed(rt);
    if largest.is_none() {
        return Ok(None);
    }
    Ok(Some(took?.as_micros()))
}

// Makes all steps, and prints how many they were, and the times that a new state of the largest shape and they took.
fn time_steps<R: Clock + Print + Eprint>(rt: &R, bench: &mut Bench, made: u128) -> io::Result<()> {
    let start = Instant::now(rt)?;
    let outcome = run(bench);
    let ran = start.elapsed(rt)?.as_micros();
    eprintln!(rt; "largest new state: {made} microseconds; all steps: {ran} microseconds")?;
    println!(rt; "steps {} {outcome:?}", bench.steps)
}

// Times a new state of the largest shape, and the steps over a small one.
pub(crate) fn time<R: Clock + Print + Eprint>(rt: &R, alloc: Global) -> io::Result<()> {
    let Some(made) = time_largest(rt, alloc)? else {
        return println!(rt; "no memory");
    };
    let Some(state) = new_state(alloc, 1, 2) else {
        return println!(rt; "no memory");
    };
    time_steps(rt, &mut Bench { state, steps: 0 }, made)
}
