//! New boards.

ghost use Rattle.std.specs.Prelude.{◌≡◌, ◌∷◌, [], All, IfOk, List, length, ℕ};
ghost use Rattle.orc_core.specs.{Runs.{run}, Machine.{new_machine}, declared.ops.Op.{Op}};
ghost use Rattle.orc_words.specs.Bounds.{Bounds, bounds_of};
ghost use Rattle.orc_heap.specs.Seeds.{HasRoots, SeedAllowed};
ghost use Rattle.orc_layout.specs.Layout.{index, lay, table_length};
ghost use Rattle.orc_machine_board.specs.{
  Passes.{HasNothing},
  Rules.{enrolments, machine_opening, run_of, seeding},
  Views.{Belongs, board_bounds, board_seed, shows},
  Plays.{PlaysOn, by_agent},
};
ghost use Rattle.orc_projection.specs.Mirror.{numbers_of};
ghost use Rattle.orc_shared_words.specs.Lists.{EachAt, EachFrom};
ghost use Rattle.orc_sound.specs.Journals.{plain};

use crate::board::{MachineBoard, MachineBoardPass};
use crate::machine::{MachineShape, Reclaiming};
use orc_core::{Agent, CounterUse, Op, State, apply};
use orc_fault::NoMemory;
use orc_heap::{Discipline, Seed};
use orc_layout::{Layout, laid_words};
use orc_shared_words::{SharedPass, SharedWords, each_made};
use orc_words::{RowLink, Shape, Word};
use std::alloc::Global;

impl<D: Discipline> MachineBoard<D> {
    /// A board, and one pass an agent, in order. Its journal begins with the enrolments and the steps for the seed.
    ///
    /// # Errors
    ///
    /// `NoMemory` where memory is refused.
    pub fn make(
        alloc: Global,
        shape: &Shape,
        seed: Seed<D::Note>,
    ) -> Result<(MachineBoard<D>, Vec<MachineBoardPass<D>>), NoMemory>
        requires holds { D.holds (numbers_of (bounds_of shape.now)) [] }
        requires seed { SeedAllowed D.may (numbers_of (bounds_of shape.now)) seed }
        ensures bounds { IfOk result (λ made. board_bounds made.0 ≡ bounds_of shape.now) }
        ensures passes { IfOk result (λ made. length made.1.items ≡ (bounds_of shape.now).agents) }
        ensures belongs { IfOk result (λ made. All (λ p. Belongs made.0 p) made.1.items) }
        ensures agents { IfOk result (λ made. EachAt (λ i p. (shows p).agent ≡ i) made.1.items) }
        ensures seed { IfOk result (λ made. board_seed made.0 ≡ seed) }
        ensures idle { IfOk result (λ made. All (λ p. HasNothing (shows p).record_is) made.1.items) }
        ensures absorbed { IfOk result (λ made. All (λ p. (shows p).absorbed ≡ []) made.1.items) }
        ensures journal { IfOk result (λ made. All (λ p. (shows p).journal ≡ machine_opening (bounds_of shape.now).agents seed) made.1.items) }
    {
        let (words, owns) = opened(alloc, shape, &seed)?;
        let board_shape = MachineShape {
            shape: *shape,
            seed,
            layout: Layout::new(shape),
        };
        let (words, passes) = SharedWords::<Reclaiming, D>::make(
            alloc,
            board_shape,
            words.as_slice(),
            owns,
        )?;
        let passes = passes_of(alloc, passes)?;
        Ok((MachineBoard { words }, passes))
    }
}

// Wraps the passes.
fn passes_of<D: Discipline>(
    alloc: Global,
    passes: Vec<SharedPass<Reclaiming, D>>,
) -> Result<Vec<MachineBoardPass<D>>, NoMemory>
    ensures long { IfOk result (λ made. length made.items ≡ length passes.items) }
    ensures same { IfOk result (λ made. EachFrom (λ p. p.pass) made.items passes.items) }
{
    each_made(alloc, passes, |pass| MachineBoardPass { pass })
}

// Makes a step that is allowed.
fn play_one(state: &mut State, agent: u32, op: &Op)
    requires goes { (b : Bounds) × (rest : List (ℕ × Op)) × PlaysOn b state.old ((agent, op.now) ∷ rest) }
    ensures { state.new ≡ run state.old ((agent, op.now) ∷ []) }
{
    let Ok(_) = apply(state, agent, op) else {
        unreachable!()
    };
}

// Makes these steps of one agent.
fn play(state: &mut State, agent: u32, ops: &[Op])
    requires goes { (b : Bounds) × PlaysOn b state.old (by_agent agent ops.now) }
    ensures { state.new ≡ run state.old (by_agent agent ops.now) }
{
    for op in ops {
        play_one(state, agent, op);
    }
}

// Enrolls the agents, in order.
fn enroll_all(state: &mut State, shape: &Shape)
    requires { state.old ≡ new_machine (bounds_of shape.now) }
    ensures { let b = bounds_of shape.now in state.new ≡ run_of b (enrolments {N = Unit {0}} b.agents) }
{
    for agent in 0..shape.agents() {
        play_one(state, agent, &Op::Enroll);
    }
}

const NULL: RowLink = RowLink {
    to: None,
    mark: false,
};

const FIRST: RowLink = RowLink {
    to: Some(0),
    mark: false,
};

const CHECK: Op = Op::CounterLoad {
    row: 0,
    how: CounterUse::Check,
};

// Makes the steps of agent 0 for the seed.
fn plant<N>(state: &mut State, seed: &Seed<N>)
    requires { (b : Bounds) × PlaysOn b state.old (plain (seeding seed.now)) }
    ensures { state.new ≡ run state.old (plain (seeding seed.now)) }
{
    if let Seed::Dummy { first, begin: _ } = seed {
        let ops = [
            Op::GateLook { row: 0 },
            CHECK,
            Op::GateTake { row: 0 },
            Op::Fill {
                row: 0,
                which: 0,
                value: 0,
            },
            Op::Fill {
                row: 0,
                which: 1,
                value: *first,
            },
            Op::Publish { slot: 1, row: 0 },
            CHECK,
            Op::LinkCas {
                place: Word::Root(0),
                from: NULL,
                to: FIRST,
            },
            Op::Inc { row: 0 },
            CHECK,
            Op::LinkCas {
                place: Word::Root(1),
                from: NULL,
                to: FIRST,
            },
            Op::Inc { row: 0 },
            Op::Clear { slot: 1 },
            Op::TakeIn { slot: 1 },
        ];
        play(state, 0, &ops);
    }
}

// Runs the opening on the pure machine, and answers the words that it leaves, each at its index, and the records.
fn opened<N>(
    alloc: Global,
    shape: &Shape,
    seed: &Seed<N>,
) -> Result<(Vec<u64>, Vec<Agent>), NoMemory>
    requires { HasRoots (numbers_of (bounds_of shape.now)) seed.now }
    ensures words { let b = bounds_of shape.now in IfOk result (λ made. made.0.items ≡ lay (index b) (run_of b (machine_opening b.agents seed.now)).words) }
    ensures long { IfOk result (λ made. length made.0.items ≡ table_length (bounds_of shape.now)) }
    ensures agents { let b = bounds_of shape.now in IfOk result (λ made. made.1.items ≡ (run_of b (machine_opening b.agents seed.now)).agents) }
{
    let mut state = State::new(alloc, shape)?;
    enroll_all(&mut state, shape);
    plant(&mut state, seed);
    let (words, agents) = state.into_parts();
    Ok((laid_words(alloc, shape, words.as_slice())?, agents))
}
