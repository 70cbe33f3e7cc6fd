//! A job goes through a queue of two rows, and the row that it leaves is freed.

ghost use Rattle.std.specs.Prelude.{◌≡◌, ◌++◌, ◌∷◌, [], IfSome, None, Some, true};
ghost use Rattle.orc_core.specs.{declared.ops.Op.{Op}, Runs.{run}};
ghost use Rattle.orc_fifo_rule.specs.QueueDiscipline.{FifoMay};
ghost use Rattle.domain_tests.specs.JobRun.{IsPlayed, after_put, before_put, before_took, exchanged, opened, own_steps, small};
ghost use Rattle.orc_machine_board.specs.{
  Licences.{MoveAllowed},
  Plays.{by_agent},
  Rules.{does, run_of},
  Views.{board_bounds, board_numbers, shows},
};
ghost use Rattle.orc_words.specs.Bounds.{bounds_of};

use super::steps::{exchange, follow, make_one, make_ones, step, steps};
use orc_core::{CounterUse, Op, State, allowed};
use orc_fifo_rule::{Fifo, FifoNote};
use orc_heap::{Discipline, Seed};
use orc_history::QueueEntry;
use orc_machine_board::{MachineBoard, MachineBoardPass};
use orc_words::{RowLink, Shape, Word};
use std::alloc::Global;

type Queue = MachineBoard<Fifo>;

type QueuePass = MachineBoardPass<Fifo>;

const NULL: RowLink = RowLink {
    to: None,
    mark: false,
};

const ROW_0: RowLink = RowLink {
    to: Some(0),
    mark: false,
};

const ROW_1: RowLink = RowLink {
    to: Some(1),
    mark: false,
};

const CHECK_0: Op = Op::CounterLoad {
    row: 0,
    how: CounterUse::Check,
};

const CHECK_1: Op = Op::CounterLoad {
    row: 1,
    how: CounterUse::Check,
};

const START: Op = Op::CounterLoad {
    row: 0,
    how: CounterUse::Start,
};

const END: Op = Op::CounterLoad {
    row: 0,
    how: CounterUse::End,
};

const LOAD: Op = Op::LinkLoad {
    place: Word::Root(0),
    slot: None,
};

const FILL_JOB: Op = Op::Fill {
    row: 1,
    which: 0,
    value: 6,
};

const FILL_POSITION: Op = Op::Fill {
    row: 1,
    which: 1,
    value: 1,
};

const FILL_DUMMY: Op = Op::Fill {
    row: 0,
    which: 0,
    value: 0,
};

const FILL_START: Op = Op::Fill {
    row: 0,
    which: 1,
    value: 0,
};

const LINK_HEAD: Op = Op::LinkCas {
    place: Word::Root(0),
    from: NULL,
    to: ROW_0,
};

const LINK_TAIL: Op = Op::LinkCas {
    place: Word::Root(1),
    from: NULL,
    to: ROW_0,
};

const LOAD_TAIL: Op = Op::LinkLoad {
    place: Word::Root(1),
    slot: None,
};

const HOLD_TAIL: Op = Op::LinkLoad {
    place: Word::Root(1),
    slot: Some(2),
};

const HOLD_HEAD: Op = Op::LinkLoad {
    place: Word::Root(0),
    slot: Some(1),
};

const LOAD_NEXT: Op = Op::LinkLoad {
    place: Word::Next(0),
    slot: None,
};

const HOLD_NEXT: Op = Op::LinkLoad {
    place: Word::Next(0),
    slot: Some(2),
};

// Takes row 1 out for job 6, and holds row 0, as root 1 shows it.
fn give(board: &Queue, p: &mut QueuePass, state: &mut State) -> bool
    requires played { IsPlayed board.now p.old state.old }
    requires journal { (shows p.old).journal ≡ opened }
    ensures played { IsPlayed board.now p.new state.new }
    ensures journal { result ≡ true → (shows p.new).journal ≡ before_put }
{
    steps(
        board,
        p,
        state,
        &[
            Op::GateLook { row: 1 },
            CHECK_1,
            Op::GateTake { row: 1 },
            FILL_JOB,
            FILL_POSITION,
            Op::Publish { slot: 1, row: 1 },
            LOAD_TAIL,
            Op::Publish { slot: 2, row: 0 },
            HOLD_TAIL,
            LOAD_NEXT,
            CHECK_1,
        ],
    )
}

// Puts the job: the link of row 0 leads to row 1, and root 1 steps on.
fn put(board: &Queue, p: &mut QueuePass, state: &mut State) -> bool
    requires played { IsPlayed board.now p.old state.old }
    requires journal { (shows p.old).journal ≡ opened }
    ensures played { IsPlayed board.now p.new state.new }
    ensures journal { result ≡ true → (shows p.new).journal ≡ after_put }
{
    if !give(board, p, state) {
        return false;
    }
    let entry = FifoNote::Entry(QueueEntry::Put {
        agent: 0,
        job: 6,
        at: 0,
    });
    if !exchange(board, p, state, Word::Next(0), NULL, ROW_1, entry) {
        return false;
    }
    if !steps(board, p, state, &[Op::Inc { row: 1 }, CHECK_1]) {
        return false;
    }
    if !exchange(
        board,
        p,
        state,
        Word::Root(1),
        ROW_0,
        ROW_1,
        FifoNote::Swing,
    ) {
        return false;
    }
    steps(
        board,
        p,
        state,
        &[
            Op::Inc { row: 1 },
            Op::Arm { row: 0 },
            Op::Dec { row: 0 },
            Op::Clear { slot: 0 },
            Op::TakeIn { slot: 0 },
            Op::Clear { slot: 1 },
            Op::TakeIn { slot: 1 },
            Op::Clear { slot: 2 },
            Op::TakeIn { slot: 2 },
        ],
    )
}

// Takes the job: rows 0 and 1 are held, the job is read, and root 0 steps on.
fn take(board: &Queue, p: &mut QueuePass, state: &mut State) -> Option<u64>
    requires played { IsPlayed board.now p.old state.old }
    requires journal { (shows p.old).journal ≡ after_put }
    ensures played { IsPlayed board.now p.new state.new }
{
    let held = steps(
        board,
        p,
        state,
        &[
            LOAD,
            Op::Publish { slot: 1, row: 0 },
            HOLD_HEAD,
            LOAD_NEXT,
            Op::Publish { slot: 2, row: 1 },
            HOLD_NEXT,
            CHECK_1,
        ],
    );
    if !held {
        return None;
    }
    let job = step(board, p, state, Op::Read { row: 1, which: 0 })?;
    let entry = FifoNote::Entry(QueueEntry::Took {
        agent: 0,
        job: 6,
        at: 0,
    });
    if !exchange(board, p, state, Word::Root(0), ROW_0, ROW_1, entry) {
        return None;
    }
    Some(job)
}

// Counts the links that changed, and retires row 0.
fn retire<D: Discipline>(
    board: &MachineBoard<D>,
    p: &mut MachineBoardPass<D>,
    state: &mut State,
) -> bool
    requires played { IsPlayed board.now p.old state.old }
    ensures played { IsPlayed board.now p.new state.new }
{
    let sequence = 4;
    make_ones(
        board,
        p,
        state,
        &[
            Op::Inc { row: 1 },
            Op::Arm { row: 0 },
            Op::Dec { row: 0 },
            Op::SetRetired { row: 0, sequence },
            Op::Clear { slot: 0 },
            Op::TakeIn { slot: 0 },
            Op::Clear { slot: 1 },
            Op::TakeIn { slot: 1 },
            Op::Clear { slot: 2 },
            Op::TakeIn { slot: 2 },
        ],
    )
}

// Scans for row 0, takes its link out, and frees it.
fn free<D: Discipline>(
    board: &MachineBoard<D>,
    p: &mut MachineBoardPass<D>,
    state: &mut State,
) -> bool
    requires played { IsPlayed board.now p.old state.old }
    ensures played { IsPlayed board.now p.new state.new }
{
    let mut scanned = make_ones(board, p, state, &[START]);
    for k in 0..8 {
        scanned &= make_ones(board, p, state, &[Op::SlotLook { k }]);
    }
    let link = NULL;
    let freed = make_ones(
        board,
        p,
        state,
        &[
            END,
            Op::LinkStore {
                row: 0,
                number: 0,
                link,
            },
            Op::Arm { row: 1 },
            Op::Dec { row: 1 },
            Op::Clear { slot: 0 },
            Op::TakeIn { slot: 0 },
            Op::Unretire { row: 0 },
            Op::Free { row: 0 },
        ],
    );
    scanned && freed
}

// Makes these steps on the machine, and tells whether it allows all.
fn play(state: &mut State, ops: &[Op]) -> bool
    ensures { result ≡ true → state.new ≡ run state.old (by_agent 0 ops.now) }
{
    for op in ops {
        if !state.has_room(0) {
            return false;
        }
        if !allowed(state, 0, op) {
            return false;
        }
        follow(state, op);
    }
    true
}

// Makes a machine that has made the steps with which the board begins.
fn opened_machine(alloc: Global, shape: &Shape) -> Option<State>
    ensures { IfSome result (λ state. state ≡ run_of (bounds_of shape.now) opened) }
{
    let Ok(mut state) = State::new(alloc, shape) else {
        return None;
    };
    let opens = play(
        &mut state,
        &[
            Op::Enroll,
            Op::GateLook { row: 0 },
            CHECK_0,
            Op::GateTake { row: 0 },
            FILL_DUMMY,
            FILL_START,
            Op::Publish { slot: 1, row: 0 },
            CHECK_0,
            LINK_HEAD,
            Op::Inc { row: 0 },
            CHECK_0,
            LINK_TAIL,
            Op::Inc { row: 0 },
            Op::Clear { slot: 1 },
            Op::TakeIn { slot: 1 },
        ],
    );
    if !opens {
        return None;
    }
    Some(state)
}

// Makes a board with a dummy, for one agent, its pass, and a machine that made the same steps.
fn with_dummy(alloc: Global) -> Option<(Queue, QueuePass, State)>
    ensures played { IfSome result (λ made. IsPlayed made.0 made.1 made.2) }
    ensures journal { IfSome result (λ made. (shows made.1).journal ≡ opened) }
{
    let Ok(shape) = Shape::new(2, 2, 1, 8) else {
        return None;
    };
    let begin = FifoNote::Begin;
    let seed = Seed::Dummy { first: 0, begin };
    let Ok((board, mut passes)) = Queue::make(alloc, &shape, seed) else {
        return None;
    };
    let Some(pass) = passes.pop() else {
        return None;
    };
    if pass.agent() != 0 {
        return None;
    }
    let state = opened_machine(alloc, &shape)?;
    Some((board, pass, state))
}

// What is told of the job: what was taken, whether row 0 was retired and freed, the backlog before each and after that, and what the
// gate of row 0 is then.
type Told = (Option<u64>, (bool, bool), (u32, u32, u32), Option<u64>);

// Puts the job, takes it, and frees the row that it leaves; none where it isn't put.
fn go_through(board: &Queue, p: &mut QueuePass, state: &mut State) -> Option<Told>
    requires played { IsPlayed board.now p.old state.old }
    requires journal { (shows p.old).journal ≡ opened }
{
    if !put(board, p, state) {
        return None;
    }
    let taken = take(board, p, state);
    let before = p.backlog();
    let retired = retire(board, p, state);
    let waiting = p.backlog();
    let freed = free(board, p, state);
    let gate = make_one(board, p, state, Op::GateLook { row: 0 });
    Some((
        taken,
        (retired, freed),
        (before, waiting, p.backlog()),
        gate,
    ))
}

// Lets the agent of a new board do so.
fn goes_through(alloc: Global) -> Option<Told> {
    let (board, mut pass, mut state) = with_dummy(alloc)?;
    go_through(&board, &mut pass, &mut state)
}

#[test]
fn a_job_goes_through_two_rows(rt: HostRuntime) {
    let told = goes_through(rt.alloc());
    assert_eq!(rt; told, Some((Some(6), (true, true), (0, 1, 0), Some(2))));
}
