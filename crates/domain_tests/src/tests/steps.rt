//! Steps of the one agent of a board of twenty kinds, each where a machine that makes the same steps allows it.

ghost use Rattle.std.specs.Prelude.{◌≡◌, ◌++◌, ◌∷◌, [], IfSome, None, Some, true};
ghost use Rattle.domain_tests.specs.JobRun.{IsPlayed, exchanged, own_steps};
ghost use Rattle.orc_core.specs.Machine.{LeavesRoom, is_allowed, step};
ghost use Rattle.orc_machine_board.specs.{
  Kinds.{MakesPlain, MayDo},
  Licences.{MoveAllowed},
  Rules.{does, is_enroll},
  Views.{Belongs, board_bounds, board_numbers, shows},
};

use orc_core::{Op, State, allowed, apply};
use orc_heap::Discipline;
use orc_machine_board::{MachineBoard, MachineBoardPass};
use orc_words::{RowLink, Word};

// Tests whether the machine allows the op, and has room for what it leaves.
pub fn may_make<D: Discipline>(
    board: &MachineBoard<D>,
    p: &MachineBoardPass<D>,
    state: &State,
    op: &Op,
) -> bool
    requires played { IsPlayed board.now p.now state.now }
    ensures may { result ≡ true → MayDo (board_bounds board.now) (shows p.now) op.now }
    ensures allowed { result ≡ true → is_allowed state.now 0 op.now ≡ true }
    ensures room { result ≡ true → LeavesRoom state.now 0 op.now }
{
    if is_enroll(op) {
        return false;
    }
    if !state.has_room(0) {
        return false;
    }
    allowed(state, 0, op)
}

// Whether the op is an enrolment.
fn is_enroll(op: &Op) -> bool
    ensures { result ≡ is_enroll op.now }
{
    match op {
        Op::Enroll => true,
        _ => false,
    }
}

// Makes an allowed step on the machine.
pub fn follow(state: &mut State, op: &Op)
    requires allowed { is_allowed state.old 0 op.now ≡ true }
    requires room { LeavesRoom state.old 0 op.now }
    ensures { state.new ≡ step state.old 0 op.now }
{
    let Ok(_) = apply(state, 0, op) else {
        unreachable!()
    };
}

// Makes an allowed step on the board, if its kind changes no link.
fn make_allowed<D: Discipline>(
    board: &MachineBoard<D>,
    p: &mut MachineBoardPass<D>,
    op: Op,
) -> Option<u64>
    requires belongs { Belongs board.now p.old }
    requires allowed { MayDo (board_bounds board.now) (shows p.old) op }
    ensures belongs { Belongs board.now p.new }
    ensures made { IfSome result (λ n. MakesPlain (board_bounds board.now) op (shows p.old) n (shows p.new)) }
    ensures none { result ≡ None → p.new ≡ p.old }
{
    match op {
        Op::Enroll | Op::LinkCas { .. } | Op::LinkStore { .. } => None,
        Op::GateLook { row } => Some(board.gate_look(p, row)),
        Op::GateTake { row } => Some(board.gate_take(p, row)),
        Op::Fill { row, which, value } => Some(board.fill(p, row, which, value)),
        Op::Read { row, which } => Some(board.read(p, row, which)),
        Op::LinkLoad { place, slot } => Some(board.link_load(p, place, slot, None, None)),
        Op::Publish { slot, row } => Some(board.publish(p, slot, row)),
        Op::Clear { slot } => Some(board.clear(p, slot)),
        Op::Arm { row } => Some(board.arm(p, row)),
        Op::Inc { row } => Some(board.inc(p, row)),
        Op::Dec { row } => Some(board.dec(p, row)),
        Op::SetRetired { row, sequence } => Some(board.set_retired(p, row, sequence)),
        Op::CounterLoad { row, how } => Some(board.counter_load(p, row, how)),
        Op::Unretire { row } => Some(board.unretire(p, row)),
        Op::SlotLook { k } => Some(board.slot_look(p, k)),
        Op::Hand { k } => Some(board.hand(p, k)),
        Op::TakeIn { slot } => Some(board.take_in(p, slot)),
        Op::Free { row } => Some(board.free(p, row)),
        Op::MoveOn { slot, row } => Some(board.move_on(p, slot, row)),
        Op::HandoverLook { slot } => Some(board.handover_look(p, slot)),
        Op::DecHeld { row } => Some(board.dec_held(p, row)),
    }
}

// Makes a step that changes no link, where the machine allows it.
pub fn make_plain<D: Discipline>(
    board: &MachineBoard<D>,
    p: &mut MachineBoardPass<D>,
    state: &mut State,
    op: Op,
) -> Option<u64>
    requires played { IsPlayed board.now p.old state.old }
    ensures played { IsPlayed board.now p.new state.new }
    ensures made { IfSome result (λ n. MakesPlain (board_bounds board.now) op (shows p.old) n (shows p.new)) }
{
    if !may_make(board, p, state, &op) {
        return None;
    }
    let made = make_allowed(board, p, op)?;
    board.seen_by(p);
    follow(state, &op);
    Some(made)
}

// Makes a step that exchanges no link, where the machine allows it; of a row that isn't fresh, it takes the link out.
pub fn make_one<D: Discipline>(
    board: &MachineBoard<D>,
    p: &mut MachineBoardPass<D>,
    state: &mut State,
    op: Op,
) -> Option<u64>
    requires played { IsPlayed board.now p.old state.old }
    ensures played { IsPlayed board.now p.new state.new }
{
    if let Op::LinkStore { row, number, link } = op {
        if link.mark || p.kept().is_fresh(row) || !may_make(board, p, state, &op) {
            return None;
        }
        let old = board.link_store(p, row, number, link);
        board.seen_by(p);
        follow(state, &op);
        return Some(old);
    }
    make_plain(board, p, state, op)
}

// Makes a step that changes no link, where the machine allows it.
pub fn step<D: Discipline>(
    board: &MachineBoard<D>,
    p: &mut MachineBoardPass<D>,
    state: &mut State,
    op: Op,
) -> Option<u64>
    requires played { IsPlayed board.now p.old state.old }
    ensures played { IsPlayed board.now p.new state.new }
    ensures journal { IfSome result (λ _. (shows p.new).journal ≡ (shows p.old).journal ++ does 0 op None ∷ []) }
{
    let made = make_plain(board, p, state, op);
    board.seen_by(p);
    made
}

// Makes these steps, up to one that the machine doesn't allow, and tells whether it allows all.
pub fn steps<D: Discipline>(
    board: &MachineBoard<D>,
    p: &mut MachineBoardPass<D>,
    state: &mut State,
    ops: &[Op],
) -> bool
    requires played { IsPlayed board.now p.old state.old }
    ensures played { IsPlayed board.now p.new state.new }
    ensures journal { result ≡ true → (shows p.new).journal ≡ (shows p.old).journal ++ own_steps ops.now }
{
    for op in ops {
        if step(board, p, state, *op).is_none() {
            return false;
        }
    }
    true
}

// Exchanges a link, where the machine allows it, and tells whether it does.
pub fn exchange<D: Discipline>(
    board: &MachineBoard<D>,
    p: &mut MachineBoardPass<D>,
    state: &mut State,
    place: Word,
    from: RowLink,
    to: RowLink,
    note: D::Note,
) -> bool
    requires played { IsPlayed board.now p.old state.old }
    requires licensed { MoveAllowed (D.may (board_numbers board.now)) (board_bounds board.now) (shows p.old) place from to (Some note) }
    ensures played { IsPlayed board.now p.new state.new }
    ensures journal { result ≡ true → (shows p.new).journal ≡ (shows p.old).journal ++ exchanged place from to note ∷ [] }
{
    let op = Op::LinkCas { place, from, to };
    if !may_make(board, p, state, &op) {
        return false;
    }
    board.link_cas(p, place, from, to, Some(note));
    board.seen_by(p);
    follow(state, &op);
    true
}

// Makes these steps, and tells whether the machine allows all.
pub fn make_ones<D: Discipline>(
    board: &MachineBoard<D>,
    p: &mut MachineBoardPass<D>,
    state: &mut State,
    ops: &[Op],
) -> bool
    requires played { IsPlayed board.now p.old state.old }
    ensures played { IsPlayed board.now p.new state.new }
{
    let mut all = true;
    for op in ops {
        all &= make_one(board, p, state, *op).is_some();
    }
    all
}
