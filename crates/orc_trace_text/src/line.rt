//! The line of a step.

ghost use Rattle.std.specs.Prelude.{◌≡◌, ◌≢◌, ℕ, List, IfNone, IfSome};
ghost use Rattle.std.specs.Option.{option_copied};
ghost use Rattle.orc_words.specs.Bounds.{bounds_of};
ghost use Rattle.orc_core.specs.declared.ops.Op.{Op};
ghost use Rattle.orc_trace_text.specs.{Reading.{Spells, words_left}, FirstLines.{HasStepLine}, TraceText.{IsReadable, step_line}};

use crate::argument::{number_below, one_number, read_link, read_place, row_and_link, two_numbers};
use crate::cut::{cut, first_word, three_words, two_words};
use crate::kind::{StepKind, kind_of};
use orc_core::{CounterUse, Op};
use orc_decimal::number_of;
use orc_words::Shape;

// A row, 0 or 1, and a value.
fn read_fill(shape: &Shape, left: Option<&[u8]>) -> Option<Op>
    ensures some { IfSome result (Spells (bounds_of shape.now) StepKind.Fill (words_left (option_copied left.entry))) }
    ensures none { IfNone result ((op : Op) → ¬ Spells (bounds_of shape.now) StepKind.Fill (words_left (option_copied left.entry)) op) }
{
    let (row, which, value) = three_words(left)?;
    let row = number_below(row, shape.rows())?;
    let which = number_below(which, 2)?;
    let value = number_of(value)?;
    Some(Op::Fill { row, which, value })
}

// A place, and a slot or none.
fn read_load(shape: &Shape, left: Option<&[u8]>) -> Option<Op>
    ensures some { IfSome result (Spells (bounds_of shape.now) StepKind.Load (words_left (option_copied left.entry))) }
    ensures none { IfNone result ((op : Op) → ¬ Spells (bounds_of shape.now) StepKind.Load (words_left (option_copied left.entry)) op) }
{
    let (place, left) = first_word(left)?;
    let place = read_place(shape, place)?;
    if left.is_none() {
        return Some(Op::LinkLoad { place, slot: None });
    }
    let slot = one_number(left, 8)?;
    Some(Op::LinkLoad {
        place,
        slot: Some(slot),
    })
}

// A place and two links.
fn read_cas(shape: &Shape, left: Option<&[u8]>) -> Option<Op>
    ensures some { IfSome result (Spells (bounds_of shape.now) StepKind.Cas (words_left (option_copied left.entry))) }
    ensures none { IfNone result ((op : Op) → ¬ Spells (bounds_of shape.now) StepKind.Cas (words_left (option_copied left.entry)) op) }
{
    let (place, from, to) = three_words(left)?;
    let place = read_place(shape, place)?;
    let from = read_link(shape, from)?;
    let to = read_link(shape, to)?;
    Some(Op::LinkCas { place, from, to })
}

// A row and its first link.
fn read_store(shape: &Shape, left: Option<&[u8]>) -> Option<Op>
    ensures some { IfSome result (Spells (bounds_of shape.now) StepKind.Store (words_left (option_copied left.entry))) }
    ensures none { IfNone result ((op : Op) → ¬ Spells (bounds_of shape.now) StepKind.Store (words_left (option_copied left.entry)) op) }
{
    let (row, link) = row_and_link(shape, left)?;
    Some(Op::LinkStore {
        row,
        number: 0,
        link,
    })
}

// A row and its second link, where it has one.
fn read_side(shape: &Shape, left: Option<&[u8]>) -> Option<Op>
    ensures some { IfSome result (Spells (bounds_of shape.now) StepKind.Side (words_left (option_copied left.entry))) }
    ensures none { IfNone result ((op : Op) → ¬ Spells (bounds_of shape.now) StepKind.Side (words_left (option_copied left.entry)) op) }
{
    if shape.links() < 2 {
        return None;
    }
    let (row, link) = row_and_link(shape, left)?;
    Some(Op::LinkStore {
        row,
        number: 1,
        link,
    })
}

// A row and a sequence.
fn read_set(shape: &Shape, left: Option<&[u8]>) -> Option<Op>
    ensures some { IfSome result (Spells (bounds_of shape.now) StepKind.Set (words_left (option_copied left.entry))) }
    ensures none { IfNone result ((op : Op) → ¬ Spells (bounds_of shape.now) StepKind.Set (words_left (option_copied left.entry)) op) }
{
    let (row, sequence) = two_words(left)?;
    let row = number_below(row, shape.rows())?;
    let sequence = number_of(sequence)?;
    Some(Op::SetRetired { row, sequence })
}

// A row, and 0 or 1.
fn read_value(shape: &Shape, left: Option<&[u8]>) -> Option<Op>
    ensures some { IfSome result (Spells (bounds_of shape.now) StepKind.Read (words_left (option_copied left.entry))) }
    ensures none { IfNone result ((op : Op) → ¬ Spells (bounds_of shape.now) StepKind.Read (words_left (option_copied left.entry)) op) }
{
    let (row, which) = two_numbers(left, shape.rows(), 2)?;
    Some(Op::Read { row, which })
}

// A slot and a row.
fn read_publish(shape: &Shape, left: Option<&[u8]>) -> Option<Op>
    ensures some { IfSome result (Spells (bounds_of shape.now) StepKind.Publish (words_left (option_copied left.entry))) }
    ensures none { IfNone result ((op : Op) → ¬ Spells (bounds_of shape.now) StepKind.Publish (words_left (option_copied left.entry)) op) }
{
    let (slot, row) = two_numbers(left, 8, shape.rows())?;
    Some(Op::Publish { slot, row })
}

// A slot and the row that it moves on to.
fn read_move(shape: &Shape, left: Option<&[u8]>) -> Option<Op>
    ensures some { IfSome result (Spells (bounds_of shape.now) StepKind.MoveOn (words_left (option_copied left.entry))) }
    ensures none { IfNone result ((op : Op) → ¬ Spells (bounds_of shape.now) StepKind.MoveOn (words_left (option_copied left.entry)) op) }
{
    let (slot, row) = two_numbers(left, 8, shape.rows())?;
    Some(Op::MoveOn { slot, row })
}

// The op of a kind, by the words that are left behind its own.
fn read_op(shape: &Shape, kind: StepKind, left: Option<&[u8]>) -> Option<Op>
    ensures some { IfSome result (Spells (bounds_of shape.now) kind (words_left (option_copied left.entry))) }
    ensures none { IfNone result ((op : Op) → ¬ Spells (bounds_of shape.now) kind (words_left (option_copied left.entry)) op) }
{
    match kind {
        StepKind::Enroll if left.is_none() => Some(Op::Enroll),
        StepKind::Enroll => None,
        StepKind::Look => Some(Op::GateLook {
            row: one_number(left, shape.rows())?,
        }),
        StepKind::Take => Some(Op::GateTake {
            row: one_number(left, shape.rows())?,
        }),
        StepKind::Fill => read_fill(shape, left),
        StepKind::Read => read_value(shape, left),
        StepKind::Load => read_load(shape, left),
        StepKind::Publish => read_publish(shape, left),
        StepKind::Clear => Some(Op::Clear {
            slot: one_number(left, 8)?,
        }),
        StepKind::Arm => Some(Op::Arm {
            row: one_number(left, shape.rows())?,
        }),
        StepKind::Cas => read_cas(shape, left),
        StepKind::Store => read_store(shape, left),
        StepKind::Side => read_side(shape, left),
        StepKind::Inc => Some(Op::Inc {
            row: one_number(left, shape.rows())?,
        }),
        StepKind::Dec => Some(Op::Dec {
            row: one_number(left, shape.rows())?,
        }),
        StepKind::Set => read_set(shape, left),
        StepKind::Count => Some(Op::CounterLoad {
            row: one_number(left, shape.rows())?,
            how: CounterUse::Check,
        }),
        StepKind::Start => Some(Op::CounterLoad {
            row: one_number(left, shape.rows())?,
            how: CounterUse::Start,
        }),
        StepKind::End => Some(Op::CounterLoad {
            row: one_number(left, shape.rows())?,
            how: CounterUse::End,
        }),
        StepKind::Unretire => Some(Op::Unretire {
            row: one_number(left, shape.rows())?,
        }),
        StepKind::Slot => Some(Op::SlotLook {
            k: one_number(left, 8 * shape.agents())?,
        }),
        StepKind::Hand => Some(Op::Hand {
            k: one_number(left, 8 * shape.agents())?,
        }),
        StepKind::TakeIn => Some(Op::TakeIn {
            slot: one_number(left, 8)?,
        }),
        StepKind::Free => Some(Op::Free {
            row: one_number(left, shape.rows())?,
        }),
        StepKind::MoveOn => read_move(shape, left),
        StepKind::Handover => Some(Op::HandoverLook {
            slot: one_number(left, 8)?,
        }),
        StepKind::DecHeld => Some(Op::DecHeld {
            row: one_number(left, shape.rows())?,
        }),
    }
}

// The agent and the op that a line spells.
fn step_of(shape: &Shape, line: &[u8]) -> Option<(u32, Op)>
    ensures some { IfSome result (λ step. IsReadable (bounds_of shape.now) step × (line.now ≡ step_line step.0 step.1)) }
    ensures none { IfNone result ((step : ℕ × Op) → IsReadable (bounds_of shape.now) step → line.now ≢ step_line step.0 step.1) }
{
    let (agent, left) = cut(line, b' ');
    let agent = number_below(agent, shape.agents())?;
    let (word, left) = first_word(left)?;
    let kind = kind_of(word)?;
    let op = read_op(shape, kind, left)?;
    Some((agent, op))
}

/// The agent and the op of the first of these lines, and the lines behind it.
pub fn first_step<'a>(shape: &Shape, lines: &'a [u8]) -> Option<(u32, Op, &'a [u8])>
    ensures some { IfSome result (λ found. HasStepLine (bounds_of shape.now) (found.0, found.1) found.2.now lines.now) }
    ensures none { IfNone result ((step : ℕ × Op) (rest : List ℕ) → ¬ HasStepLine (bounds_of shape.now) step rest lines.now) }
{
    let (line, rest) = cut(lines, b'\n');
    let rest = rest?;
    let (agent, op) = step_of(shape, line)?;
    Some((agent, op, rest))
}
