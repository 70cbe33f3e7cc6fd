//! Where a step is allowed.

ghost use Rattle.std.specs.Prelude.{◌≡◌, ◌&&◌, ◌||◌, not};
ghost use Rattle.orc_words.specs.Bounds.{bounds_of};
ghost use Rattle.orc_core.specs.{
  RecordParts.{any_holds, names},
  Allowed.{arms_or_decrements, fits, forced, increments, may, may_change, may_place, may_target, stands, tries_bit},
};

use crate::ops::{CounterUse, Op};
use crate::parts::{doom_at, doom_cut, names, scan_at, scan_empty, scan_found};
use crate::records::Agent;
use orc_words::{RowLink, Shape, Word};

// How many sequences a retirement may name: 2^40.
const SEQUENCE_RANGE: u64 = 1_099_511_627_776;

fn tries_bit(op: &Op, row: u32, sequence: u64) -> bool
    ensures { result ≡ tries_bit op.now row sequence }
{
    match op {
        Op::SetRetired {
            row: tried,
            sequence: at,
        } => *tried == row && *at == sequence,
        _ => false,
    }
}

fn increments(op: &Op, row: u32) -> bool
    ensures { result ≡ increments op.now row }
{
    match op {
        Op::Inc { row: counted } => *counted == row,
        _ => false,
    }
}

fn arms_or_decrements(op: &Op, row: u32) -> bool
    ensures { result ≡ arms_or_decrements op.now row }
{
    match op {
        Op::Arm { row: counted } | Op::Dec { row: counted } | Op::DecHeld { row: counted } => {
            *counted == row
        }
        _ => false,
    }
}

// Whether what must come first lets this step go: due, then inc, then dec.
fn forced(agent: &Agent, op: &Op) -> bool
    ensures { result ≡ forced agent.now op.now }
{
    match (agent.due, agent.inc, agent.dec) {
        (Some(due), _, _) => tries_bit(op, due.row, due.number),
        (None, Some(row), _) => increments(op, row),
        (None, None, Some(row)) => arms_or_decrements(op, row),
        (None, None, None) => true,
    }
}

fn may_target(shape: &Shape, agent: &Agent, to: Option<u32>) -> bool
    ensures { result ≡ may_target (bounds_of shape.now) agent.now to }
{
    match to {
        None => true,
        Some(row) => row < shape.rows() && agent.holds(row),
    }
}

fn may_change(agent: &Agent, limit: u64, from: Option<u32>, to: Option<u32>) -> bool
    ensures { result ≡ may_change agent.now limit from to }
{
    match to {
        None => true,
        Some(row) => names(from, row) || agent.has_checked_below(row, limit),
    }
}

// A root, or a link word of a row that the agent holds or has fresh.
fn may_read(shape: &Shape, agent: &Agent, place: Word) -> bool
    ensures { result ≡ may_place (bounds_of shape.now) place
        (λ r. any_holds agent.now.slots r || names agent.now.fresh r) }
{
    match place {
        Word::Root(root) => root < shape.roots(),
        Word::Next(row) => { row < shape.rows() && (agent.holds(row) || agent.is_fresh(row)) }
        Word::Side(row) => {
            row < shape.rows() && shape.links() > 1 && (agent.holds(row) || agent.is_fresh(row))
        }
        _ => false,
    }
}

// A root, or a link word of a row that the agent holds and that is not its fresh one.
fn may_write(shape: &Shape, agent: &Agent, place: Word) -> bool
    ensures { result ≡ may_place (bounds_of shape.now) place
        (λ r. any_holds agent.now.slots r && not (names agent.now.fresh r)) }
{
    match place {
        Word::Root(root) => root < shape.roots(),
        Word::Next(row) => { row < shape.rows() && (agent.holds(row) && !agent.is_fresh(row)) }
        Word::Side(row) => {
            row < shape.rows() && shape.links() > 1 && (agent.holds(row) && !agent.is_fresh(row))
        }
        _ => false,
    }
}

fn may_take(shape: &Shape, agent: &Agent, row: u32) -> bool
    ensures { result ≡ fits (bounds_of shape.now) 0 0 (Op.GateTake row) agent.now }
{
    row < shape.rows()
        && agent.fresh.is_none()
        && agent.has_looked_at(row)
        && agent.life_seen() < shape.limit()
        && agent.has_checked_below(row, shape.limit())
}

fn may_swing(shape: &Shape, agent: &Agent, place: Word, from: RowLink, to: RowLink) -> bool
    ensures { result ≡ fits (bounds_of shape.now) 0 0 (Op.LinkCas place from to) agent.now }
{
    may_write(shape, agent, place)
        && agent.slot(0).is_empty()
        && may_target(shape, agent, from.to)
        && may_target(shape, agent, to.to)
        && may_change(agent, shape.link_limit(), from.to, to.to)
}

fn may_store(shape: &Shape, agent: &Agent, row: u32, number: u32, link: RowLink) -> bool
    ensures { result ≡ fits (bounds_of shape.now) 0 0 (Op.LinkStore row link number) agent.now }
{
    row < shape.rows()
        && number < shape.links()
        && agent.slot(0).is_empty()
        && ((agent.is_fresh(row)
            && may_target(shape, agent, link.to)
            && may_change(agent, shape.link_limit(), None, link.to))
            || (doom_at(agent.doom, row, number) && link.to.is_none() && !link.mark))
}

fn may_count(shape: &Shape, agent: &Agent, row: u32, how: CounterUse) -> bool
    ensures { result ≡ fits (bounds_of shape.now) 0 0 (Op.CounterLoad row how) agent.now }
{
    match how {
        CounterUse::Check => row < shape.rows(),
        CounterUse::Start => {
            row < shape.rows()
                && agent.scan.is_none()
                && agent.doom.is_none()
                && (agent.has_in_hand(row) || (agent.hand.is_none() && agent.list.first_is(row)))
        }
        CounterUse::End => {
            row < shape.rows()
                && agent.scans(row)
                && scan_empty(agent.scan)
                && scan_at(agent.scan, 8 * shape.agents())
        }
    }
}

// From a slot that is used, and doesn't hold the fresh row.
fn may_move(shape: &Shape, agent: &Agent, slot: u32, row: u32) -> bool
    ensures { result ≡ fits (bounds_of shape.now) 0 0 (Op.MoveOn slot row) agent.now }
{
    0 < slot
        && slot < 8
        && row < shape.rows()
        && !agent.slot(slot).is_empty()
        && !agent.slot(slot).holds_fresh(agent.fresh)
}

// A row with a pending decrement that slot 0 holds.
fn may_decrement(shape: &Shape, agent: &Agent, row: u32) -> bool
    ensures { result ≡ fits (bounds_of shape.now) 0 0 (Op.Dec row) agent.now }
{
    row < shape.rows() && agent.has_decrement(row) && agent.slot(0).holds(row)
}

// A row with a pending decrement that some slot holds.
fn may_decrement_held(shape: &Shape, agent: &Agent, row: u32) -> bool
    ensures { result ≡ fits (bounds_of shape.now) 0 0 (Op.DecHeld row) agent.now }
{
    row < shape.rows() && agent.has_decrement(row) && agent.holds(row)
}

// Each kind's own condition.
fn fits(shape: &Shape, enrolled: u64, number: u32, op: &Op, agent: &Agent) -> bool
    ensures { result ≡ fits (bounds_of shape.now) enrolled number op.now agent.now }
{
    match op {
        Op::Enroll => !agent.enrolled && enrolled == u64::from(number),
        Op::GateLook { row } => *row < shape.rows(),
        Op::GateTake { row } => may_take(shape, agent, *row),
        Op::Fill { row, which, .. } => { *row < shape.rows() && *which < 2 && agent.is_fresh(*row) }
        Op::Read { row, which } => {
            *row < shape.rows() && *which < 2 && (agent.holds(*row) || agent.is_fresh(*row))
        }
        Op::LinkLoad { place, slot: None } => may_read(shape, agent, *place),
        Op::LinkLoad {
            place,
            slot: Some(slot),
        } => may_read(shape, agent, *place) && *slot < 8 && agent.slot(*slot).is_published(),
        Op::Publish { slot, row } => {
            0 < *slot && *slot < 8 && *row < shape.rows() && agent.slot(*slot).is_empty()
        }
        Op::Clear { slot } => {
            *slot < 8
                && !agent.slot(*slot).is_empty()
                && !agent.slot(*slot).holds_fresh(agent.fresh)
        }
        Op::Arm { row } => {
            *row < shape.rows()
                && agent.slot(0).is_empty()
                && (agent.has_decrement(*row) || (agent.scans(*row) && !scan_empty(agent.scan)))
        }
        Op::LinkCas { place, from, to } => may_swing(shape, agent, *place, *from, *to),
        Op::LinkStore { row, number, link } => may_store(shape, agent, *row, *number, *link),
        Op::Inc { row } => *row < shape.rows() && agent.has_increment(*row),
        Op::Dec { row } => may_decrement(shape, agent, *row),
        Op::SetRetired { row, sequence } => {
            *row < shape.rows()
                && *sequence < SEQUENCE_RANGE
                && (agent.has_due_at(*row, *sequence) || agent.is_fresh(*row))
        }
        Op::CounterLoad { row, how } => may_count(shape, agent, *row, *how),
        Op::Unretire { row } => {
            *row < shape.rows()
                && ((agent.scans(*row) && !scan_empty(agent.scan) && agent.slot(0).holds(*row))
                    || doom_cut(shape.links(), agent.doom, *row))
        }
        Op::SlotLook { k } => {
            *k < 8 * shape.agents()
                && scan_empty(agent.scan)
                && !scan_found(agent.scan)
                && scan_at(agent.scan, *k)
        }
        Op::Hand { k } => {
            *k < 8 * shape.agents() && scan_found(agent.scan) && scan_at(agent.scan, *k)
        }
        Op::TakeIn { slot } => *slot < 8 && agent.slot(*slot).is_empty(),
        Op::Free { row } => *row < shape.rows() && agent.has_bare_doom(*row),
        Op::MoveOn { slot, row } => may_move(shape, agent, *slot, *row),
        Op::HandoverLook { slot } => *slot < 8 && agent.slot(*slot).is_empty(),
        Op::DecHeld { row } => may_decrement_held(shape, agent, *row),
    }
}

// Every kind but Enroll needs an enrolled agent.
fn stands(op: &Op, agent: &Agent) -> bool
    ensures { result ≡ stands op.now agent.now }
{
    match op {
        Op::Enroll => true,
        _ => agent.enrolled,
    }
}

/// Whether the agent of this number may make the step, by its record and, for Enroll alone, by the word
/// of enrolments.
pub fn may_step(shape: &Shape, enrolled: u64, number: u32, op: &Op, agent: &Agent) -> bool
    ensures { result ≡ may (bounds_of shape.now) enrolled number op.now agent.now }
{
    number < shape.agents()
        && stands(op, agent)
        && forced(agent, op)
        && fits(shape, enrolled, number, op, agent)
}
