//! The first part of a step: the word that a kind works on, and what it does there.

ghost use Rattle.std.specs.Prelude.{◌≡◌, ◌<◌, ◌^◌, cond, ◌==◌};
ghost use Rattle.orc_core.specs.Actions.{IsPackable, action_of, clear_word};

use crate::ops::Op;
use crate::parts::{SEQUENCE, scanned};
use crate::records::Agent;
use orc_words::{
    DECREMENT, INCREMENT, NEW_COUNTER, Operation, RETIRED, Word, link_of_row, pack_link,
};

/// A word, and what is done to it.
#[derive(Clone, Copy)]
pub struct Action {
    pub word: Word,
    pub operation: Operation,
}

impl Action {
    fn new(word: Word, operation: Operation) -> Action
        ensures { result ≡ record { word = word; operation = operation } }
    {
        Action { word, operation }
    }
}

// The counter word with count 0, no retired bit and this sequence.
#[inline(always)]
pub(crate) fn clear_word(sequence: u64) -> u64
    requires { sequence < 2 ^ 40 }
    ensures { result ≡ clear_word sequence }
{
    sequence * SEQUENCE + NEW_COUNTER
}

// The first or the second value of a row.
#[inline(always)]
fn value_word(row: u32, which: u32) -> Word
    ensures { result ≡ cond (which == 0) (Word.First row) (Word.Second row) }
{
    if which == 0 {
        Word::First(row)
    } else {
        Word::Second(row)
    }
}

/// What the agent of this number does by a step of this kind.
#[inline(always)]
pub fn action_of(number: u32, op: &Op, agent: &Agent) -> Action
    requires { IsPackable op.now agent.now }
    ensures { result ≡ action_of number op.now agent.now }
{
    use Operation::{Add, CompareExchange, Load, Store, Sub, Swap};
    match op {
        Op::Enroll => Action::new(Word::Enrolled, Add(1)),
        Op::GateLook { row } => Action::new(Word::Gate(*row), Load),
        Op::GateTake { row } => {
            let life = agent.life_seen();
            Action::new(
                Word::Gate(*row),
                CompareExchange(2 * life, 2 * (life + 1) + 1),
            )
        }
        Op::Fill { row, which, value } => Action::new(value_word(*row, *which), Store(*value)),
        Op::Read { row, which } => Action::new(value_word(*row, *which), Load),
        Op::LinkLoad { place, .. } => Action::new(*place, Load),
        Op::Publish { slot, row } => {
            Action::new(Word::Slot(number, *slot), Store(u64::from(*row) + 1))
        }
        Op::Clear { slot } => Action::new(Word::Slot(number, *slot), Store(0)),
        Op::Arm { row } => Action::new(Word::Slot(number, 0), Store(u64::from(*row) + 1)),
        Op::LinkCas { place, from, to } => {
            Action::new(*place, CompareExchange(pack_link(*from), pack_link(*to)))
        }
        Op::LinkStore { row, number, link } => {
            Action::new(link_of_row(*number, *row), Swap(pack_link(*link)))
        }
        Op::Inc { row } => Action::new(Word::Counter(*row), Add(INCREMENT)),
        Op::Dec { row } => Action::new(Word::Counter(*row), Add(DECREMENT)),
        Op::SetRetired { row, sequence } => {
            let clear = clear_word(*sequence);
            Action::new(Word::Counter(*row), CompareExchange(clear, clear + RETIRED))
        }
        Op::CounterLoad { row, .. } => Action::new(Word::Counter(*row), Load),
        Op::Unretire { row } => Action::new(Word::Counter(*row), Sub(RETIRED)),
        Op::SlotLook { k } => Action::new(Word::Slot(*k / 8, *k % 8), Load),
        Op::Hand { k } => {
            let name = u64::from(scanned(agent.scan)) + 1;
            Action::new(Word::Handover(*k / 8, *k % 8), Swap(name))
        }
        Op::TakeIn { slot } => Action::new(Word::Handover(number, *slot), Swap(0)),
        Op::Free { row } => Action::new(Word::Gate(*row), Sub(1)),
        Op::MoveOn { slot, row } => {
            Action::new(Word::Slot(number, *slot), Store(u64::from(*row) + 1))
        }
        Op::HandoverLook { slot } => Action::new(Word::Handover(number, *slot), Load),
        Op::DecHeld { row } => Action::new(Word::Counter(*row), Add(DECREMENT)),
    }
}
