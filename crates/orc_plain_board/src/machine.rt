//! The machine of gates, values and links.

ghost use Rattle.std.specs.Prelude.{◌≡◌};
ghost use Rattle.orc_plain_board.specs.Machine.{value_word, word_of};

use crate::shape::PlainShape;
use orc_shared_words::{Machine, PlacedOperation};
use orc_words::{Operation, RowLink, Word, link_of_row, pack_link};

/// An operation of one agent on one word.
#[derive(Clone, Copy)]
pub enum PlainOp {
    /// Reads a row's gate.
    GateLook {
        row: u32,
    },
    /// Takes a row out, if it is free.
    GateTake {
        row: u32,
    },
    /// Writes a row's first (0) or second (1) value.
    Fill {
        row: u32,
        which: u32,
        value: u64,
    },
    /// Reads a row's first (0) or second (1) value.
    Read {
        row: u32,
        which: u32,
    },
    /// Reads a link word, and tells whether it is the wanted one, if one is wanted.
    LinkLoad {
        place: Word,
        want: Option<RowLink>,
    },
    /// Writes a link word that is `from`.
    LinkCas {
        place: Word,
        from: RowLink,
        to: RowLink,
    },
    /// Writes a row's first (0) or second (1) link word, without a mark, and reads what was there.
    LinkStore {
        row: u32,
        number: u32,
        to: Option<u32>,
    },
}

/// A step of a journal. No value of it is ever made: it stands in proofs.
pub struct PlainStep<N> {
    pub agent: u32,
    pub op: PlainOp,
    pub note: Option<N>,
}

/// The gate word of a row that is out, in its first life. A free row's is 0.
pub(crate) const OUT: u64 = 3;

// Names the word of a row's first (0) or second (1) value.
#[inline(always)]
fn value_word(row: u32, which: u32) -> Word
    ensures { result ≡ value_word row which }
{
    if which == 0 {
        Word::First(row)
    } else {
        Word::Second(row)
    }
}

// Names the word that the operation reads or writes.
#[inline(always)]
fn word_of(op: &PlainOp) -> Word
    ensures { result ≡ word_of op.now }
{
    match *op {
        PlainOp::GateLook { row } | PlainOp::GateTake { row } => Word::Gate(row),
        PlainOp::Fill {
            row,
            which,
            value: _,
        }
        | PlainOp::Read { row, which } => value_word(row, which),
        PlainOp::LinkLoad { place, want: _ } => place,
        PlainOp::LinkCas {
            place,
            from: _,
            to: _,
        } => place,
        PlainOp::LinkStore { row, number, to: _ } => link_of_row(number, row),
    }
}

/// Gates, values and links over shared words. No value of it is made.
pub struct Plain;

impl<N: Copy> Machine<N> for Plain {
    ghost use Rattle.orc_plain_board.specs.Rules.{heap_numbers, plain_obeys, plain_rules};

    type Shape = PlainShape<N>;

    type Op = PlainOp;

    type Step = PlainStep<N>;

    type Record = ();

    type Own = ();

    ghost tied = { λ d own. Unit {0} };

    ghost one_tie = { λ d own p q i. tt };

    ghost has_room = { λ k op own found. Unit {0} };

    ghost leaves_room = { λ k j a op lawful allowed. tt };

    ghost numbers = { heap_numbers };

    ghost rules = { plain_rules };

    ghost obeys = { plain_obeys };

    #[inline(always)]
    fn operation(shape: &PlainShape<N>, agent: u32, op: &PlainOp, own: &()) -> PlacedOperation {
        let index = shape.layout.word_index(&shape.shape, word_of(op));
        let operation = match *op {
            PlainOp::GateLook { row: _ } => Operation::Load,
            PlainOp::GateTake { row: _ } => Operation::CompareExchange(0, OUT),
            PlainOp::Fill {
                row: _,
                which: _,
                value,
            } => Operation::Store(value),
            PlainOp::Read { row: _, which: _ } => Operation::Load,
            PlainOp::LinkLoad { place: _, want: _ } => Operation::Load,
            PlainOp::LinkCas { place: _, from, to } => {
                Operation::CompareExchange(pack_link(from), pack_link(to))
            }
            PlainOp::LinkStore {
                row: _,
                number: _,
                to,
            } => Operation::Swap(pack_link(RowLink { to, mark: false })),
        };
        PlacedOperation { index, operation }
    }

    #[inline(always)]
    fn keep(shape: &PlainShape<N>, agent: u32, op: &PlainOp, own: &mut (), n: u64) {}
}
