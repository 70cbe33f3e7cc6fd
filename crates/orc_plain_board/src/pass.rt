//! The board and its passes.

ghost use Rattle.std.specs.Prelude.{◌≡◌};
ghost use Rattle.orc_layout.specs.Layout.{table_length};
ghost use Rattle.orc_words.specs.Bounds.{bounds_of};

use crate::machine::Plain;
use orc_heap::Discipline;
use orc_shared_words::{Machine, SharedPass, SharedWords};

/// A heap over shared words, for all agents.
#[derive(Drop)]
pub struct PlainBoard<D: Discipline> {
    pub(crate) words: SharedWords<Plain, D>,
    ghost sized: { words.table.shared.table_id.words ≡ table_length (bounds_of words.shape.shape) },
}

/// An agent's pass to a board.
#[derive(Drop)]
pub struct PlainBoardPass<D: Discipline>
where
    Plain: Machine<D::Note>,
{
    pub(crate) pass: SharedPass<Plain, D>,
    pub(crate) fresh: Option<u32>,
    pub(crate) looked: Option<u32>,
}
