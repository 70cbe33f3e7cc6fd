//! How the turns of an insert end.

use orc_fault::Spent;

/// How a turn of an insert ended.
#[derive(Clone, Copy)]
pub enum InsertTurn {
    /// With no answer.
    Over,
    /// With this answer, after a search that went past so many nodes which it counts, up to 9.
    Answered(bool, u32),
    /// No node could be had.
    NoNode,
    /// A row that was to be linked is used up.
    Spent(Spent),
}
