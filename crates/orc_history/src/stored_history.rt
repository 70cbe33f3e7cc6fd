//! The stored history of a container on one thread. All its memory is taken when the container is made.
ghost use Rattle.std.specs.Prelude.{◌≡◌, ◌≤◌, [], length, IfOk, MatchBool, vec_capacity};
ghost use Rattle.orc_history.specs.StoredHistory.{history_room, HasTurn, LacksTurn};

use orc_fault::NoMemory;
use std::alloc::Global;

// Makes a history with no entry, and with memory for as many as a container of this room stores.
pub(crate) fn new_history<E>(alloc: Global, room: u32) -> Result<Vec<E>, NoMemory>
    ensures empty { IfOk result (λ history. history.items ≡ []) }
    ensures reserved { IfOk result (λ history. history_room room ≤ vec_capacity history) }
{
    Ok(Vec::with_capacity(alloc, history_room(room))?)
}

// Answers whether a call with these turns may go on: some are given, and the history takes one more entry.
pub(crate) fn has_turn(room: u32, turns: u64, entries: usize) -> bool
    ensures { MatchBool result (HasTurn room turns entries) (LacksTurn room turns entries) }
{
    turns > 0 && entries < history_room(room)
}

// Answers how many entries a container of this room stores.
fn history_room(room: u32) -> usize
    ensures { result ≡ history_room room }
{
    4 * room as usize + 4
}
