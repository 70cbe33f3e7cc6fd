//! What a journal is made of, and what a pass has seen of it. No value of these is made: they stand in proofs.

use std::collections::LinkedList;

/// A step of a journal, for a machine that has no step of its own.
pub struct JournalStep<O, N> {
    pub agent: u32,
    pub op: O,
    pub note: Option<N>,
}

/// What a seat knows: the steps that it has seen; the list that it took over from a note; its agent; the first
/// number that it may still hand out, and the record that it hands out with it; the agents whose passes it took in, and
/// what these had seen; its agent's record.
pub struct View<S, R> {
    pub seen: LinkedList<S>,
    pub kept: LinkedList<S>,
    pub agent: Option<u32>,
    pub free: Option<u32>,
    pub born: R,
    pub also: LinkedList<u32>,
    pub taken: LinkedList<LinkedList<S>>,
    pub own: R,
}
