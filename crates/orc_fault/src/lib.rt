//! The plain fault values that several crates answer.
#![tactic(auto)]

use std::alloc::{AllocError, AllocFailed};

/// Memory was refused. No other cause stands behind this value.
#[derive(Clone, Copy, Debug, PartialEq, Eq, Drop)]
pub struct NoMemory;

impl From<AllocError> for NoMemory {
    fn from(_refused: AllocError) -> NoMemory {
        NoMemory
    }
}

impl<T: Drop> From<AllocFailed<T>> for NoMemory {
    fn from(_refused: AllocFailed<T>) -> NoMemory {
        NoMemory
    }
}

/// A container has no room for a further node.
#[derive(Clone, Copy, Debug, PartialEq, Eq, Drop)]
pub struct NoNode;

/// A call has used up its turns; the same call may be made again.
#[derive(Clone, Copy, Debug, PartialEq, Eq, Drop)]
pub struct Again;

/// A read or a write failed and moved no byte.
#[derive(Clone, Copy, Debug, PartialEq, Eq, Drop)]
pub struct Failed;

/// A row can take no further link: its sequence, as it was read, is at its limit.
#[derive(Clone, Copy, Debug, PartialEq, Eq, Drop)]
pub struct Spent {
    /// The row of the node that was to be linked.
    pub row: u32,
    /// Its sequence, as it was read.
    pub sequence: u64,
}
