//! The retired rows that wait for an agent.

ghost use Rattle.std.specs.Prelude.{◌≡◌, ◌<◌, ◌≤◌, ◌==◌, [], IfOk, length, slice_get};
ghost use Rattle.std.specs.List.{count_by};
ghost use Rattle.orc_core.specs.Listed.{first_is, listed_more, listed_rest};

use orc_fault::NoMemory;
use std::alloc::Global;
use std::collections::VecDeque;
use std::marker::Model;

/// A list of rows, oldest first, with room that was taken when it was made.
#[derive(Drop)]
pub struct WorkList {
    rows: VecDeque<u32>,
    room: u32,
}

impl Model for WorkList {
    ghost use Rattle.std.specs.Prelude.{◌≤◌, length};
    ghost use Rattle.std.specs.VecDeque.{deque_capacity};
    ghost use Rattle.orc_core.specs.Listed.{Listed};

    ghost Value = { Listed };

    ghost view = { λ a. record { items = a.rows.items; room = a.room } };

    ghost invariant = { λ a. (length a.rows.items ≤ a.room) × (a.room ≤ deque_capacity a.rows) };
}

impl WorkList {
    /// The empty list, with memory for `room` rows.
    pub fn new(alloc: Global, room: u32) -> Result<WorkList, NoMemory>
        ensures { IfOk result (λ list. list ≡ record { items = []; room = room }) }
    {
        let rows = VecDeque::with_capacity(alloc, room as usize)?;
        Ok(WorkList { rows, room })
    }

    /// How many rows are listed.
    pub fn len(&self) -> usize
        ensures length { result ≡ length self.now.items }
        ensures room { result ≤ self.now.room }
    {
        self.rows.len()
    }

    /// The oldest entry, if there is one.
    pub fn first(&self) -> Option<u32>
        ensures { result ≡ slice_get self.now.items 0 }
    {
        self.rows.front().copied()
    }

    /// Whether the oldest entry is this row.
    pub fn first_is(&self, row: u32) -> bool
        ensures { result ≡ first_is self.now.items row }
    {
        match self.rows.front() {
            None => false,
            Some(first) => *first == row,
        }
    }

    /// How many entries are this row.
    pub fn count_of(&self, row: u32) -> usize
        ensures { result ≡ count_by (λ q. q == row) self.now.items }
    {
        self.rows.iter().filter(|entry| **entry == row).count()
    }

    /// Appends a row, and takes no memory.
    pub fn push(&mut self, row: u32)
        requires { length self.old.items < self.old.room }
        ensures { self.new ≡ listed_more self.old row }
    {
        self.rows.push_back_reserved(row);
    }

    /// Takes the oldest row out, if there is one.
    pub fn leave_first(&mut self)
        ensures { self.new ≡ listed_rest self.old }
    {
        let _ = self.rows.pop_front();
    }
}
