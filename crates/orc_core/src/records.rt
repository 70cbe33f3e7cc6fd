//! The record that each agent keeps beside the words.

ghost use Rattle.std.specs.Prelude.{◌≡◌, IfOk};

use crate::work_list::WorkList;
use orc_fault::NoMemory;
use std::alloc::Global;

/// What an agent's slot is used for.
#[derive(Clone, Copy, Debug, PartialEq, Eq)]
pub enum SlotUse {
    Empty,
    /// The row is named in the slot and not yet known to be linked.
    Published(u32),
    /// The row is protected.
    Held(u32),
}

/// A row, with a number that was read of it: its life or its sequence.
#[derive(Clone, Copy)]
pub struct Reading {
    pub row: u32,
    pub number: u64,
}

/// A pass over the slots, to find one that names the row.
#[derive(Clone, Copy, Debug, PartialEq, Eq)]
pub struct Scan {
    pub row: u32,
    /// The counter word as it was read when the scan began.
    pub word: u64,
    /// The next scan place, or the place at which the row was found.
    pub place: u32,
    pub found: bool,
}

/// A row that is to be freed.
#[derive(Clone, Copy)]
pub struct Doom {
    pub row: u32,
    /// How many of its links are out.
    pub cuts: u32,
    /// Its retired bit is clear.
    pub bare: bool,
}

/// The record of one agent. All its parts start empty.
#[derive(Drop)]
pub struct Agent {
    pub enrolled: bool,
    pub slots: [SlotUse; 8],
    /// A row that was taken and never linked.
    pub fresh: Option<u32>,
    /// A row, and the life in which it was seen free.
    pub looked: Option<Reading>,
    /// A row, and the sequence that was read of it.
    pub checked: Option<Reading>,
    /// The pending increment.
    pub inc: Option<u32>,
    /// The pending decrement.
    pub dec: Option<u32>,
    /// A row and a sequence: its retired bit must be tried.
    pub due: Option<Reading>,
    /// A retired row that came out of a handover word.
    pub hand: Option<u32>,
    pub scan: Option<Scan>,
    pub doom: Option<Doom>,
    /// The retired rows that wait, oldest first.
    pub list: WorkList,
}

impl Agent {
    ghost use Rattle.orc_core.specs.Machine.{nobody};

    /// The empty record, with room for so many rows in its work list.
    pub fn new(alloc: Global, room: u32) -> Result<Agent, NoMemory>
        ensures { IfOk result (λ agent. agent ≡ nobody room) }
    {
        let list = WorkList::new(alloc, room)?;
        Ok(Agent {
            enrolled: false,
            slots: [SlotUse::Empty; 8],
            fresh: None,
            looked: None,
            checked: None,
            inc: None,
            dec: None,
            due: None,
            hand: None,
            scan: None,
            doom: None,
            list,
        })
    }
}
