//! The kinds of step: twenty, and three that save steps.

use orc_words::{RowLink, Word};

/// What the load of a counter word is for.
#[derive(Clone, Copy)]
pub enum CounterUse {
    /// To read the sequence before a row is taken or linked.
    Check,
    /// To begin a scan.
    Start,
    /// To end a scan that found nothing.
    End,
}

/// A kind of step and its arguments. A place is a root or a link word of a row.
#[derive(Clone, Copy)]
pub enum Op {
    /// The agent takes its place in the run.
    Enroll,
    /// Reads a gate, to find a free row.
    GateLook {
        row: u32,
    },
    /// Takes a row that was seen free, by a compare_exchange of its gate.
    GateTake {
        row: u32,
    },
    /// Stores the first (0) or second (1) value of the fresh row.
    Fill {
        row: u32,
        which: u32,
        value: u64,
    },
    /// Reads the first (0) or second (1) value of a held or fresh row.
    Read {
        row: u32,
        which: u32,
    },
    /// Reads a link; a named slot becomes Held where the link still shows its row.
    LinkLoad {
        place: Word,
        slot: Option<u32>,
    },
    /// Names a row in a slot from 1 to 7.
    Publish {
        slot: u32,
        row: u32,
    },
    /// Empties a slot.
    Clear {
        slot: u32,
    },
    /// Protects, in slot 0, a row that is to be decremented or unretired.
    Arm {
        row: u32,
    },
    /// Changes a link by a compare_exchange.
    LinkCas {
        place: Word,
        from: RowLink,
        to: RowLink,
    },
    /// Swaps the first (0) or second (1) link of the fresh row, or takes out the next link of a row to be freed.
    LinkStore {
        row: u32,
        link: RowLink,
        number: u32,
    },
    /// Counts a link that was made.
    Inc {
        row: u32,
    },
    /// Counts a link that was taken out.
    Dec {
        row: u32,
    },
    /// Tries the retired bit of a row that was seen with count 0 at this sequence.
    SetRetired {
        row: u32,
        sequence: u64,
    },
    /// Reads a counter word.
    CounterLoad {
        row: u32,
        how: CounterUse,
    },
    /// Clears the retired bit.
    Unretire {
        row: u32,
    },
    /// Reads the slot at scan place `k`.
    SlotLook {
        k: u32,
    },
    /// Puts the scanned row into the handover word at scan place `k`.
    Hand {
        k: u32,
    },
    /// Empties the agent's own handover word beside a slot.
    TakeIn {
        slot: u32,
    },
    /// Gives a row back.
    Free {
        row: u32,
    },
    /// Names a row in a slot from 1 to 7 over the row that the slot names.
    MoveOn {
        slot: u32,
        row: u32,
    },
    /// Reads the agent's own handover word beside an empty slot.
    HandoverLook {
        slot: u32,
    },
    /// Counts a link that was taken out, to a row that some slot of the agent holds.
    DecHeld {
        row: u32,
    },
}
