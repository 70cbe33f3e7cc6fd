//! How a pass names nodes: by what it holds.

ghost use Rattle.std.specs.Prelude.{◌≡◌};

use std::marker::Model;

/// A node that a pass holds: the row that it lies in, and the slot that protects it. It must be spent by
/// `Links::release`.
pub struct Held {
    row: u32,
    slot: u32,
}

impl Model for Held {
    ghost use Rattle.orc_heap.specs.Slots.{Hold};

    ghost Value = { Hold };

    ghost view = { λ h. record { row = h.row; slot = h.slot } };
}

impl Held {
    /// Made by a domain, once the slot protects the row.
    pub fn new(row: u32, slot: u32) -> Held
        ensures { result ≡ record { row = row; slot = slot } }
    {
        Held { row, slot }
    }

    /// The row that the node lies in.
    pub fn row(&self) -> u32
        ensures { result ≡ self.now.row }
    {
        self.row
    }

    /// The slot that protects the row, 1 to 7.
    pub fn slot(&self) -> u32
        ensures { result ≡ self.now.slot }
    {
        self.slot
    }

    /// Ended by a domain, once the slot is free again.
    pub fn end(self) {
        let Held { row: _, slot: _ } = self;
    }
}

/// Where a link stands: at a root, or in a node that is held, as its first or its second link.
#[derive(Clone, Copy)]
pub enum At<'a> {
    Root(u32),
    Node(&'a Held),
    Side(&'a Held),
}

/// A link that a caller names, with its mark: null, or to a node that is held.
#[derive(Clone, Copy)]
pub enum Want<'a> {
    Null(bool),
    Node(&'a Held, bool),
}

/// What a look saw of a link.
#[derive(Clone, Copy)]
pub struct Seen {
    pub null: bool,
    pub mark: bool,
}

/// The answer of a look: null; or a link that was read twice alike, with its target, which is now held; or the link
/// moved in between.
///
/// What is read twice is the target's row. The first load is unprotected, so the row may be reused between the two: the
/// node that is held is the one that the second load found.
pub enum Looked {
    Stable(Seen, Option<Held>),
    Moved,
}

/// The answer of a look by which a hold may move on.
pub enum LookedOn {
    /// The link had no mark, and its target is held in place of the node that was given up.
    On(Held),
    /// The node is held as before, and the look found this.
    Stays(Held, Looked),
    /// The link moved between the two loads, and the node is held no more.
    Moved,
}
