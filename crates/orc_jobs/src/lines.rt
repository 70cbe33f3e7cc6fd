ghost use Rattle.std.specs.Prelude.{◌≡◌, ◌<◌, ◌++◌, ◌∷◌, [], OnErr, OnOk, length, slice_get, Some};

use crate::Line;
use orc_fault::NoMemory;
use std::alloc::Global;
use std::marker::Model;

/// The most bytes of a job file.
pub const MOST_BYTES: usize = 16_777_216;

/// A list of lines.
#[derive(Drop)]
pub struct LineList<L> {
    items: Vec<L>,
}

/// The lines of a job file.
pub type Lines = LineList<Line>;

impl<L> Model for LineList<L> {
    ghost use Rattle.std.specs.Prelude.{List};

    ghost Value = { List L };

    ghost view = { λ t. t.items.items };
}

impl<L: Drop> LineList<L> {
    /// No line; it takes no memory.
    pub fn new(alloc: Global) -> Self
        ensures { result ≡ [] }
    {
        LineList {
            items: Vec::new(alloc),
        }
    }

    /// Appends a line, or changes nothing.
    pub fn push(&mut self, item: L) -> Result<(), NoMemory>
        ensures ok { OnOk result (self.new ≡ self.old ++ item ∷ []) }
        ensures err { OnErr result (self.new ≡ self.old) }
    {
        self.items.push(item)?;
        Ok(())
    }
}

impl<L> LineList<L> {
    /// How many lines it has.
    pub fn len(&self) -> usize
        ensures { result ≡ length self.now }
    {
        self.items.len()
    }

    /// The line at a place, from 0.
    pub fn get(&self, index: usize) -> &L
        requires { index < length self.now }
        ensures { slice_get self.now index ≡ Some result.now }
    {
        &self.items[index]
    }
}
