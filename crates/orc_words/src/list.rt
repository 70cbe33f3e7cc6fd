//! A list of numbers.

ghost use Rattle.std.specs.Prelude.{◌≡◌, ◌<◌, ◌++◌, ◌∷◌, [], List, ℕ, OnErr, OnOk, length, slice_index};

use orc_fault::NoMemory;
use std::alloc::Global;
use std::marker::Model;

/// A list of numbers of 64 bits.
#[derive(Drop)]
pub struct Words {
    items: Vec<u64>,
}

impl Model for Words {
    ghost use Rattle.std.specs.Prelude.{List, ℕ};

    ghost Value = { List ℕ };

    ghost view = { λ words. words.items.items };
}

impl Words {
    /// The empty list. It takes no memory.
    pub fn new(alloc: Global) -> Words
        ensures { result ≡ [] }
    {
        Words {
            items: Vec::new(alloc),
        }
    }

    /// Appends a number, or changes nothing.
    pub fn push(&mut self, item: u64) -> Result<(), NoMemory>
        ensures ok { OnOk result (self.new ≡ self.old ++ item ∷ []) }
        ensures err { OnErr result (self.new ≡ self.old) }
    {
        Ok(self.items.push(item)?)
    }

    /// How many numbers there are.
    pub fn len(&self) -> usize
        ensures { result ≡ length self.now }
    {
        self.items.len()
    }

    /// The number at a place, from 0.
    pub fn get(&self, index: usize) -> u64
        requires { index < length self.now }
        ensures { result ≡ slice_index self.now index }
    {
        self.items[index]
    }
}
