//! The words that are left once no agent shares them.

ghost use Rattle.std.specs.Slots.{IsFull, slots_items, slots_len};
ghost use Rattle.std.specs.Prelude.{◌≡◌, ◌<◌, List, length, slice_index, ℕ};

use atomic_table::Closed;
use std::alloc::Global;
use std::marker::Model;

/// Words that no agent shares any more.
pub struct LastWords {
    closed: Closed<(), Global>,
    ghost full: { IsFull closed.words },
    ghost no_slots: { slots_len closed.slots ≡ 0 },
}

impl Model for LastWords {
    ghost Value = { List ℕ };

    ghost view = { λ w. slots_items w.closed.words };
}

impl LastWords {
    pub(crate) fn new(closed: Closed<(), Global>) -> LastWords
        requires full { IsFull closed.words }
        requires no_slots { slots_len closed.slots ≡ 0 }
        ensures { result ≡ slots_items closed.words }
    {
        LastWords { closed }
    }

    /// The word at an index of the table.
    pub fn word(&self, index: usize) -> u64
        requires { index < length self.now }
        ensures { result ≡ slice_index self.now index }
    {
        self.closed.word(index)
    }
}

impl Drop for LastWords {
    fn drop(self) {
        let LastWords { closed } = self;
        closed.free();
    }
}
