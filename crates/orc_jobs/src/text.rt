ghost use Rattle.std.specs.Prelude.{◌≡◌, ◌<◌, IfOk, length, slice_index};
ghost use Rattle.std.specs.String.{string_bytes};

use orc_fault::NoMemory;
use std::alloc::Global;
use std::marker::Model;

/// A list of bytes.
#[derive(Drop)]
pub struct Text {
    items: Vec<u8>,
}

impl Model for Text {
    ghost use Rattle.std.specs.Prelude.{List, ℕ};

    ghost Value = { List ℕ };

    ghost view = { λ t. t.items.items };
}

impl Text {
    /// A text of these bytes.
    ///
    /// # Errors
    ///
    /// `NoMemory` where memory is refused.
    pub fn from_slice(alloc: Global, bytes: &[u8]) -> Result<Text, NoMemory>
        ensures { IfOk result (λ t. t ≡ bytes.now) }
    {
        let items = Vec::from_slice(alloc, bytes)?;
        Ok(Text { items })
    }

    /// These bytes; it takes no memory.
    pub fn from_vec(items: Vec<u8>) -> Text
        ensures { result ≡ items.items }
    {
        Text { items }
    }

    /// The bytes of a string; it takes no memory.
    pub fn from_string(string: String) -> Text
        ensures { result ≡ string_bytes string }
    {
        Text {
            items: string.into_bytes(),
        }
    }

    /// How many bytes it has.
    pub fn len(&self) -> usize
        ensures { result ≡ length self.now }
    {
        self.items.len()
    }

    /// The byte at a place, from 0.
    pub fn get(&self, index: usize) -> u8
        requires { index < length self.now }
        ensures { result ≡ slice_index self.now index }
    {
        self.items[index]
    }

    /// All bytes.
    pub fn bytes(&self) -> &[u8]
        ensures { result.now ≡ self.now }
    {
        self.items.as_slice()
    }
}
