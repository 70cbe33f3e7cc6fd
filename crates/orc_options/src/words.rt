//! The words of a command line.
ghost use Rattle.std.specs.Prelude.{◌≡◌, ◌++◌, ◌∷◌, [], OnErr, OnOk, map};
ghost use Rattle.std.specs.String.{string_bytes};

use orc_fault::NoMemory;
use std::alloc::Global;
use std::marker::Model;

/// The words of a command line without the program's name, each in UTF-8.
#[derive(Drop)]
pub struct CommandWords {
    words: Vec<String>,
}

impl Model for CommandWords {
    ghost use Rattle.std.specs.Prelude.{List, map, ℕ};
    ghost use Rattle.std.specs.String.{string_bytes};

    ghost Value = { List (List ℕ) };

    ghost view = { λ c. map string_bytes c.words.items };
}

impl CommandWords {
    /// No words.
    pub fn new(alloc: Global) -> CommandWords
        ensures { result ≡ [] }
    {
        CommandWords {
            words: Vec::new(alloc),
        }
    }

    /// Appends a word, or changes nothing.
    pub fn push(&mut self, word: &str) -> Result<(), NoMemory>
        ensures ok { OnOk result (self.new ≡ self.old ++ word.now ∷ []) }
        ensures err { OnErr result (self.new ≡ self.old) }
    {
        let word = String::from_str(*self.words.allocator(), word)?;
        self.words.push(word)?;
        Ok(())
    }

    /// The words in their order.
    pub fn words(&self) -> &[String]
        ensures { map string_bytes result.now ≡ self.now }
    {
        self.words.as_slice()
    }
}
