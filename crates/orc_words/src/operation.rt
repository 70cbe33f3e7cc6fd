//! Operations on one word.

ghost use Rattle.std.specs.Prelude.{◌≡◌};
ghost use Rattle.orc_words.specs.Operations.{answer_of, word_after};

/// One atomic operation on a word.
#[derive(Clone, Copy)]
pub enum Operation {
    Load,
    Store(u64),
    Swap(u64),
    Add(u64),
    Sub(u64),
    /// Where the word is the first number, the second takes its place.
    CompareExchange(u64, u64),
}

impl Operation {
    /// The word after the operation. A sum and a difference wrap at 64 bits.
    pub fn word_after(&self, word: u64) -> u64
        ensures { result ≡ word_after self.now word }
    {
        match self {
            Operation::Load => word,
            Operation::Store(new) | Operation::Swap(new) => *new,
            Operation::Add(step) => word.wrapping_add(*step),
            Operation::Sub(step) => word.wrapping_sub(*step),
            Operation::CompareExchange(expected, new) => if word == *expected {
                *new
            } else {
                word
            },
        }
    }

    /// What the operation answers that found this word: the word, or what a store wrote, or 1 or 0 as a
    /// compare-and-exchange succeeded or not.
    #[inline(always)]
    pub fn answer(&self, word: u64) -> u64
        ensures { result ≡ answer_of self.now word }
    {
        match self {
            Operation::Store(new) => *new,
            Operation::Load | Operation::Swap(_) | Operation::Add(_) | Operation::Sub(_) => word,
            Operation::CompareExchange(expected, _) => u64::from(word == *expected),
        }
    }
}
