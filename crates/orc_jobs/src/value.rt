ghost use Rattle.std.specs.Prelude.{◌≡◌, ◌==◌, ◌&&◌, ◌∷◌, ◌^◌, ◌<◌, ◌≤◌, [], ℕ, length, not};
ghost use Rattle.orc_jobs.specs.{GoodLines.{AreGood}, JobValue.{IsJobValue, word_count}};

use crate::number::sum_of;
use crate::{Job, Line};

/// What a line is worth: the bytes or the words of its text, the sum of its numbers, or nothing for
/// a drop.
pub fn job_value(line: &Line) -> u64
    requires { AreGood (line.now ∷ []) }
    ensures value { IsJobValue line.now result }
    ensures small { result < 2 ^ 60 }
    ensures only { (value : ℕ) → IsJobValue line.now value → value ≡ result }
{
    match line {
        Line::Post { op, text, .. } | Line::Rush { op, text, .. } => match op {
            Job::Bytes => text.len() as u64,
            Job::Words => words_in(text.bytes()),
            Job::Sum => sum_of(text.bytes()),
        },
        Line::Drop { .. } => 0,
    }
}

// How many words a text has, which spaces part.
fn words_in(text: &[u8]) -> u64
    ensures count { result ≡ word_count text.now }
    ensures few { result ≤ length text.now }
{
    let mut words = 0;
    let mut before = b' ';
    for byte in text {
        if begins_word(before, *byte) {
            words += 1;
        }
        before = *byte;
    }
    words
}

// Whether a word begins with this byte, where this one stands before it.
fn begins_word(before: u8, byte: u8) -> bool
    ensures { result ≡ not (byte == 32) && (before == 32) }
{
    byte != b' ' && before == b' '
}
