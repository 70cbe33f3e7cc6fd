//! The words of a new table.

ghost use Rattle.std.specs.Prelude.{◌≡◌, IfOk, length, slice_index};
ghost use Rattle.orc_words.specs.{
  declared.place.Word.{Word},
  Bounds.{Bounds, bounds_of},
  NewWords.{first_word, is_counter_place, new_word, new_words},
  Places.{IsWithin, place, places},
};

use crate::packed::NEW_COUNTER;
use crate::shape::Shape;
use orc_fault::NoMemory;
use std::alloc::Global;

/// The words of a new table, each at its place: every counter that of a new row, and every other word 0.
///
/// # Errors
///
/// `NoMemory` where memory is refused.
pub fn new_words(alloc: Global, shape: &Shape) -> Result<Vec<u64>, NoMemory>
    ensures words { IfOk result (λ words. words.items ≡ new_words (bounds_of shape.now)) }
    ensures long { IfOk result (λ words. length words.items ≡ places (bounds_of shape.now)) }
{
    let words = (0..shape.words())
        .map(|place| first_word(shape, place))
        .collect(alloc)?;
    Ok(words)
}

// Whether the place, counted from the first row's first word, is a counter's.
fn is_counter_place(shape: &Shape, place: u32) -> bool
    ensures { result ≡ is_counter_place (bounds_of shape.now) place }
{
    if shape.links() > 1 {
        place % 6 == 1
    } else {
        place % 5 == 1
    }
}

// What the word at a place holds at first.
fn first_word(shape: &Shape, place: u32) -> u64
    ensures { result ≡ first_word (bounds_of shape.now) place }
{
    let first_row = 1 + shape.roots();
    let first_agent = first_row + shape.words_of_rows(shape.rows());
    if first_row <= place && place < first_agent && is_counter_place(shape, place - first_row) {
        NEW_COUNTER
    } else {
        0
    }
}

/// A new table of any size has a word at each place, and each word there is what that word holds at first.
pub fn a_new_table_has_each_word()
    ensures long { (b : Bounds) → length (new_words b) ≡ places b }
    ensures each { (b : Bounds) (w : Word) → IsWithin b w → slice_index (new_words b) (place b w) ≡ new_word w }
{}
