//! The words of a table, and the place of each.

ghost use Rattle.std.specs.Prelude.{◌≡◌, ◌<◌};
ghost use Rattle.orc_words.specs.{declared.place.Word.{Word}, Bounds.{Bounds, bounds_of}, Places.{IsWithin, link_at, place, places}};

use crate::Shape;

/// A word of the table: by its root, by its row, or by its agent and slot.
#[derive(Clone, Copy)]
pub enum Word {
    /// How many agents have enrolled.
    Enrolled,
    /// A root's link.
    Root(u32),
    /// A row's gate word.
    Gate(u32),
    /// A row's counter word.
    Counter(u32),
    /// A row's first value.
    First(u32),
    /// A row's second value.
    Second(u32),
    /// A row's first link.
    Next(u32),
    /// A row's second link, which it has in a shape with two.
    Side(u32),
    /// The row that an agent's slot, from 0 to 7, names.
    Slot(u32, u32),
    /// The row that was handed over beside such a slot.
    Handover(u32, u32),
}

/// A row's link word by its number: 0 is its first link, and 1 its second.
#[inline(always)]
pub fn link_of_row(number: u32, row: u32) -> Word
    ensures { result ≡ link_at number row }
{
    if number == 0 {
        Word::Next(row)
    } else {
        Word::Side(row)
    }
}

/// The place of a word in the table, from 0.
pub fn place_of(shape: &Shape, word: Word) -> usize
    requires { IsWithin (bounds_of shape.now) word }
    ensures place { result ≡ place (bounds_of shape.now) word }
    ensures inside { result < places (bounds_of shape.now) }
    ensures apart { (other : Word) → IsWithin (bounds_of shape.now) other
        → place (bounds_of shape.now) other ≡ result → other ≡ word }
{
    let first_row = 1 + shape.roots() as usize;
    let first_agent = first_row + shape.words_of_rows(shape.rows()) as usize;
    match word {
        Word::Enrolled => 0,
        Word::Root(root) => 1 + root as usize,
        Word::Gate(row) => first_row + shape.words_of_rows(row) as usize,
        Word::Counter(row) => first_row + shape.words_of_rows(row) as usize + 1,
        Word::First(row) => first_row + shape.words_of_rows(row) as usize + 2,
        Word::Second(row) => first_row + shape.words_of_rows(row) as usize + 3,
        Word::Next(row) => first_row + shape.words_of_rows(row) as usize + 4,
        Word::Side(row) => first_row + shape.words_of_rows(row) as usize + 5,
        Word::Slot(agent, slot) => first_agent + 16 * agent as usize + slot as usize,
        Word::Handover(agent, slot) => first_agent + 16 * agent as usize + 8 + slot as usize,
    }
}

/// In a table of any size, different words have different places, and each place is one of the table's.
pub fn different_words_have_different_places()
    ensures apart { (b : Bounds) (v w : Word) → IsWithin b v → IsWithin b w → place b v ≡ place b w → v ≡ w }
    ensures inside { (b : Bounds) (w : Word) → IsWithin b w → place b w < places b }
{}
