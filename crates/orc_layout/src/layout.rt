//! The index of each word of a table.

ghost use Rattle.std.specs.Prelude.{◌≡◌, ◌<◌, ◌≤◌, ◌*◌, ◌+◌, ◌%◌, ℕ};
ghost use Rattle.orc_words.specs.{
  Bounds.{Bounds, bounds_of},
  Places.{IsWithin, place, places},
  declared.place.Word.TheVariants.{Enrolled, Gate, Root, Slot},
};
ghost use Rattle.orc_layout.specs.Layout.{index, layout_of, table_length};

use orc_words::{Shape, Word};

// How many words a cache line has.
const LINE: usize = 8;

/// The first indices of the rows and of the agents of a table, which are worked out once.
#[derive(Clone, Copy)]
pub struct Layout {
    pub first_row: usize,
    pub first_agent: usize,
}

impl Layout {
    ghost use Rattle.std.specs.Prelude.{◌≡◌, ◌<◌, ◌≤◌};
    ghost use Rattle.orc_words.specs.{Bounds.{bounds_of}, Places.{IsWithin, place, places}};
    ghost use Rattle.orc_layout.specs.Layout.{index, layout_of, table_length};

    /// The layout of tables of this shape.
    pub fn new(shape: &Shape) -> Layout
        ensures { result ≡ layout_of (bounds_of shape.now) }
    {
        let first_row = LINE * (1 + shape.roots() as usize);
        Layout {
            first_row,
            first_agent: first_row + LINE * shape.rows() as usize,
        }
    }

    /// The index of a word in a table of this layout, from 0.
    #[inline(always)]
    pub fn word_index(&self, shape: &Shape, word: Word) -> usize
        requires laid { self.now ≡ layout_of (bounds_of shape.now) }
        requires within { IsWithin (bounds_of shape.now) word }
        ensures index { result ≡ index (bounds_of shape.now) (place (bounds_of shape.now) word) }
        ensures inside { result < table_length (bounds_of shape.now) }
    {
        match word {
            Word::Enrolled => 0,
            Word::Root(root) => LINE * (1 + root as usize),
            Word::Gate(row) => self.first_row + LINE * row as usize,
            Word::Counter(row) => self.first_row + LINE * row as usize + 1,
            Word::First(row) => self.first_row + LINE * row as usize + 2,
            Word::Second(row) => self.first_row + LINE * row as usize + 3,
            Word::Next(row) => self.first_row + LINE * row as usize + 4,
            Word::Side(row) => self.first_row + LINE * row as usize + 5,
            Word::Slot(agent, slot) => self.first_agent + 16 * agent as usize + slot as usize,
            Word::Handover(agent, slot) => {
                self.first_agent + 16 * agent as usize + 8 + slot as usize
            }
        }
    }

    // The index of a place of the table.
    pub(crate) fn index_at(&self, shape: &Shape, place: usize) -> usize
        requires laid { self.now ≡ layout_of (bounds_of shape.now) }
        requires place { place ≤ places (bounds_of shape.now) }
        ensures { result ≡ index (bounds_of shape.now) place }
    {
        let first_row = 1 + shape.roots() as usize;
        let first_agent = first_row + shape.words_of_rows(shape.rows()) as usize;
        if place < first_row {
            LINE * place
        } else if place < first_agent {
            let before = place - first_row;
            let (row, word) = if shape.links() > 1 {
                (before / 6, before % 6)
            } else {
                (before / 5, before % 5)
            };
            self.first_row + LINE * row + word
        } else {
            self.first_agent + (place - first_agent)
        }
    }
}

/// In a table of any size, different places have different indices, and each is one of the table's. The word of enrolments,
/// each root, the gate of each row and the first slot of each agent begin a line.
pub fn different_places_have_different_indices()
    ensures apart { (b : Bounds) (p q : ℕ) → index b p ≡ index b q → p ≡ q }
    ensures inside { (b : Bounds) (p : ℕ) → p < places b → index b p < table_length b }
    ensures enrolled { (b : Bounds) → index b (place b Enrolled) % 8 ≡ 0 }
    ensures roots { (b : Bounds) (i : ℕ) → i < b.roots → index b (place b (Root i)) % 8 ≡ 0 }
    ensures rows { (b : Bounds) (r : ℕ) → r < b.rows → index b (place b (Gate r)) % 8 ≡ 0 }
    ensures agents { (b : Bounds) (a : ℕ) → a < b.agents → index b (place b (Slot a 0)) % 8 ≡ 0 }
{}
