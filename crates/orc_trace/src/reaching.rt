//! The rows to which links lead from the roots.

ghost use Rattle.std.specs.Prelude.{◌≡◌, ◌<◌, ℕ, IfOk, true, false, length};
ghost use Rattle.orc_words.specs.{Bounds.{bounds_of}, Places.{link_at}, declared.place.Word.{Word}};
ghost use Rattle.orc_core.specs.Counts.{links_to};
ghost use Rattle.orc_trace.specs.{
  Audit.{IsLinkedToARoot},
  Reaching.{AreFound, AreTargetsMarked, FindsMore, HasMarks, MarksReached, is_marked},
};

use orc_core::State;
use orc_fault::NoMemory;
use orc_words::{Shape, Word, link_of_row, named};
use std::alloc::Global;

/// A mark for each row, and room for a list of all rows.
#[derive(Drop)]
pub struct Reach {
    marks: Vec<bool>,
    found: Vec<u32>,
}

impl Reach {
    /// For the rows of a table.
    pub fn new(alloc: Global, shape: &Shape) -> Result<Reach, NoMemory>
        ensures { IfOk result (λ reach. HasMarks reach (bounds_of shape.now).rows) }
    {
        let rows = shape.rows() as usize;
        let marks = vec![in alloc; false; rows]?;
        let found = vec![in alloc; 0; rows]?;
        Ok(Reach { marks, found })
    }

    /// Whether the row is marked.
    pub fn is_marked(&self, row: u32) -> bool
        requires { row < length self.now.marks.items }
        ensures { result ≡ is_marked self.now.marks.items row }
    {
        self.marks[row as usize]
    }

    /// Marks the rows to which links lead from the roots, and no other.
    pub fn mark_reached(&mut self, state: &State)
        requires { HasMarks self.old state.now.bounds.rows }
        ensures room { HasMarks self.new state.now.bounds.rows }
        ensures reached { MarksReached state.now self.new.marks.items }
    {
        find_all(state, &mut self.marks, &mut self.found);
    }
}

// Takes all marks away.
fn clear(marks: &mut [bool])
    ensures length { length marks.new ≡ length marks.old }
    ensures clear { (r : ℕ) → is_marked marks.new r ≡ false }
{
    for row in 0..marks.len() {
        marks[row] = false;
    }
}

// Marks the row that a link word names, and puts it behind those found, unless it is marked. Answers how many are found.
fn find(state: &State, marks: &mut [bool], found: &mut [u32], count: usize, word: u64) -> usize
    requires found { AreFound state.now marks.old found.old count }
    requires reached { (r : ℕ) → links_to word r ≡ true → IsLinkedToARoot state.now r }
    ensures found { AreFound state.now marks.new found.new result }
    ensures more { FindsMore marks.old marks.new found.old found.new count result }
    ensures target { (r : ℕ) → r < state.now.bounds.rows → links_to word r ≡ true → is_marked marks.new r ≡ true }
{
    let rows = state.shape().rows();
    match named(word / 2) {
        Some(row) if row < rows && !marks[row as usize] => {
            marks[row as usize] = true;
            found[count] = row;
            count + 1
        }
        _ => count,
    }
}

// Finds the rows that the roots name. Answers how many are found.
fn find_roots(state: &State, marks: &mut [bool], found: &mut [u32]) -> usize
    requires marks { length marks.old ≡ state.now.bounds.rows }
    requires found { length found.old ≡ state.now.bounds.rows }
    ensures found { AreFound state.now marks.new found.new result }
    ensures roots { AreTargetsMarked state.now marks.new (λ i. Word.Root i) state.now.bounds.roots }
{
    clear(marks);
    let mut count = 0;
    for root in 0..state.shape().roots() {
        let word = state.word(Word::Root(root));
        count = find(state, marks, found, count, word);
    }
    count
}

// Finds the rows that the links of a marked row name. Answers how many are found.
fn follow(state: &State, marks: &mut [bool], found: &mut [u32], count: usize, row: u32) -> usize
    requires found { AreFound state.now marks.old found.old count }
    requires row { row < state.now.bounds.rows }
    requires marked { is_marked marks.old row ≡ true }
    ensures found { AreFound state.now marks.new found.new result }
    ensures more { FindsMore marks.old marks.new found.old found.new count result }
    ensures links { AreTargetsMarked state.now marks.new (λ n. link_at n row) state.now.bounds.links }
{
    let mut count = count;
    for number in 0..state.shape().links() {
        let word = state.word(link_of_row(number, row));
        count = find(state, marks, found, count, word);
    }
    count
}

// Finds the rows to which links lead from the roots, each once: those that the roots name, and then what each of those found links.
fn find_all(state: &State, marks: &mut [bool], found: &mut [u32])
    requires marks { length marks.old ≡ state.now.bounds.rows }
    requires found { length found.old ≡ state.now.bounds.rows }
    ensures reached { MarksReached state.now marks.new }
    ensures length { length found.new ≡ length found.old }
{
    let mut count = find_roots(state, marks, found);
    let mut next = 0;
    while next < count {
        let row = found[next];
        count = follow(state, marks, found, count, row);
        next += 1;
    }
}
