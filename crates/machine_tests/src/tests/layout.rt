//! The layout of a small table by hand.

ghost use Rattle.std.specs.Prelude.{◌≡◌};
ghost use Rattle.orc_words.specs.{Bounds.{Bounds}, Places.{place}, declared.place.Word.{Word}};
ghost use Rattle.orc_layout.specs.Layout.{index};

use orc_layout::{Layout, laid_words};
use orc_words::{Shape, Word};
use std::test::Fail;

// Three words alone, each with seven zeros behind it; two rows of five words, each with three zeros behind it, or of six with two
// where rows have two links; and two blocks of sixteen.
fn a_small_table_by_hand()
    ensures one_link { let b : Bounds = record { rows = 2; roots = 2; agents = 2; limit = 9; links = 1 } in
        (index b (place b Word.Enrolled) ≡ 0) × (index b (place b (Word.Root 0)) ≡ 8) × (index b (place b (Word.Root 1)) ≡ 16)
        × (index b (place b (Word.Gate 0)) ≡ 24) × (index b (place b (Word.Counter 0)) ≡ 25) × (index b (place b (Word.First 0)) ≡ 26)
        × (index b (place b (Word.Second 0)) ≡ 27) × (index b (place b (Word.Next 1)) ≡ 36) × (index b (place b (Word.Slot 0 0)) ≡ 40)
        × (index b (place b (Word.Handover 0 7)) ≡ 55) × (index b (place b (Word.Slot 1 1)) ≡ 57) }
    ensures two_links { let b : Bounds = record { rows = 2; roots = 2; agents = 2; limit = 9; links = 2 } in
        (index b (place b (Word.Next 1)) ≡ 36) × (index b (place b (Word.Side 1)) ≡ 37) × (index b (place b (Word.Slot 0 0)) ≡ 40) }
{}

#[test]
fn its_words_are_laid_by_hand(rt: HostRuntime) -> Result<(), Fail> {
    let shape = Shape::new(2, 2, 2, 9)?;
    let layout = Layout::new(&shape);
    assert_eq!(rt; layout.word_index(&shape, Word::Slot(1, 1)), 57);
    let words: Vec<u64> = (1..46).collect(rt.alloc())?;
    assert!(rt; words.len() == 45 && shape.words() == 45);
    let laid = laid_words(rt.alloc(), &shape, words.as_slice())?;
    let wanted = [
        1, 0, 0, 0, 0, 0, 0, 0, 2, 0, 0, 0, 0, 0, 0, 0, 3, 0, 0, 0, 0, 0, 0, 0, 4, 5, 6, 7, 8, 0,
        0, 0, 9, 10, 11, 12, 13, 0, 0, 0, 14, 15, 16, 17, 18, 19, 20, 21, 22, 23, 24, 25, 26, 27,
        28, 29, 30, 31, 32, 33, 34, 35, 36, 37, 38, 39, 40, 41, 42, 43, 44, 45,
    ];
    assert_eq!(rt; laid.as_slice(), wanted.as_slice());
    Ok(())
}
