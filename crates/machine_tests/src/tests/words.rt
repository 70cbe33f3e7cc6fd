//! Worked examples of the definitions, and the calls at concrete values.

ghost use Rattle.std.specs.Prelude.{◌≡◌, ◌≢◌, ◌+◌, ◌<◌, ◌^◌, Some, None, true, false, pos, negsuc, slice_index};
ghost use Rattle.orc_words.specs.{
  Bounds.{Bounds, IsShape, IsFirstFault},
  NewWords.{first_word, new_word, new_words},
  Operations.{answer_of, word_after},
  Packed.{named, link_word, link_of, counter_word, counter_of, gate_word, gate_of},
  Places.{IsWithin, place, places},
};

use orc_words::*;
use std::test::Fail;

// Row 4 with a mark is 2 × 5 + 1, and the greatest link word names row 65,534.
fn link_words()
    ensures null { link_word (record { to = None; mark = false }) ≡ 0 }
    ensures marked_null { link_word (record { to = None; mark = true }) ≡ 1 }
    ensures marked_row { link_word (record { to = Some 4; mark = true }) ≡ 11 }
    ensures greatest { link_word (record { to = Some 65534; mark = true }) ≡ 131071 }
    ensures read { link_of 10 ≡ record { to = Some 4; mark = false } }
    ensures other_row { link_word (record { to = Some 4; mark = false }) ≢ 8 }
{}

// A slot that names row 3 holds 4; 0 and 65,536 name no row.
fn names()
    ensures row { named 4 ≡ Some 3 }
    ensures none { named 0 ≡ None }
    ensures above { named 65536 ≡ None }
{}

// Count -1 with the bit and sequence 2: 2 × 2^24 + 2^23 + (2^22 - 1).
fn counter_words()
    ensures new_row { counter_word (record { count = pos 0; retired = false; sequence = 0 }) ≡ 4194304 }
    ensures below_zero { counter_word (record { count = negsuc 0; retired = true; sequence = 2 }) ≡ 46137343 }
    ensures read { counter_of 46137343 ≡ record { count = negsuc 0; retired = true; sequence = 2 } }
    ensures incremented { counter_of (4194304 + INCREMENT) ≡ record { count = pos 1; retired = false; sequence = 1 } }
    ensures decremented { counter_of (4194304 + DECREMENT) ≡ record { count = negsuc 0; retired = false; sequence = 1 } }
    ensures no_bit { counter_of 4194304 ≢ record { count = pos 0; retired = true; sequence = 0 } }
{}

// The second life of a row that is out is 2 × 2 + 1.
fn gate_words()
    ensures out { gate_word (record { life = 2; out = true }) ≡ 5 }
    ensures free { gate_of 4 ≡ record { life = 2; out = false } }
    ensures not_out { gate_of 4 ≢ record { life = 2; out = true } }
{}

// Two rows, one root and two agents: 1 + 1 + 5 × 2 + 16 × 2 words with one link, and 1 + 1 + 6 × 2 + 16 × 2 with two.
fn word_places()
    ensures one_link { let b : Bounds = record { rows = 2; roots = 1; agents = 2; limit = 8; links = 1 } in
        (places b ≡ 44) × (place b (Word.Gate 1) ≡ 7) × (place b (Word.Slot 0 0) ≡ 12) × (place b (Word.Handover 1 7) ≡ 43)
        × (¬ IsWithin b (Word.Next 2)) × (¬ IsWithin b (Word.Side 0)) × (¬ IsWithin b (Word.Slot 0 8)) }
    ensures two_links { let b : Bounds = record { rows = 2; roots = 1; agents = 2; limit = 8; links = 2 } in
        (places b ≡ 46) × (place b (Word.Side 0) ≡ 7) × (place b (Word.Gate 1) ≡ 8) × (place b (Word.Slot 0 0) ≡ 14)
        × IsWithin b (Word.Side 1) × (¬ IsWithin b (Word.Side 2)) }
{}

// In those tables place 3 is the counter of row 0, and place 2 its gate; the counter of row 1 is at 8, or at 9 with two links.
fn words_of_a_new_table()
    ensures one_link { let b : Bounds = record { rows = 2; roots = 1; agents = 2; limit = 8; links = 1 } in
        (first_word b 3 ≡ 4194304) × (first_word b 2 ≡ 0) × (slice_index (new_words b) 8 ≡ new_word (Word.Counter 1)) }
    ensures two_links { let b : Bounds = record { rows = 2; roots = 1; agents = 2; limit = 8; links = 2 } in
        (first_word b 8 ≡ 0) × (first_word b 9 ≡ 4194304) }
    ensures slot { new_word (Word.Slot 1 2) ≡ 0 }
{}

// What the operations leave and answer.
fn operations()
    ensures taken { word_after (Operation.CompareExchange 0 3) 0 ≡ 3 }
    ensures not_taken { word_after (Operation.CompareExchange 0 3) 2 ≡ 2 }
    ensures failed { answer_of (Operation.CompareExchange 0 3) 2 ≡ 0 }
    ensures incremented { word_after (Operation.Add 16777217) 4194304 ≡ 20971521 }
    ensures bit_cleared { word_after (Operation.Sub 8388608) 46137344 ≡ 37748736 }
    ensures wraps { word_after (Operation.Sub 1) 0 ≡ 18446744073709551615 }
    ensures stored { answer_of (Operation.Store 5) 9 ≡ 5 }
    ensures swapped { answer_of (Operation.Swap 5) 9 ≡ 9 }
{}

// One row is too few, and 17 agents are named only where rows and roots are in range.
fn shape_ranges()
    ensures fits { IsShape (record { rows = 65535; roots = 257; agents = 16; limit = 549755813888; links = 2 }) }
    ensures few_rows { IsFirstFault (record { rows = 1; roots = 1; agents = 17; limit = 1; links = 1 }) (ShapeFault.Rows 1) }
    ensures not_agents { ¬ IsFirstFault (record { rows = 1; roots = 1; agents = 17; limit = 1; links = 1 }) (ShapeFault.Agents 17) }
    ensures no_limit { ¬ IsShape (record { rows = 2; roots = 1; agents = 1; limit = 0; links = 1 }) }
    ensures three_links { IsFirstFault (record { rows = 2; roots = 1; agents = 1; limit = 8; links = 3 }) (ShapeFault.Links 3) }
{}

fn fault_of(rows: u32, roots: u32, agents: u32, limit: u64, links: u32) -> Option<ShapeFault> {
    Shape::with_links(rows, roots, agents, limit, links).err()
}

#[test]
fn bounds_of_a_shape(rt: HostRuntime) {
    let top = 549_755_813_888;
    for (rows, roots, agents, limit, links, want) in [
        (2, 1, 1, 1, 1, None),
        (65_535, 257, 16, top, 2, None),
        (1, 1, 17, 1, 3, Some(ShapeFault::Rows(1))),
        (65_536, 1, 1, 1, 1, Some(ShapeFault::Rows(65_536))),
        (2, 0, 1, 1, 1, Some(ShapeFault::Roots(0))),
        (2, 258, 1, 1, 2, Some(ShapeFault::Roots(258))),
        (2, 1, 0, 1, 1, Some(ShapeFault::Agents(0))),
        (2, 1, 17, 1, 2, Some(ShapeFault::Agents(17))),
        (2, 1, 1, 0, 3, Some(ShapeFault::Limit(0))),
        (2, 1, 1, top + 1, 1, Some(ShapeFault::Limit(top + 1))),
        (2, 1, 1, 8, 0, Some(ShapeFault::Links(0))),
        (2, 1, 1, 8, 3, Some(ShapeFault::Links(3))),
    ] {
        assert_eq!(rt; fault_of(rows, roots, agents, limit, links), want);
    }
    assert_eq!(rt; Shape::new(2, 0, 1, 1).err(), Some(ShapeFault::Roots(0)));
}

#[test]
fn a_link_is_read_back(rt: HostRuntime) {
    let link = RowLink {
        to: Some(65_534),
        mark: true,
    };
    assert_eq!(rt; pack_link(link), 131_071);
    assert_eq!(rt; read_link(131_071), Some(link));
    assert_eq!(rt; read_link(131_072), None);
    assert_eq!(rt; named(4), Some(3));
}

#[test]
fn a_counter_is_read_back(rt: HostRuntime) {
    let counter = Counter {
        count: -1,
        retired: true,
        sequence: 2,
    };
    assert_eq!(rt; pack_counter(counter), 46_137_343);
    assert_eq!(rt; read_counter(46_137_343), counter);
}

#[test]
fn a_gate_is_read_back(rt: HostRuntime) {
    let gate = RowGate { life: 2, out: true };
    assert_eq!(rt; pack_gate(gate), 5);
    assert_eq!(rt; read_gate(5), gate);
}

#[test]
fn places_of_a_small_table(rt: HostRuntime) -> Result<(), Fail> {
    let shape = Shape::new(2, 1, 2, 8)?;
    assert_eq!(rt; (shape.rows(), shape.roots()), (2, 1));
    assert_eq!(rt; (shape.agents(), shape.limit(), shape.links()), (2, 8, 1));
    for (word, want) in [
        (Word::Enrolled, 0),
        (Word::Root(0), 1),
        (Word::Gate(0), 2),
        (Word::Next(1), 11),
        (Word::Side(1), NO_PLACE),
        (Word::Slot(1, 2), 30),
        (Word::Handover(1, 2), 38),
    ] {
        assert_eq!(rt; place_in_small(&shape, word), want);
    }
    different_words_have_different_places();
    Ok(())
}

#[test]
fn words_of_a_new_small_table(rt: HostRuntime) -> Result<(), Fail> {
    let shape = Shape::new(2, 1, 2, 8)?;
    assert_eq!(rt; shape.words(), 44);
    let words = new_words(rt.alloc(), &shape)?;
    assert_eq!(rt; words.len(), 44);
    assert_eq!(rt;
        (words[2], words[3], words[8]),
        (0, NEW_COUNTER, NEW_COUNTER)
    );
    a_new_table_has_each_word();
    Ok(())
}

#[test]
fn places_where_rows_have_two_links(rt: HostRuntime) -> Result<(), Fail> {
    let shape = Shape::with_links(2, 1, 2, 8, 2)?;
    assert_eq!(rt; (shape.links(), shape.words()), (2, 46));
    for (word, want) in [
        (Word::Next(1), 12),
        (Word::Side(1), 13),
        (Word::Slot(0, 0), 14),
    ] {
        assert_eq!(rt; place_in_small(&shape, word), want);
    }
    assert!(rt; matches!(link_of_row(0, 1), Word::Next(1)));
    assert!(rt; matches!(link_of_row(1, 1), Word::Side(1)));
    Ok(())
}

#[test]
fn what_operations_leave_and_answer(rt: HostRuntime) {
    for (operation, word, left, answer) in [
        (Operation::Load, 7, 7, 7),
        (Operation::Store(5), 7, 5, 5),
        (Operation::Swap(5), 7, 5, 7),
        (Operation::Add(u64::MAX), 7, 6, 7),
        (Operation::Sub(8), 7, u64::MAX, 7),
        (Operation::CompareExchange(7, 5), 7, 5, 1),
        (Operation::CompareExchange(6, 5), 7, 7, 0),
    ] {
        assert_eq!(rt;
            (operation.word_after(word), operation.answer(word)),
            (left, answer)
        );
    }
}

// No place of the small tables.
const NO_PLACE: usize = 46;

// The place of a word that the small table has; no place for another.
fn place_in_small(shape: &Shape, word: Word) -> usize {
    let within = match word {
        Word::Enrolled => true,
        Word::Root(root) => root < shape.roots(),
        Word::Gate(row)
        | Word::Counter(row)
        | Word::First(row)
        | Word::Second(row)
        | Word::Next(row) => row < shape.rows(),
        Word::Side(row) => row < shape.rows() && shape.links() > 1,
        Word::Slot(agent, slot) | Word::Handover(agent, slot) => {
            agent < shape.agents() && slot < 8
        }
    };
    if within {
        place_of(shape, word)
    } else {
        NO_PLACE
    }
}

#[test]
fn numbers_stand_in_the_order_in_which_they_came(rt: HostRuntime) -> Result<(), Fail> {
    let mut words = Words::new(rt.alloc());
    words.push(7)?;
    words.push(u64::MAX)?;
    assert_eq!(rt; words.len(), 2);
    assert_eq!(rt; (words.get(0), words.get(1)), (7, u64::MAX));
    Ok(())
}
