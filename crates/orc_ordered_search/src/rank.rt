//! Ranks of the nodes on ordered chains.

ghost use Rattle.std.specs.Prelude.{◌≡◌, ◌<◌, ◌≤◌, ◌^◌, ℕ, Bool, [], true, false};
ghost use mathlib.Core.List.{IsPrefix};
ghost use Rattle.orc_heap.specs.{Allowed.{IsLinkedNode}, Heap.{HeapNumbers}, OwnEvents.{Only}, Seats.{heap_of}, Slots.{Holds, id_in}};
ghost use Rattle.orc_ordered_search.specs.{Reading.{Manner, Orders, reading_by}, Steps.{ReadsRank}};

use orc_heap::{Discipline, Held, Links};

/// A rank of nodes on ordered chains, as a search reads and compares it.
pub trait Rank: Copy {
    /// What the events of the container obey.
    type Rule: Discipline;

    // how they are read, over a heap of these numbers
    ghost manner: { HeapNumbers → Manner Self.Rule.Note };

    // the rank as a number
    ghost number: { Self → ℕ };

    // whether a search may count a node that was read so
    ghost counted: { Self → Bool };

    /// The rank of a once linked node.
    fn read<L: Links<Rule = Self::Rule>>(links: &L, p: &mut L::Pass, node: &Held) -> Self
        requires pass { L.belongs links.now p.old }
        requires held { Holds (L.seat links.now p.old).slots node.now }
        requires linked { IsLinkedNode (heap_of (L.numbers links.now) (L.seat links.now p.old)) (id_in (L.seat links.now p.old).slots node.now) }
        ensures pass { L.belongs links.now p.new }
        ensures later { IsPrefix (L.journal p.old) (L.journal p.new) }
        ensures nothing { Only [] (L.seat links.now p.old) (L.seat links.now p.new) }
        ensures rank { ReadsRank (reading_by (L.numbers links.now) manner) (id_in (L.seat links.now p.old).slots node.now) (number result) (counted result)
            (L.seat links.now p.new) }
        ensures fits { number result < 2 ^ 128 };

    /// Whether this rank is lower than another one.
    fn is_before(self, other: Self) -> bool
        ensures yes { result ≡ true → number self < number other }
        ensures no { result ≡ false → number other ≤ number self };

    /// Whether a search may count a node that was read so.
    fn is_counted(self) -> bool
        ensures { result ≡ counted self };

    // the rule owes it to a search that its chains are in order
    ghost ordered: { (n : HeapNumbers) → Orders (reading_by n manner) (Self.Rule.holds n) (Self.Rule.may n) };
}
