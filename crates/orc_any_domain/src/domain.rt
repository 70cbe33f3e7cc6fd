//! What each domain offers from its making to its rest.

ghost use Rattle.std.specs.Prelude.{◌≡◌, ◌+◌, ℕ, [], All, IfOk, List};
ghost use mathlib.Core.List.{IsPrefix};
ghost use Rattle.orc_any_domain.specs.Domains.{AreAllIdle, heap_numbers};
ghost use Rattle.orc_heap.specs.{Moves.{gives_in}, Seeds.{SeedAllowed, opening_events}};
ghost use Rattle.orc_words.specs.Bounds.{Bounds, bounds_of};

use orc_fault::NoMemory;
use orc_heap::{Discipline, Links, Seed};
use orc_words::Shape;
use std::alloc::Global;

/// How many rows were given and freed, each as often as it was, and how many are out.
#[derive(Clone, Copy, Debug, PartialEq, Eq, Drop)]
pub struct RowCounts {
    pub given: u64,
    pub reused: u64,
    pub linked: u32,
}

/// A domain of links that is made of a shape and a seed, tells of the retired rows of a pass, and comes to rest.
pub trait Domain: Links {
    /// The domain at rest.
    type Rest: Drop;

    // the sizes that the domain was made with
    ghost bounds: { Self → Bounds };

    // this is what is left of the domain at rest, which had these passes
    ghost rests: { Self → List Self.Pass → Self.Rest → Type 0 };

    // the steps that the domain at rest has shown
    ghost left: { Self.Rest → List Self.Step };

    /// A domain of this shape, and one pass an agent, in order. Its journal begins with the seed's events, of agent 0, and no pass
    /// has seen more.
    ///
    /// # Errors
    ///
    /// `NoMemory` where memory is refused.
    fn make(
        alloc: Global,
        shape: &Shape,
        seed: Seed<<Self::Rule as Discipline>::Note>,
    ) -> Result<(Self, Vec<Self::Pass>), NoMemory>
        requires holds { Self.Rule.holds (heap_numbers (bounds_of shape.now)) [] }
        requires seed { SeedAllowed Self.Rule.may (heap_numbers (bounds_of shape.now)) seed }
        ensures bounds { IfOk result (λ made. bounds made.0 ≡ bounds_of shape.now) }
        ensures opening { IfOk result (λ made. Self.opening made.0 ≡ opening_events seed) }
        ensures idle { IfOk result (λ made. AreAllIdle Self.Links made.0 made.1.items) }
        ensures new { IfOk result (λ made. All (λ p. (Self.seat made.0 p).seen ≡ opening_events seed) made.1.items) };

    /// How many retired rows the pass has yet to work through.
    fn backlog(&self, p: &Self::Pass) -> u32
        requires { Self.belongs self.now p.now }
        ensures { result ≡ Self.backlog p.now };

    /// Lets all passes drain, and ends the sharing. It takes no memory.
    fn end(self, passes: Vec<Self::Pass>) -> Self::Rest
        requires { AreAllIdle Self.Links self passes.items }
        ensures { rests self passes.items result };

    /// How many rows were given and freed, each as often as it was, and how many are out: as many were given as what is left tells of,
    /// and what was given was freed or is out.
    fn counts(rest: &Self::Rest) -> RowCounts
        ensures given { (domain : Self) (passes : List Self.Pass) → rests domain passes rest.now
            → result.given ≡ gives_in (Self.events domain (left rest.now)) }
        ensures balance { (domain : Self) (passes : List Self.Pass) → rests domain passes rest.now
            → result.given ≡ result.reused + result.linked };

    // what each pass had seen is a beginning of what is left
    ghost goes_on: { (d : Self) (passes : List Self.Pass) (r : Self.Rest) → rests d passes r
        → All (λ p. IsPrefix (Self.journal p) (left r)) passes };

    // where all passes had seen one journal, what is left tells of no event more
    ghost rests_quietly: { (d : Self) (passes : List Self.Pass) (r : Self.Rest) (seen : List Self.Step) → rests d passes r
        → All (λ p. Self.journal p ≡ seen) passes → Self.events d (left r) ≡ Self.events d seen };

    // the heap's numbers, the agents and the rows are those of the sizes
    ghost numbers_are: { (d : Self) → Self.numbers d ≡ heap_numbers (bounds d) };

    ghost agents_are: { (d : Self) → Self.agents d ≡ (bounds d).agents };

    ghost rows_are: { (d : Self) → Self.rows d ≡ (bounds d).rows };
}
