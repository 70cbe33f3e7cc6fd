//! New domains.

ghost use Rattle.std.specs.Prelude.{◌≡◌, ◌<◌, ◌%◌, [], All, IfOk, None, length, replicate};
ghost use Rattle.orc_words.specs.Bounds.{bounds_of};
ghost use Rattle.orc_heap.specs.{Seats.{IsIdle}, Seeds.{SeedAllowed, opening_events}};
ghost use Rattle.orc_plain_board.specs.{Machine.{numbers}, Views.{shows_by}};
ghost use Rattle.orc_shared_words.specs.Lists.{EachAt, EachFrom};
ghost use Rattle.orc_any_domain.specs.Turns.{first_row};
ghost use Rattle.orc_plain_domain.specs.Passes.{IsPassOf, domain_bounds, domain_opening, next_row, seat_of};

use crate::domain::{PlainDomain, PlainPass};
use orc_any_domain::first_row;
use orc_fault::NoMemory;
use orc_heap::{Discipline, Seed};
use orc_plain_board::PlainBoard;
use orc_shared_words::each_made;
use orc_words::Shape;
use std::alloc::Global;

/// A domain and its passes, or no memory.
pub type MadePlainDomain<D> = Result<(PlainDomain<D>, Vec<PlainPass<D>>), NoMemory>;

impl<D: Discipline> PlainDomain<D> {
    /// A domain whose nodes have as many links as the shape's rows, and one pass an agent, in order. Its journal begins with the seed's events, of agent 0.
    ///
    /// # Errors
    ///
    /// `NoMemory` where memory is refused.
    pub fn make(alloc: Global, shape: &Shape, seed: Seed<D::Note>) -> MadePlainDomain<D>
        requires holds { D.holds (numbers (bounds_of shape.now)) [] }
        requires seed { SeedAllowed D.may (numbers (bounds_of shape.now)) seed }
        ensures bounds { IfOk result (λ made. domain_bounds made.0 ≡ bounds_of shape.now) }
        ensures opening { IfOk result (λ made. domain_opening made.0 ≡ opening_events seed) }
        ensures passes { IfOk result (λ made. length made.1.items ≡ (bounds_of shape.now).agents) }
        ensures belongs { IfOk result (λ made. All (λ p. IsPassOf made.0 p) made.1.items) }
        ensures agents { IfOk result (λ made. EachAt (λ i p. (seat_of made.0 p).agent ≡ i) made.1.items) }
        ensures idle { IfOk result (λ made. All (λ p. IsIdle (seat_of made.0 p)) made.1.items) }
        ensures seen { IfOk result (λ made. All (λ p. (seat_of made.0 p).seen ≡ opening_events seed) made.1.items) }
        ensures next { IfOk result (λ made. EachAt (λ i p. next_row p ≡ first_row (bounds_of shape.now) i) made.1.items) }
    {
        let (board, passes) = PlainBoard::make(alloc, shape, seed)?;
        let passes = domain_passes(alloc, shape, passes)?;
        Ok((PlainDomain { board }, passes))
    }
}

// Makes the domain's passes of these, which hold nothing.
fn domain_passes<D: Discipline>(
    alloc: Global,
    shape: &Shape,
    passes: Vec<orc_plain_board::PlainBoardPass<D>>,
) -> Result<Vec<PlainPass<D>>, NoMemory>
    ensures long { IfOk result (λ made. length made.items ≡ length passes.items) }
    ensures same { IfOk result (λ made. EachFrom (λ p. p.pass) made.items passes.items) }
    ensures slots { IfOk result (λ made. All (λ p. p.slots ≡ replicate 8 None) made.items) }
    ensures next { IfOk result (λ made. All (λ p. p.next < (bounds_of shape.now).rows) made.items) }
    ensures first { IfOk result (λ made. All (λ p. p.next
        ≡ first_row (bounds_of shape.now) (shows_by (bounds_of shape.now) p.pass).agent % (bounds_of shape.now).rows) made.items) }
    ensures shape { IfOk result (λ made. All (λ p. bounds_of p.shape ≡ bounds_of shape.now) made.items) }
{
    each_made(alloc, passes, |pass| new_pass(shape, pass))
}

// Makes a pass that holds nothing.
fn new_pass<D: Discipline>(shape: &Shape, pass: orc_plain_board::PlainBoardPass<D>) -> PlainPass<D>
    ensures { result ≡ record {
      pass = pass;
      slots = replicate 8 None;
      next = first_row (bounds_of shape.now) (shows_by (bounds_of shape.now) pass).agent % (bounds_of shape.now).rows;
      shape = shape.now;
    } }
{
    let next = first_row(shape, pass.agent());
    PlainPass {
        pass,
        slots: [None; 8],
        next,
        shape: *shape,
    }
}
