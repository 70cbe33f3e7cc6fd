//! What one step on the table tells, and how views are cut in two and put together.

ghost use Rattle.std.specs.Prelude.{◌≡◌, Option, None};
ghost use Rattle.orc_shared_words.specs.{
  Learning.{Confirmed},
  Steps.{DidStep, Tried},
  Views.{absorbing, keeping, next_pass, note_of, one_handed, spent_view},
};

use crate::journal::View;
use crate::machine::Machine;
use atomic_table::{Join, Play, Split};
use orc_heap::Discipline;
use std::marker::{Brand, PhantomData};

/// The step that a call makes. A call at `Brand` picks it.
pub trait Picks<K, O, N> {
    ghost step: { Option (K × O × Option N) };
}

impl<K, O, N> Picks<K, O, N> for Brand {
    ghost step = { None };
}

/// The picked step was made.
pub struct Does<M, D, J> {
    of: PhantomData<(M, D, J)>,
}

impl<D: Discipline, M: Machine<D::Note>, J: Picks<M::Shape, M::Op, D::Note>> Play<
    (),
    View<M::Step, M::Record>,
> for Does<M, D, J> {
    ghost then = { λ _. DidStep M.rules (λ k. D.holds (M.numbers k)) (λ k. D.may (M.numbers k)) J.step };
}

/// The picked step, a swap of 0, was made where 0 was found, and else nothing was done.
pub struct Tries<M, D, J> {
    of: PhantomData<(M, D, J)>,
}

impl<D: Discipline, M: Machine<D::Note>, J: Picks<M::Shape, M::Op, D::Note>> Play<
    (),
    View<M::Step, M::Record>,
> for Tries<M, D, J> {
    ghost then = { λ _. Tried M.rules (λ k. D.holds (M.numbers k)) (λ k. D.may (M.numbers k)) J.step };
}

/// The longer one of the pass's list and the note's was taken over.
pub struct Confirm<M, N> {
    of: PhantomData<(M, N)>,
}

impl<N, M: Machine<N>> Play<(), View<M::Step, M::Record>> for Confirm<M, N> {
    ghost then = { λ _ me _ me'. Confirmed M.rules.by me.0 me'.0 × (me'.1 ≡ me.1) };
}

/// A copy of what a pass has seen.
pub struct Note<M, N> {
    of: PhantomData<(M, N)>,
}

impl<N, M: Machine<N>> Split<View<M::Step, M::Record>> for Note<M, N> {
    ghost left = { λ v. v };

    ghost right = { note_of M.rules };
}

impl<N, M: Machine<N>> Join<View<M::Step, M::Record>> for Note<M, N> {
    ghost both = { keeping };

    ghost spent = { spent_view M.rules };
}

/// A pass takes in another for good.
pub struct Absorb<M, N> {
    of: PhantomData<(M, N)>,
}

impl<N, M: Machine<N>> Join<View<M::Step, M::Record>> for Absorb<M, N> {
    ghost both = { absorbing };

    ghost spent = { spent_view M.rules };
}

/// A new pass, for the next agent.
pub struct NextAgent<M, N> {
    of: PhantomData<(M, N)>,
}

impl<N, M: Machine<N>> Split<View<M::Step, M::Record>> for NextAgent<M, N> {
    ghost left = { one_handed };

    ghost right = { next_pass M.rules };
}
