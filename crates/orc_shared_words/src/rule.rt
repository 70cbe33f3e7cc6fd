//! The rule that the words and the passes keep.

ghost use Rattle.orc_shared_words.specs.{Rule.{Shows}, Views.{first_view}};

use crate::journal::View;
use crate::machine::Machine;
use atomic_table::TableRule;
use orc_heap::Discipline;
use std::marker::PhantomData;

/// The words and the views show a journal.
pub struct Shown<M, D> {
    of: PhantomData<(M, D)>,
}

impl<D: Discipline, M: Machine<D::Note>> TableRule<(), View<M::Step, M::Record>, M::Shape>
    for Shown<M, D> {
    ghost holds = { λ k. Shows M.rules k (D.holds (M.numbers k)) (D.may (M.numbers k)) };

    ghost first = { first_view M.rules };
}
