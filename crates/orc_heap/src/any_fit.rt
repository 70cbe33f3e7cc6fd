//! A discipline for boards that serve no container.

ghost use Rattle.orc_heap.specs.{AnyFit.{AnyFit}, Laws.AnyFit.{plain_fits}};

use crate::discipline::Discipline;

/// Allows whatever fits, but for a Move of a link that no Move made. It is for tests and measurements of domains and
/// boards by themselves.
pub struct AnyFit;

impl Discipline for AnyFit {
    type Note = u32;

    ghost holds = { λ _ _. Unit {0} };

    ghost may = { AnyFit };

    ghost keeps = { λ _ _ _ _ _. tt };

    ghost fits = { λ _ _ _ _ may. may.0 };

    ghost allows_plain = { λ n seen e _ fits plain. plain_fits n seen e fits plain };

    ghost moves_linked = { λ _ _ _ _ may. may.1 };
}
