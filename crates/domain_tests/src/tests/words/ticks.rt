//! One word that agents count up.

ghost use Rattle.orc_heap.specs.Heap.{HeapNumbers};
ghost use Rattle.orc_shared_words.specs.Operations.{returned_by};
ghost use Rattle.orc_words.specs.Operations.{word_after};
ghost use Rattle.domain_tests.specs.Ticks.{tick_rules, ticks_obey};
ghost use Rattle.std.proofs.Math.Nat.{ℕ_set};
ghost use Rattle.std.specs.Prelude.{◌≡◌, ℕ};

use orc_shared_words::{JournalStep, Machine, PlacedOperation};
use orc_words::Operation;

/// An agent counts up (`true`) or looks (`false`), and keeps what it found last. Its shape is the number of agents.
pub struct Ticks;

impl<N> Machine<N> for Ticks {
    type Shape = u32;

    type Op = bool;

    type Step = JournalStep<bool, N>;

    type Record = u64;

    type Own = u64;

    ghost tied = { λ d o. d ≡ o };

    ghost one_tie = { ℕ_set };

    ghost has_room = { λ _ _ _ _. Unit {0} };

    ghost leaves_room = { λ _ _ _ _ _ _. tt };

    ghost numbers = { λ _. record { roots = 0; links = 1 } };

    ghost rules = { tick_rules };

    ghost obeys = { ticks_obey };

    fn operation(_shape: &u32, _agent: u32, op: &bool, _own: &u64) -> PlacedOperation {
        let operation = if *op {
            Operation::Add(1)
        } else {
            Operation::Load
        };
        PlacedOperation {
            index: 0,
            operation,
        }
    }

    fn keep(_shape: &u32, _agent: u32, _op: &bool, own: &mut u64, n: u64) {
        *own = n;
    }
}
