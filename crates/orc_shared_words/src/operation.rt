//! Operations on shared words.

ghost use Rattle.std.specs.Prelude.{◌≡◌, ◌<◌};
ghost use Rattle.atomic_table.specs.Table.{Allows, Step};
ghost use Rattle.orc_words.specs.Operations.{word_after};
ghost use Rattle.orc_shared_words.specs.Operations.{returned_by};

use atomic_table::{Play, Seat, Shared, TableRule};
use orc_words::Operation;

/// An atomic operation, and the index in the table of the word on which it works.
#[derive(Clone, Copy)]
pub struct PlacedOperation {
    pub index: usize,
    pub operation: Operation,
}

// Works on its word, under any rule of a table, and answers what the operation returns.
#[inline(always)]
pub(crate) fn operate<V, K, P: TableRule<(), V, K>, T: Play<(), V>>(
    shared: &Shared<(), V, K, P>,
    seat: &mut Seat<(), V>,
    index: usize,
    operation: Operation,
) -> u64
    requires table { seat.old.table_id ≡ shared.now.table_id }
    requires inside { index < shared.now.table_id.words }
    requires allowed { (s : Step (Unit {0})) → Allows (P.holds shared.now.key) shared.now.table_id.slots seat.old.id seat.old.me index
        (word_after operation) (λ n. T.then s seat.old.me (returned_by operation n)) }
    ensures table { seat.new.table_id ≡ seat.old.table_id }
    ensures told { (s : Step (Unit {0})) × T.then s seat.old.me result seat.new.me }
{
    match operation {
        Operation::Load => shared.load::<T>(seat, index),
        Operation::Store(value) => {
            shared.store::<T>(seat, index, value);
            value
        }
        Operation::Swap(value) => shared.swap::<T>(seat, index, value),
        Operation::Add(value) => shared.fetch_add::<T>(seat, index, value),
        Operation::Sub(value) => shared.fetch_sub::<T>(seat, index, value),
        Operation::CompareExchange(wanted, value) => {
            shared.compare_exchange::<T>(seat, index, wanted, value)
        }
    }
}
