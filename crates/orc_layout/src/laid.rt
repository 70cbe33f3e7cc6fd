//! Words that are laid at their indices.

ghost use Rattle.std.specs.Prelude.{◌≡◌, IfOk, length};
ghost use Rattle.orc_words.specs.{Bounds.{bounds_of}, Places.{places}};
ghost use Rattle.orc_layout.specs.Layout.{index, lay, table_length};

use crate::layout::Layout;
use orc_fault::NoMemory;
use orc_words::Shape;
use std::alloc::Global;

/// The words of all places, each at its index, and 0 between.
///
/// # Errors
///
/// `NoMemory` where memory is refused.
#[tactic(auto, using(crate::proofs::Indices::index_is_layout, crate::proofs::Laying::laid_long))]
pub fn laid_words(alloc: Global, shape: &Shape, words: &[u64]) -> Result<Vec<u64>, NoMemory>
    requires all { length words.now ≡ places (bounds_of shape.now) }
    ensures laid { IfOk result (λ laid. laid.items ≡ lay (index (bounds_of shape.now)) words.now) }
    ensures long { IfOk result (λ laid. length laid.items ≡ table_length (bounds_of shape.now)) }
{
    let layout = Layout::new(shape);
    let mut laid = vec![in alloc; 0; layout.index_at(shape, words.len())]?;
    for (place, word) in words.iter().enumerate() {
        laid[layout.index_at(shape, place)] = *word;
    }
    Ok(laid)
}
