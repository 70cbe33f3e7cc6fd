//! A list made item by item.

ghost use Rattle.std.specs.Iterator.{ActsAs};
ghost use Rattle.std.specs.Prelude.{◌≡◌, IfOk, map};

use orc_fault::NoMemory;
use std::alloc::Global;

/// What `make` makes of each item, in order.
///
/// # Errors
///
/// `NoMemory` where memory is refused.
pub fn each_made<A: Drop, B: Drop, F: Fn(A) -> B>(
    alloc: Global,
    items: Vec<A>,
    make: F,
) -> Result<Vec<B>, NoMemory>
    requires { (state : F) (item : _) → F.pre state item }
    ensures { (of : A → B) → ActsAs F.Fn make of → IfOk result (λ made. made.items ≡ map of items.items) }
{
    let made = items.into_iter().map(make).collect(alloc)?;
    Ok(made)
}
