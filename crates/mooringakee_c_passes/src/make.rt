//! What making a container asks of the caller's places, and how they are filled.

ghost use Rattle.std.specs.Prelude.{◌≡◌, ◌↔◌, ◌+◌, All, IfSome, IsTrue, None, Some, length, slice_index_or};
ghost use Rattle.orc_shared_words.specs.Lists.{EachAt};
ghost use Rattle.orc_split_rule.specs.SplitDiscipline.{IsSize};
ghost use Rattle.orc_words.specs.Bounds.{bounds_of};
ghost use Rattle.mooringakee_c_passes.specs.{Making.{AreFree, CanBeMade, CanBeSplit, sizes_of}, Seats.{IsSeat}};

use crate::pass::Pass;
use crate::seat::Seat;
use orc_words::{HIGHEST_LIMIT, Shape};

/// The shape of a container, if all its numbers are in range.
pub fn shape_of(rows: u32, roots: u32, turns: u64, agents: usize) -> Option<Shape>
    ensures in_range { IfSome result (λ shape. CanBeMade rows roots turns agents) }
    ensures sizes { IfSome result (λ shape. bounds_of shape ≡ sizes_of rows roots agents) }
    ensures out_of_range { result ≡ None → ¬ CanBeMade rows roots turns agents }
{
    let Ok(agents) = u32::try_from(agents) else {
        return None;
    };
    if turns == 0 {
        return None;
    }
    match Shape::new(rows, roots, agents, HIGHEST_LIMIT) {
        Ok(shape) => Some(shape),
        Err(_) => None,
    }
}

// Whether it is a power of two up to 256.
fn is_size(buckets: u32) -> bool
    ensures { IsTrue result ↔ IsSize 256 buckets }
{
    buckets <= 256 && buckets.next_power_of_two() == buckets
}

/// The shape of a set that grows to so many buckets, if all its numbers are in range: a root for each, and one for their number.
pub fn split_shape_of(rows: u32, buckets: u32, turns: u64, agents: usize) -> Option<Shape>
    ensures in_range { IfSome result (λ shape. CanBeSplit rows buckets turns agents) }
    ensures sizes { IfSome result (λ shape. bounds_of shape ≡ sizes_of rows (buckets + 1) agents) }
    ensures out_of_range { result ≡ None → ¬ CanBeSplit rows buckets turns agents }
{
    if !is_size(buckets) {
        return None;
    }
    shape_of(rows, buckets + 1, turns, agents)
}

/// Whether there is no pass at any of these places.
pub fn are_free(places: &[Pass]) -> bool
    ensures { IsTrue result ↔ AreFree places.now }
{
    for place in places.iter() {
        if place.is_live() {
            return false;
        }
    }
    true
}

/// Gives each place its seat.
pub fn hand_out(places: &mut [Pass], seats: Vec<Box<Seat>>)
    requires many { length seats.items ≡ length places.old }
    requires usable { All (λ b. IsSeat b.value) seats.items }
    ensures { EachAt (λ i p. (b : _) → p.pointer.seat ≡ Some (slice_index_or seats.items i b).value) places.new }
{
    let mut left = seats;
    while let Some(seat) = left.pop() {
        places[left.len()] = Pass::of(seat);
    }
}
