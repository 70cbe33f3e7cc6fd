//! Numbers that are given back.

ghost use Rattle.std.specs.Prelude.{◌≡◌, ◌≤◌, All, IfOk, length};
ghost use Rattle.given_back.specs.Places.{tags};

use given_back::{GivenBack, Keeps, Unfinished};
use std::alloc::{AllocError, Global};
use std::test::Fail;

// No number is above the tag.
struct AtMost;

impl Keeps<u64> for AtMost {
    type Tag = u64;

    ghost holds = { λ most n. n ≤ most };
}

// Two places for numbers up to 9.
fn two_places(alloc: Global) -> Result<GivenBack<u64, AtMost>, AllocError>
    ensures { IfOk result (λ made. All (λ t. t ≡ 9) (tags made)) }
{
    GivenBack::new(alloc, 2, &9)
}

#[test]
fn numbers_come_back_in_the_order_of_their_places(rt: HostRuntime) -> Result<(), Fail> {
    let Ok(places) = two_places(rt.alloc()) else {
        panic!(rt; "memory")
    };
    let given = (places.give(1, 7), places.give(0, 5));
    assert_eq!(rt; given, (true, true));
    let again = (places.give(1, 8), places.give(2, 8));
    assert_eq!(rt; again, (false, false));
    let Ok(values) = places.take_all(rt.alloc()) else {
        panic!(rt; "a number is missing")
    };
    assert_eq!(rt; values.as_slice(), [5, 7].as_slice());
    Ok(())
}

#[test]
fn a_number_that_was_not_given_back_is_missing(rt: HostRuntime) -> Result<(), Fail> {
    let Ok(places) = two_places(rt.alloc()) else {
        panic!(rt; "memory")
    };
    let given = places.give(1, 7);
    let missing = places.take_all(rt.alloc()).err();
    assert_eq!(rt; (given, missing), (true, Some(Unfinished::Missing)));
    Ok(())
}
