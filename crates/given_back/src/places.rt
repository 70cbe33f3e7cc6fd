//! Places with room for a value each.

ghost use Rattle.std.specs.Prelude.{◌≡◌, All, IfOk, IfSome, length};
ghost use Rattle.given_back.specs.Places.{tags};

use counted_slot::{Counted, FREE, Fits, PRESENT, TAKEN};
use raw_box::RawBox;
use std::alloc::{AllocError, Global};
use std::marker::PhantomData;

/// What is true of each value that is given back, by the tag that the places are made with.
pub trait Keeps<T> {
    type Tag;

    ghost holds: { Self.Tag → T → Type 0 };
}

// Space for a value, into which nobody looks while it is shared.
struct Space<T, K: Keeps<T>> {
    raw: RawBox<Option<T>, Global>,
    rule: PhantomData<K>,
}

impl<T, K: Keeps<T>> Fits for Space<T, K> {
    type Tag = K::Tag;

    ghost fits = { λ tag room. IfSome room.raw.value (K.holds tag) };
}

impl<T: Drop, K: Keeps<T>> Space<T, K> {
    fn of(inside: Box<Option<T>>) -> Space<T, K>
        ensures { result.raw.value ≡ inside.value }
    {
        Space {
            raw: RawBox::from_box(inside),
            rule: PhantomData,
        }
    }

    fn open(self) -> Box<Option<T>>
        ensures { result.value ≡ self.raw.value }
    {
        let Space { raw, rule: _ } = self;
        raw.into_box()
    }
}

impl<T: Drop, K: Keeps<T>> Drop for Space<T, K> {
    fn drop(self) {
        drop(self.open());
    }
}

/// Places with room for a value each.
#[derive(Drop)]
pub struct GivenBack<T: Drop, K: Keeps<T>> {
    places: Vec<Counted<Option<Space<T, K>>>>,
}

/// Why the values can't be had.
#[derive(Clone, Copy, Debug, PartialEq, Eq, Drop)]
pub enum Unfinished {
    /// Nothing was given back to one of the places.
    Missing,
    /// Memory was refused.
    NoMemory,
}

impl<T: Drop, K: Keeps<T>> GivenBack<T, K> {
    /// Makes so many places, with room for a value each, of which the rule holds by this tag.
    pub fn new(alloc: Global, many: usize, tag: &K::Tag) -> Result<GivenBack<T, K>, AllocError>
        ensures many { IfOk result (λ made. length (tags made) ≡ many) }
        ensures tag { IfOk result (λ made. All (λ t. t ≡ tag.now) (tags made)) }
    {
        let mut places = Vec::with_capacity(alloc, many)?;
        for _ in 0..many {
            let room = Space::of(Box::new(alloc, None)?);
            places.push(Counted::new(Some(room), tag))?;
        }
        Ok(GivenBack { places })
    }

    /// Gives a value back to this place, and takes no memory for it. Answers false where the place isn't there or another value
    /// was given to it; the value is then dropped.
    pub fn give(&self, at: usize, value: T) -> bool
        requires { All (λ tag. K.holds tag value) (tags self.now) }
    {
        let Some(place) = self.places.get(at) else {
            return false;
        };
        let (found, claim) = place.turn(FREE, TAKEN);
        if found != FREE {
            claim.done();
            return false;
        }
        let Some(room) = claim.put(None, FREE) else {
            return false;
        };
        let mut inside = room.open();
        drop(Box::replace(&mut inside, Some(value)));
        let (found, claim) = place.turn(FREE, TAKEN);
        if found != FREE {
            claim.done();
            return false;
        }
        drop(claim.put(Some(Space::of(inside)), PRESENT));
        true
    }

    /// Takes all values, in the order of their places.
    pub fn take_all(self, alloc: Global) -> Result<Vec<T>, Unfinished>
        ensures many { IfOk result (λ values. length values.items ≡ length (tags self)) }
        ensures each { IfOk result (λ values. (tag : K.Tag) → All (λ t. t ≡ tag) (tags self) → All (λ v. K.holds tag v) values.items) }
    {
        let GivenBack { places } = self;
        let Ok(mut values) = Vec::with_capacity(alloc, places.len()) else {
            return Err(Unfinished::NoMemory);
        };
        for place in places {
            let Some(room) = place.into_inner() else {
                return Err(Unfinished::Missing);
            };
            let Some(value) = Box::into_inner(room.open()) else {
                return Err(Unfinished::Missing);
            };
            let Ok(()) = values.push(value) else {
                return Err(Unfinished::NoMemory);
            };
        }
        Ok(values)
    }
}
