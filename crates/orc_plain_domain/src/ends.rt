//! Passes that learn from all others.

ghost use Rattle.std.specs.Prelude.{◌≡◌};
ghost use Rattle.orc_heap.specs.Seats.{IsIdle};
ghost use Rattle.orc_plain_domain.specs.{Ends.{AllHear, AreAll, AreIdle, FirstSawAll, IsNoLonger}, Passes.{IsPassOf, seat_of}};

use crate::domain::{PlainDomain, PlainPass};
use orc_any_domain::learn_all;
use orc_heap::Discipline;

impl<D: Discipline> PlainDomain<D> {
    /// Does nothing: no row of this domain is ever retired.
    pub fn drain(&self, p: &mut PlainPass<D>)
        requires pass { IsPassOf self.now p.old }
        requires idle { IsIdle (seat_of self.now p.old) }
        ensures same { p.new ≡ p.old }
    {}

    /// Lets the first pass learn from all others, twice. All passes have then seen one list.
    pub fn drain_all(&self, passes: &mut [PlainPass<D>])
        requires all { AreAll self.now passes.old }
        requires idle { AreIdle self.now passes.old }
        ensures all { AreAll self.now passes.new }
        ensures idle { AreIdle self.now passes.new }
        ensures own { FirstSawAll self.now passes.new }
        ensures learned { AllHear self.now passes.old passes.new }
        ensures longest { IsNoLonger self.now passes.old passes.new }
    {
        if let Some((first, others)) = passes.split_first_mut() {
            learn_all(self, first, others);
        }
    }
}
