//! What a split-ordered set tells of itself.

ghost use Rattle.std.specs.Prelude.{◌≡◌, ◌⊎◌};
ghost use Rattle.mooringakee_c_passes.specs.{Seats.{AtSplit, IsSeat}, SplitCalls.{CountsBuckets}, declared.seat.Seat.{Seat}};

use crate::answer::Answer;
use crate::on_domain::ReclaimingSplit;
use crate::place::AgentPlaceOn;
use orc_split_rule::Split;

/// An agent's place at a split-ordered set.
pub(crate) type SplitSetPlace = AgentPlaceOn<Split, ReclaimingSplit>;

impl SplitSetPlace {
    // Tells how many buckets there are.
    pub(crate) fn buckets(&mut self, count: &mut u32) -> Answer
        requires { IsSeat (Seat.Split self.old) }
        ensures seat { IsSeat (Seat.Split self.new) }
        ensures answer { AtSplit (CountsBuckets count.new) (Seat.Split self.old) result (Seat.Split self.new) }
        ensures kept { (result ≡ Answer.Done) ⊎ (count.new ≡ count.old) }
    {
        let Ok(size) = self.container.set.size(&mut self.pass, self.turns) else {
            return Answer::Again;
        };
        *count = size;
        Answer::Done
    }
}
