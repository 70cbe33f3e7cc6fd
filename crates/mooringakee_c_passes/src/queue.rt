//! The calls of a queue.

ghost use Rattle.std.specs.Prelude.{◌≡◌, ◌⊎◌};
ghost use Rattle.mooringakee_c_passes.specs.{QueueCalls.{AnswersPut, AnswersTake}, Seats.{AtQueue, IsSeat}, declared.seat.Seat.{Seat}};

use crate::answer::Answer;
use crate::on_domain::ReclaimingQueue;
use crate::place::AgentPlaceOn;
use orc_fifo_rule::Fifo;
use orc_history::{QueueRefused, SharedQueue};

/// An agent's place at a queue.
pub(crate) type QueuePlace = AgentPlaceOn<Fifo, ReclaimingQueue>;

impl QueuePlace {
    // Puts a value at the back.
    pub(crate) fn put(&mut self, value: u64) -> Answer
        requires { IsSeat (Seat.Queue self.old) }
        ensures seat { IsSeat (Seat.Queue self.new) }
        ensures answer { AtQueue (AnswersPut value) (Seat.Queue self.old) result (Seat.Queue self.new) }
    {
        match self
            .container
            .queue
            .enqueue(&mut self.pass, value, self.turns)
        {
            Ok(_) => Answer::Done,
            Err(QueueRefused::Again) => Answer::Again,
            Err(QueueRefused::NoNode) => Answer::Full,
            Err(QueueRefused::Positions) => Answer::Positions,
        }
    }

    // Takes the value at the front.
    pub(crate) fn take(&mut self, value: &mut u64) -> Answer
        requires { IsSeat (Seat.Queue self.old) }
        ensures seat { IsSeat (Seat.Queue self.new) }
        ensures answer { AtQueue (AnswersTake value.new) (Seat.Queue self.old) result (Seat.Queue self.new) }
        ensures kept { (result ≡ Answer.Done) ⊎ (value.new ≡ value.old) }
    {
        match self.container.queue.dequeue(&mut self.pass, self.turns) {
            Ok(Some((taken, _))) => {
                *value = taken;
                Answer::Done
            }
            Ok(None) => Answer::Empty,
            Err(_) => Answer::Again,
        }
    }
}
