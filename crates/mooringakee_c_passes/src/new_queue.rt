//! New queues.

ghost use Rattle.std.specs.Prelude.{◌≡◌, IfOk, length};
ghost use Rattle.orc_fifo_rule.specs.{declared.fifo.{Fifo.{Fifo}, FifoNote.{FifoNote}}};
ghost use Rattle.orc_domain.specs.{Passes.{domain_bounds}, declared.domain.OrcDomain.{OrcDomain}};
ghost use Rattle.orc_shared_words.specs.Lists.{EachAt};
ghost use Rattle.orc_words.specs.Bounds.{bounds_of};
ghost use Rattle.mooringakee_c_passes.specs.{Making.{IsNewQueueSeat}, declared.seat.Seat.{Seat}};

use crate::ending::Places;
use crate::on_domain::ReclaimingQueue;
use crate::queue::QueuePlace;
use crate::queue_domain::QueueDomain;
use crate::seat::Seat;
use crate::seating::{HasSeats, new_domain, seat_all};
use orc_domain::OrcPass;
use orc_fault::NoMemory;
use orc_fifo_rule::{Fifo, FifoNote};
use orc_heap::Seed;
use orc_queue::Queue;
use orc_words::Shape;
use std::alloc::Global;

impl HasSeats<Places<Fifo>, OrcPass<Fifo>> for ReclaimingQueue {
    ghost seat_of = { λ place. Seat.Queue place };

    fn seat(place: QueuePlace) -> Seat
        ensures { result ≡ Seat.Queue place }
    {
        Seat::Queue(place)
    }
}

/// A new queue of this shape, as a place for each agent, in order.
pub fn queue_seats(alloc: Global, shape: &Shape, turns: u64) -> Result<Vec<Box<Seat>>, NoMemory>
    requires roots { (bounds_of shape.now).roots ≡ 2 }
    ensures many { IfOk result (λ seats. length seats.items ≡ (bounds_of shape.now).agents) }
    ensures places { IfOk result (λ seats. (domain : OrcDomain Fifo FifoNote) × (domain_bounds domain ≡ bounds_of shape.now)
        × EachAt (λ agent b. IsNewQueueSeat domain turns agent b.value) seats.items) }
{
    let seed = Seed::Dummy {
        first: 0,
        begin: FifoNote::Begin,
    };
    let (domain, passes, places) = new_domain(alloc, shape, seed)?;
    let queue = Queue::new(QueueDomain { domain });
    seat_all(alloc, ReclaimingQueue { queue }, places, passes, turns)
}
