//! Containers that stand on a domain.

ghost use Rattle.std.specs.Prelude.{◌≡◌};

use crate::queue_domain::QueueDomain;
use crate::set_domain::SetDomain;
use crate::split_domain::SplitDomain;
use orc_chain_rule::Chain;
use orc_domain::OrcDomain;
use orc_fifo_rule::Fifo;
use orc_queue::Queue;
use orc_set::Set;
use orc_split_rule::Split;
use orc_split_set::SplitSet;

/// A container that stands on a domain.
pub trait OnDomain<L> {
    // the domain that it stands on
    ghost domain_of: { Self → L };

    // The domain that it stands on.
    fn domain(&self) -> &L
        ensures { result.now ≡ domain_of self.now };
}

/// Michael and Scott's queue over a domain whose rows are reclaimed. Like the two sets below it has no parameters, which keeps the
/// proofs of what has it small.
#[derive(Drop)]
pub struct ReclaimingQueue {
    pub(crate) queue: Queue<QueueDomain>,
}

/// The bucketed set over a domain whose rows are reclaimed.
#[derive(Drop)]
pub struct ReclaimingSet {
    pub(crate) set: Set<SetDomain>,
}

/// The split-ordered set over a domain whose rows are reclaimed.
#[derive(Drop)]
pub struct ReclaimingSplit {
    pub(crate) set: SplitSet<SplitDomain>,
}

impl OnDomain<OrcDomain<Fifo>> for ReclaimingQueue {
    ghost domain_of = { λ c. c.queue.links.domain };

    fn domain(&self) -> &OrcDomain<Fifo> {
        &self.queue.links().domain
    }
}

impl OnDomain<OrcDomain<Chain>> for ReclaimingSet {
    ghost domain_of = { λ c. c.set.list.links.domain };

    fn domain(&self) -> &OrcDomain<Chain> {
        &self.set.links().domain
    }
}

impl OnDomain<OrcDomain<Split>> for ReclaimingSplit {
    ghost domain_of = { λ c. c.set.links.domain };

    fn domain(&self) -> &OrcDomain<Split> {
        &self.set.links().domain
    }
}
