//! The sets that a run can have.

ghost use Rattle.std.specs.Prelude.{◌≡◌};
ghost use Rattle.orc_run.specs.Sets.{set_given, set_linked, set_reused};

use orc_chain_rule::Chain;
use orc_domain::OrcRest;
use orc_split_rule::Split;

/// Which set a run has.
#[derive(Clone, Copy, Drop)]
pub enum SetChoice {
    /// So many of Harris's lists, 1 to 256: an id stands in that of its remainder.
    Lists(u32),
    /// Shalev and Shavit's split-ordered set, which doubles its buckets up to 256.
    Split,
}

/// The domain of a run's set at rest, with the journal of all that happened on it.
#[derive(Drop)]
pub enum SetRest {
    /// Of lists.
    Lists(OrcRest<Chain>),
    /// Of a split-ordered set.
    Split(OrcRest<Split>),
}

impl SetRest {
    /// How many rows were given, each as often as it was.
    pub fn given(&self) -> u64
        ensures { result ≡ set_given self.now }
    {
        match self {
            SetRest::Lists(rest) => rest.given(),
            SetRest::Split(rest) => rest.given(),
        }
    }

    /// How many rows were freed, to be given again, each as often as it was.
    pub fn reused(&self) -> u64
        ensures { result ≡ set_reused self.now }
    {
        match self {
            SetRest::Lists(rest) => rest.reused(),
            SetRest::Split(rest) => rest.reused(),
        }
    }

    /// How many rows are out.
    pub fn linked(&self) -> u32
        ensures { result ≡ set_linked self.now }
    {
        match self {
            SetRest::Lists(rest) => rest.linked(),
            SetRest::Split(rest) => rest.linked(),
        }
    }
}
