//! Nodes that are to be linked.

ghost use Rattle.std.specs.Prelude.{◌≡◌};
ghost use Rattle.orc_split_set.specs.{NewNodes.{kind_of, place_for, node_value}, SplitSearches.{rank_of_place}};

use crate::order::SplitPlace;

/// What a node stands for that is to be linked.
#[derive(Clone, Copy)]
pub enum NewNode {
    /// This key.
    Key(u64),
    /// The beginning of this bucket.
    Dummy(u32),
}

impl NewNode {
    // The first value of the node.
    pub(crate) fn value(self) -> u64
        ensures { result ≡ node_value self }
    {
        match self {
            NewNode::Key(key) => key,
            NewNode::Dummy(bucket) => u64::from(bucket),
        }
    }

    // The second value of the node.
    pub(crate) fn kind(self) -> u64
        ensures { result ≡ kind_of self }
    {
        match self {
            NewNode::Key(_) => 1,
            NewNode::Dummy(_) => 0,
        }
    }

    // The place in split order where the node belongs.
    pub(crate) fn place(self) -> SplitPlace
        ensures { rank_of_place result ≡ place_for self }
    {
        let value = self.value();
        let has_key = self.kind() == 1;
        SplitPlace { value, has_key }
    }
}
