//! What agents do with nodes. A node's id is its place in the order in which nodes were given.

/// A link to a node, or to none, with or without a mark.
#[derive(Clone, Copy)]
pub struct Link {
    pub to: Option<u64>,
    pub mark: bool,
}

/// Where a link stands: at a root, or in a node, which has one link or two.
#[derive(Clone, Copy)]
pub enum Place {
    /// The link of a root.
    Root(u32),
    /// The first link of a node.
    Next(u64),
    /// The second link of a node, where nodes have two.
    Side(u64),
}

/// What an agent does with the heap.
#[derive(Clone, Copy)]
pub enum Act {
    /// A new node with no values and null links is given to the agent.
    Give,
    /// Sets the first (0) or second (1) value of a node that was given to the agent and to which no Move made a link.
    Fill {
        id: u64,
        which: u32,
        value: u64,
    },
    /// Sets the first link of a node that was given to the agent and to which no Move made a link.
    Aim {
        id: u64,
        to: Option<u64>,
    },
    /// The same for the second link, where nodes have two.
    AimSide {
        id: u64,
        to: Option<u64>,
    },
    /// Finds this link.
    Look {
        place: Place,
        link: Link,
    },
    /// Changes a link that is `from`.
    Move {
        place: Place,
        from: Link,
        to: Link,
    },
    /// Finds another link than the wanted one.
    Miss {
        place: Place,
        wanted: Link,
        found: Link,
    },
}

/// An act of an agent, with the note of the container that it serves.
#[derive(Clone, Copy)]
pub struct Event<N> {
    pub agent: u32,
    pub act: Act,
    pub note: Option<N>,
}
