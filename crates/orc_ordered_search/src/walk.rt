//! How far a search has come, and how it ended.

use orc_heap::Held;

/// How far a search has come: the left place, the first of the marked nodes behind it, if there is one, and the node
/// to which these lead, with its rank. It went past so many unmarked nodes which it counts, up to 9.
pub struct Walk<K> {
    pub left: Option<Held>,
    pub first: Option<Held>,
    pub at: Held,
    pub rank: K,
    pub passed: u32,
}

/// How a search ended.
pub enum Searched {
    /// A link moved meanwhile.
    Over,
    /// No unmarked node has the rank, which belongs here.
    Absent {
        left: Option<Held>,
        first: Option<Held>,
        right: Option<Held>,
        passed: u32,
    },
    /// This node behind the left place and a run of marked nodes has the rank, and leads to the next one.
    Present {
        left: Option<Held>,
        first: Option<Held>,
        node: Held,
        next: Option<Held>,
        passed: u32,
    },
}

/// One step of a search.
pub enum Stepped<K> {
    On(Walk<K>),
    End(Searched),
}
