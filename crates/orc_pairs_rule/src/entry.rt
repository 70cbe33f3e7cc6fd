//! Histories of a cell of two parts.

/// One entry of a cell's history: the agent of a call, and its kind, arguments and answer.
#[derive(Clone, Copy)]
pub enum CellEntry {
    /// The parts that are given were replaced, the others were kept, and these are both parts since.
    Published {
        agent: u32,
        left: Option<u64>,
        right: Option<u64>,
        now_left: u64,
        now_right: u64,
    },
    /// A read found these parts.
    Seen {
        agent: u32,
        left: u64,
        right: u64,
    },
}
