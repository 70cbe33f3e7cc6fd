//! The five counts of a state.

/// What is counted in a state.
#[derive(Clone, Copy, Debug, PartialEq, Eq)]
pub struct Census {
    /// The rows that are out.
    pub out: u32,
    /// The rows with the retired bit.
    pub retired: u32,
    /// The handover words that aren't 0.
    pub handed: u32,
    /// The entries of all work lists.
    pub listed: u32,
    /// The rows that are out and are the target of a link word, in a root or in a row that is out.
    pub linked: u32,
}
