//! What a new domain begins with.

/// The nodes that a new domain has.
#[derive(Clone, Copy)]
pub enum Seed<N> {
    /// None: all roots are null.
    Empty,
    /// One node, with the values 0 and `first`, to which roots 0 and 1 link, so that two roots are needed. `begin` is
    /// the note of the two Moves that make these links.
    Dummy { first: u64, begin: N },
}
