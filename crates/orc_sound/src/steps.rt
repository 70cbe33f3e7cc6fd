//! A step of a journal of noted steps.

use orc_core::Op;
use orc_words::RowLink;

/// A step of an agent, the link that its caller wanted a load to show, and a note.
#[derive(Clone, Copy)]
pub struct Step<N> {
    pub agent: u32,
    pub op: Op,
    pub want: Option<RowLink>,
    pub note: Option<N>,
}
