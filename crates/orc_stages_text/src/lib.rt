//! The text of a run of the pipeline: what came of each record, what each stage did, and what came out.
#![tactic(auto)]

mod text;

pub use text::stages_text;
