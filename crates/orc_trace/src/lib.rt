//! Traces: steps of the machine written down as text, played, and audited.
#![tactic(auto)]

mod answers;
mod auditing;
mod leaks;
mod playing;
mod reaching;
mod text;
mod waiting;

pub use answers::{Audit, Leak, Replayed, TraceFault};
pub use auditing::audit;
pub use orc_trace_text::ShapeWord;
pub use playing::replay;
pub use text::{audit_text, fault_text, replay_text};
