//! The program as one call: a job file is read, worked through and reported, or generated, or generated work is summed up, or a
//! trace is played, a watch file is worked through, or jobs go through
//! a pipeline.
#![tactic(auto)]

mod answer;
mod ended;
mod jobs_mode;
mod laws;
mod make_mode;
mod reading;
mod refusing;
mod stages_mode;
mod top_call;
mod trace_mode;
mod trial_mode;
mod watch_mode;
mod working;
mod writing;

pub use ended::Ended;
pub use laws::{inputs_are_read_whole, inputs_have_one_answer};
pub use orc_feed::{StdSink, StdSource};
pub use orc_options::CommandWords;
pub use orc_run::{Finished, SetRest};
pub use orc_stages_run::StagesFinished;
pub use orc_watch_domain::WatchFinished;
pub use top_call::orc_main;
pub use writing::refuse_words;
