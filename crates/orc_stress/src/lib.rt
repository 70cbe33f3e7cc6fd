//! Drives a container by threads, and judges what came of it.
#![tactic(auto)]

mod agents;
mod container;
mod load;
mod order;
mod pairs;
mod results;
mod runs;
mod seen;
mod settings;
mod tally;

pub use container::{Container, Outcome};
pub use load::{Ask, Load, Mix, Plan};
pub use pairs::{PairLog, value_of};
pub use results::{Counts, judge, print_figures, tell_missing};
pub use runs::{Driven, Rest, drive};
pub use settings::{Domain, Kind, Refused, Settings, Stop, settings_of};
pub use tally::{Answer, Answers, Items, Tally};
