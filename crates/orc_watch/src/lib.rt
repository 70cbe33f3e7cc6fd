//! Watch files: their lines, how they are read, what came of each line, and the text that tells it.
#![tactic(auto)]

mod cause;
mod laws;
mod line;
mod read;
mod record;
mod reply;
mod text;

pub use cause::WatchCause;
pub use laws::watch_records_are_determined;
pub use line::{WatchLine, WatchLines};
pub use read::read_watch;
pub use reply::{WatchList, WatchReply, WatchWord};
pub use text::{CellNumbers, watch_text};
