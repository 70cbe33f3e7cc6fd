//! The board: posters and takers of jobs over a shared queue, a shared rush queue and a shared set.
#![tactic(auto)]

mod again;
mod desk;
mod gate;
mod lists;
mod loops;
mod replies;

pub use again::{TURNS, calls_have_their_turns, put_job, take_job};
pub use desk::{Desk, reply_to, take_one};
pub use gate::{Gate, OpenGate};
pub use lists::{PostList, ReplyList, TakeList};
pub use loops::{post_records, take_rest};
pub use replies::{PostReply, PostWord, Replies, TakeReply, TakeWord};
