//! Teams of workers on threads: their rooms and seats, their work, and what they learn from each other.
#![tactic(auto)]

mod gathering;
mod learning;
mod rooms;
mod seating;
mod team;
mod workplace;

pub use gathering::Gather;
pub use learning::learn_from_team;
pub use rooms::{Reserved, Room, reserve, reserve_room};
pub use seating::{hand_back, seat};
pub use team::{Worker, run_workers};
pub use workplace::Workplace;
