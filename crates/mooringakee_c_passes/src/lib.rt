//! Passes that C holds: how they are made, what their calls answer, and how they are given up. `mooringakee_c` exports them.
#![tactic(auto)]

mod answer;
mod ending;
mod make;
mod new_queue;
mod new_set;
mod new_split;
mod on_domain;
mod pass;
mod place;
mod pointer;
mod queue;
mod queue_domain;
mod seat;
mod seating;
mod set_calls;
mod set_domain;
mod split;
mod split_domain;

pub use answer::Answer;
pub use make::{are_free, hand_out, shape_of, split_shape_of};
pub use new_queue::queue_seats;
pub use new_set::set_seats;
pub use new_split::split_seats;
pub use pass::Pass;
pub use seat::Seat;
