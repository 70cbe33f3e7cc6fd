//! Lines of job files, what they hold, and what each line is worth.
#![tactic(auto)]

mod laws;
mod line;
mod lines;
mod number;
mod text;
mod value;

pub use laws::values_are_determined;
pub use line::{Job, Line};
pub use lines::{LineList, Lines, MOST_BYTES};
pub use number::{is_number_list, number_of};
pub use text::Text;
pub use value::job_value;
