//! Where the words of a table that threads share lie: the word of enrolments, each root, each row and each agent's words on
//! cache lines of their own, of eight words each.
#![tactic(auto)]

mod laid;
mod layout;

pub use laid::laid_words;
pub use layout::{Layout, different_places_have_different_indices};
