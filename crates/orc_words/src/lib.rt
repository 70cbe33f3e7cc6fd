//! The words of a reclaimed table: how each is packed, and where each stands.
#![tactic(auto)]

mod list;
mod new_table;
mod operation;
mod packed;
mod place;
mod shape;

pub use list::Words;
pub use new_table::{a_new_table_has_each_word, new_words};
pub use operation::Operation;
pub use packed::{
    Counter, DECREMENT, INCREMENT, NEW_COUNTER, RETIRED, RowGate, RowLink, named, pack_counter,
    pack_gate, pack_link, read_counter, read_gate, read_link,
};
pub use place::{Word, different_words_have_different_places, link_of_row, place_of};
pub use shape::{HIGHEST_LIMIT, Shape, ShapeFault};
