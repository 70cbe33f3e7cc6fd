//! What a search along ordered chains has seen and has in hand, the search itself, and what the turns of a set's calls do, whatever
//! discipline the chains obey.
#![tactic(auto)]

mod answer;
mod call;
mod in_hand;
mod insert;
mod rank;
mod remove;
mod search;
mod set_rank;
mod turn;
mod walk;

pub use call::{Call, answer_found};
pub use in_hand::{let_all_go, let_go, link_to};
pub use insert::{add_node, answer_of, insert_found, turn_of};
pub use rank::Rank;
pub use remove::mark_node;
pub use search::search_chain;
pub use set_rank::SetRank;
pub use turn::InsertTurn;
pub use walk::Searched;
