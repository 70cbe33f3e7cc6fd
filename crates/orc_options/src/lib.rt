//! The words of the command line, and the settings that they give, read by `clap`.
#![tactic(auto)]

mod command;
mod ranges;
mod settings;
mod words;

pub use settings::{Mode, Refused, SetKind, Settings, settings_of, words_have_one_answer};
pub use words::CommandWords;
