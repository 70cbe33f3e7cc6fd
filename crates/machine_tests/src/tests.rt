//! What is run, and what was worked out by hand.

mod layout;
mod machine;
mod playing;
mod soundness;
mod trace_text;
mod traces;
mod words;
