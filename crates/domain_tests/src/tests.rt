//! The heap, shared words, both boards, and nodes over both domains: given, linked, held, reused, and counted at rest.

mod calls;
mod crossing;
mod heap;
mod job;
mod moving;
mod nodes;
mod plain;
mod plain_board;
mod reclaiming;
mod rests;
mod steps;
mod words;
