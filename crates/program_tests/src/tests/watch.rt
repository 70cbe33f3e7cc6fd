//! Lines of a watch file are read and refused as they must be, replies are told as text, and workers work beside each other.

mod meeting;
mod reading;
mod telling;
