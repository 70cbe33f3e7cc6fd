//! The uses, over the domain that gives each row once and over the one that reclaims its rows; boards whose calls are watched; and a
//! domain under the example's discipline. What is called makes its containers itself, so that no test has one of its own.

mod domain_threads;
mod gates;
mod given_once;
mod list_calls;
mod meeting;
mod queue_calls;
mod set_calls;
mod watched;
