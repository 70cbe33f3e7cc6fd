//! Buckets double as keys come, on one thread and on four; keys at the ends of the order are found.

mod calls;
mod domains;
mod threads;
