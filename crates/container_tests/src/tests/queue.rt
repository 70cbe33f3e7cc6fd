//! The queue. Its calls are run over each domain in `uses`.

mod examples;
