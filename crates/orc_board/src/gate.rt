//! What is called ahead of each line and of each take.

/// A place where a worker passes before it works, so that a test can hold it there. No contract sees what it does.
pub trait Gate {
    /// `worker` is the number of the worker's agent, and `call` counts its lines or its takes from 0.
    fn before(&self, worker: u32, call: u64);
}

/// A gate that holds nobody.
pub struct OpenGate;

impl Gate for OpenGate {
    fn before(&self, _worker: u32, _call: u64) {}
}
