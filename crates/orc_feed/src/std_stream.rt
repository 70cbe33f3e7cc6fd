//! Readers and writers of std as sources and sinks, which count their faults. What they tell of their bytes is what std tells of
//! those of the reader or the writer: of standard input and output nothing.
ghost use Rattle.std.specs.Prelude.{◌≡◌};

use crate::{Sink, Source};
use orc_fault::Failed;
use std::io::{Read, Write};

/// A reader or a writer of std, with a count of its faults.
#[derive(Drop)]
pub struct StdStream<T> {
    inner: T,
    faults: u64,
}

/// A reader as a source.
pub type StdSource<R> = StdStream<R>;

/// A writer as a sink.
pub type StdSink<W> = StdStream<W>;

impl<T: Drop> StdStream<T> {
    /// No fault yet.
    pub fn new(inner: T) -> StdStream<T>
        ensures inner { result.inner ≡ inner }
        ensures faults { result.faults ≡ 0 }
    {
        StdStream { inner, faults: 0 }
    }
}

impl<R: Read + Drop> Source for StdStream<R> {
    ghost left = { λ s. R.remaining s.inner };

    ghost faults = { λ s. s.faults };

    fn read(&mut self, to: &mut [u8]) -> Result<usize, Failed> {
        let faults = self.faults;
        match self.inner.read(to) {
            Ok(count) => Ok(count),
            Err(_) => {
                self.faults = faults.saturating_add(1);
                Err(Failed)
            }
        }
    }
}

impl<W: Write + Drop> Sink for StdStream<W> {
    ghost written = { λ s. W.contents s.inner };

    ghost faults = { λ s. s.faults };

    fn write(&mut self, from: &[u8]) -> Result<usize, Failed> {
        let faults = self.faults;
        match self.inner.write(from) {
            Ok(count) => {
                if count == 0 && !from.is_empty() {
                    self.faults = faults.saturating_add(1);
                }
                Ok(count)
            }
            Err(_) => {
                self.faults = faults.saturating_add(1);
                Err(Failed)
            }
        }
    }
}
