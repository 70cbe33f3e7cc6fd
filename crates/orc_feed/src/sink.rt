ghost use Rattle.std.specs.Prelude.{List, ◌^◌, ◌<◌, ℕ};
ghost use Rattle.std.specs.Io.{WritesAtMost};
ghost use Rattle.std.specs.Io.KnownBytes.{WriteAppends};
ghost use Rattle.std.specs.declared.option.Option.{Option};
ghost use Rattle.orc_feed.specs.Faults.{CountsWriteFaults};

use orc_fault::Failed;

/// Bytes that were written, and a count of the writes that failed.
pub trait Sink {
    // The bytes that were written, where they are told.
    ghost written: { Self → Option (List ℕ) };

    // How many faults there were. The count stops at the last value of a u64.
    ghost faults: { Self → ℕ };

    /// Appends bytes from the front of `from`. A failed write appends nothing. To take nothing of a piece
    /// that isn't empty is a fault too.
    fn write(&mut self, from: &[u8]) -> Result<usize, Failed>
        ensures bound { WritesAtMost result from.now }
        ensures bytes { WriteAppends (written self.old) (written self.new) result from.now }
        ensures counted { CountsWriteFaults from.now (faults self.old) (faults self.new) result }
        ensures limit { faults self.new < 2 ^ 64 };
}
