ghost use Rattle.std.specs.Prelude.{List, ◌^◌, ◌<◌, ℕ};
ghost use Rattle.std.specs.Io.{ReadsAtMost};
ghost use Rattle.std.specs.Io.KnownBytes.{ReadConsumes};
ghost use Rattle.std.specs.declared.option.Option.{Option};
ghost use Rattle.orc_feed.specs.Faults.{CountsFaults};

use orc_fault::Failed;

/// Bytes to read, and a count of the reads that failed.
pub trait Source {
    // The bytes that are left, where they are told.
    ghost left: { Self → Option (List ℕ) };

    // How many faults there were. The count stops at the last value of a u64.
    ghost faults: { Self → ℕ };

    /// Takes bytes from the front of those left and puts them at the front of `to`. `Ok(0)` for a
    /// slice with room is the end. A failed read takes nothing.
    fn read(&mut self, to: &mut [u8]) -> Result<usize, Failed>
        ensures bound { ReadsAtMost result to.new }
        ensures bytes { ReadConsumes (left self.old) (left self.new) result to.new }
        ensures counted { CountsFaults (faults self.old) (faults self.new) result }
        ensures limit { faults self.new < 2 ^ 64 };
}
