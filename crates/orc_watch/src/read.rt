ghost use Rattle.std.specs.Prelude.{List, ℕ, IfErr, IfOk};
ghost use Rattle.orc_job_files.specs.OneRecord.{GivesFault, GivesLines};
ghost use Rattle.orc_watch.specs.{
  WatchGrammar.{IsFileOf, Refuses},
  declared.cause.WatchCause.{WatchCause as Cause},
  declared.line.WatchLine.{WatchLine as Line},
};

use crate::{WatchCause, WatchLines};
use orc_job_files::{FileRefused, read_records};
use std::alloc::Global;

/// The lines of a watch file. It is refused at its first record that has a cause, or at a record past the first 65,535,
/// whatever is in it. A byte order mark at the start is passed over.
///
/// # Errors
///
/// As `read_records`.
pub fn read_watch(alloc: Global, bytes: &[u8]) -> Result<WatchLines, FileRefused<WatchCause>>
    ensures ok { IfOk result (λ lines. IsFileOf lines bytes.now) }
    ensures err { IfErr result (Refuses bytes.now) }

    // A file of lines is read as these, and another is refused as it must be, unless memory runs out.
    ensures only { (file : List Line) → IsFileOf file bytes.now → GivesLines file result }
    ensures bad { (at : ℕ) (why : Cause) → Refuses bytes.now (FileRefused.Malformed at why) → GivesFault (FileRefused.Malformed at why) result }
    ensures many { Refuses bytes.now FileRefused.TooMany → GivesFault FileRefused.TooMany result }
{
    read_records(alloc, bytes)
}
