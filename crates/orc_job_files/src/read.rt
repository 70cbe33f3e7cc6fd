ghost use Rattle.std.specs.Prelude.{◌≤◌, List, ℕ, IfErr, IfOk, length};
ghost use Rattle.orc_job_files.specs.{JobGrammar.{IsFileOf, Refuses}, OneRecord.{GivesFault, GivesLines}, declared.cause.Cause.{Cause}};
ghost use Rattle.orc_jobs.specs.{GoodLines.{AreGood}, declared.line.Line.{Line}};

use crate::{Cause, FileRefused, read_records};
use orc_jobs::{Lines, MOST_BYTES};
use std::alloc::Global;

/// The lines of a job file. It is refused at its first record that has a cause, or at a record past
/// the first 65,535, whatever is in it. A byte order mark at the start is passed over.
///
/// # Errors
///
/// As `read_records`.
pub fn read_jobs(alloc: Global, bytes: &[u8]) -> Result<Lines, FileRefused<Cause>>
    requires { length bytes.now ≤ MOST_BYTES }
    ensures ok { IfOk result (λ lines. IsFileOf lines bytes.now) }
    ensures good { IfOk result AreGood }
    ensures err { IfErr result (Refuses bytes.now) }

    // A file of lines is read as these, and another is refused as it must be, unless memory runs out.
    ensures only { (file : List Line) → IsFileOf file bytes.now → GivesLines file result }
    ensures bad { (at : ℕ) (why : Cause) → Refuses bytes.now (FileRefused.Malformed at why) → GivesFault (FileRefused.Malformed at why) result }
    ensures many { Refuses bytes.now FileRefused.TooMany → GivesFault FileRefused.TooMany result }
{
    read_records(alloc, bytes)
}
