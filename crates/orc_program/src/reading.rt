//! The first step of the program, after its words: the input is read.
ghost use Rattle.std.specs.Prelude.{◌≡◌, ◌≢◌, ◌+◌, IfErr, IfOk, IsErr, OnOk, true};
ghost use Rattle.orc_feed.specs.{Faults.{Rose}, Whole.{TakesAtMost}};
ghost use Rattle.orc_program.specs.Answers.{IsInput, reads};

use orc_feed::{ReadAllError, Source, read_all};
use orc_jobs::MOST_BYTES;
use orc_options::Mode;
use std::alloc::Global;

// The bytes of the input, or one more than it may have; none in a mode that reads nothing.
pub(crate) fn read_input<S: Source>(
    alloc: Global,
    mode: Mode,
    source: &mut S,
) -> Result<Vec<u8>, ReadAllError>
    ensures input { IfOk result (λ v. IsInput (reads mode) (S.left source.old) (S.left source.new) v.items) }
    ensures most { TakesAtMost (MOST_BYTES + 1) (S.left source.old) (S.left source.new) }
    ensures nothing { reads mode ≢ true → (S.left source.new ≡ S.left source.old) × (S.faults source.new ≡ S.faults source.old) }
    ensures unread { IsErr result → reads mode ≡ true }
    ensures answered { OnOk result (S.faults source.new ≡ S.faults source.old) }
    ensures memory { IfErr result (λ e. e ≡ ReadAllError.NoMemory → S.faults source.new ≡ S.faults source.old) }
    ensures failed { IfErr result (λ e. e ≡ ReadAllError.Failed → (reads mode ≡ true) × Rose (S.faults source.old) (S.faults source.new)) }
{
    match mode {
        Mode::Make | Mode::Trial => Ok(Vec::new(alloc)),
        Mode::Run | Mode::Replay | Mode::Audit | Mode::Watch | Mode::Stages => {
            read_all(alloc, source, MOST_BYTES as u64)
        }
    }
}
