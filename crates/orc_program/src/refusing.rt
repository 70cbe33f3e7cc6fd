//! How an input is refused.
ghost use Rattle.std.specs.Prelude.{◌≡◌, List, ℕ, IfOk};
ghost use Rattle.orc_program.specs.Refusals.{AnswersFault, cause_word, input_too_large, record_line, watch_cause_word};

use crate::answer::Answer;
use orc_fault::NoMemory;
use orc_job_files::{Cause, FileRefused};
use orc_jobs::Text;
use orc_watch::WatchCause;
use std::alloc::Global;

/// What can be wrong with a record, which has a word.
pub(crate) trait Worded: Drop {
    // the word of a cause
    ghost spelled: { Self → List ℕ };

    /// The word of a cause.
    fn word(&self) -> &'static str
        ensures { result.now ≡ spelled self.now };
}

impl Worded for Cause {
    ghost spelled = { cause_word };

    fn word(&self) -> &'static str {
        match self {
            Cause::Fields => "fields",
            Cause::Utf8 => "utf8",
            Cause::Verb => "verb",
            Cause::Id => "id",
            Cause::Op => "op",
            Cause::Sum => "sum",
        }
    }
}

impl Worded for WatchCause {
    ghost spelled = { watch_cause_word };

    fn word(&self) -> &'static str {
        match self {
            WatchCause::Fields => "fields",
            WatchCause::Utf8 => "utf8",
            WatchCause::Verb => "verb",
            WatchCause::Value => "value",
        }
    }
}

// Why a file isn't worked through.
pub(crate) fn refuse_file<C: Worded>(
    alloc: Global,
    fault: FileRefused<C>,
) -> Result<Answer, NoMemory>
    ensures { IfOk result (λ a. AnswersFault C.spelled fault a.status a.text) }
{
    match fault {
        FileRefused::Malformed { line, cause } => refuse_record(alloc, line, cause.word()),
        FileRefused::TooMany => too_large(alloc),
        FileRefused::NoMemory => Err(NoMemory),
    }
}

// That the input is too large.
pub(crate) fn too_large(alloc: Global) -> Result<Answer, NoMemory>
    ensures { IfOk result (λ a. (a.status ≡ 6) × (a.text ≡ input_too_large)) }
{
    let text = Text::from_slice(alloc, b"input too large\n")?;
    Ok(Answer { status: 6, text })
}

// The line that names a record, and by a word what is wrong with it.
fn refuse_record(alloc: Global, line: u32, word: &str) -> Result<Answer, NoMemory>
    ensures { IfOk result (λ a. (a.status ≡ 3) × (a.text ≡ record_line line word.now)) }
{
    let text = format!(in alloc; "line {line}: {word}\n")?;
    Ok(Answer {
        status: 3,
        text: Text::from_string(text),
    })
}
