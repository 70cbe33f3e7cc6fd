//! The whole program over any source and sink: read, answer, write.
ghost use Rattle.std.specs.Prelude.{◌≡◌, ◌≢◌, ◌+◌, ◌≤◌, ◌⊎◌, List, ℕ, Some, length};
ghost use Rattle.std.specs.Io.KnownBytes.{Appends, Keeps};
ghost use Rattle.orc_feed.specs.{Faults.{Rose}, Whole.{AppendsPrefix, TakesAtMost}};
ghost use Rattle.orc_job_files.specs.JobGrammar.{IsFileOf};
ghost use Rattle.orc_jobs.specs.declared.line.Line.{Line};
ghost use Rattle.orc_options.specs.Settings.{AskFor};
ghost use Rattle.orc_program.specs.{Answers.{AnswersWords, AskToRead}, Ended.{EndsSafely}};

use crate::answer::Setup;
use crate::reading::read_input;
use crate::writing::{refuse_words, write_text};
use crate::{CommandWords, Ended};
use orc_board::Gate;
use orc_fault::NoMemory;
use orc_feed::{ReadAllError, Sink, Source};
use orc_jobs::MOST_BYTES;
use orc_options::{Mode, Refused, settings_of};
use std::alloc::Global;
use std::sync::Wait;
use std::thread::Threads;

/// In mode run, reads a job file, works through it with posters and takers on threads and writes the report; in mode trial, reads
/// nothing, works through generated lines in the same way and writes the summary; in mode make, reads nothing and writes the
/// generated lines as a job file; in mode replay, reads a trace, plays it and writes what it leaves; in mode audit, reads a
/// trace and writes its worst backlog, the lives of its rows and its first leak; in mode watch, reads a watch file, works through it
/// with workers on threads over one cell and writes what came of each line; in mode stages, reads a job file, sends its jobs through a
/// pipeline of queues on threads and writes what came of each; or writes why not. The words are read by `clap`, as
/// `settings_of` says.
///
/// | Status | Comes | Written |
/// |---|---|---|
/// | 0 | done | the report, the summary, the job file, the line of the census, the lines of the audit, those of the watch, or those of the pipeline |
/// | 2 | `clap` refuses the words for another cause than want of memory; help and a version count as refused | `words refused` |
/// | 3 | a record is outside the grammar | `line N: CAUSE` |
/// | 4 | a read failed | nothing |
/// | 5 | a write failed | a prefix of what was to be written |
/// | 6 | there are too many bytes or records | `input too large` |
/// | 7 | memory was refused | nothing |
/// | 8 | the bytes are refused as a trace | `shape: WORD`, `step N: unreadable`, `step N: not allowed` |
///
/// The order is: words, reading, size, grammar, the run, writing. What has ended of a run, a watch or a pipeline is left at rest in
/// `ended`, also where a write fails.
pub fn orc_main<R: Threads + Wait + Sync, S: Source, K: Sink, G: Gate + Sync>(
    rt: &R,
    alloc: Global,
    words: &CommandWords,
    source: &mut S,
    sink: &mut K,
    gate: &G,
    ended: &mut Ended,
) -> u8
    requires { ended.old ≡ Ended.Nothing }
    ensures statuses { (result ≡ 0) ⊎ (result ≡ 2) ⊎ (result ≡ 3) ⊎ (result ≡ 4) ⊎ (result ≡ 5) ⊎ (result ≡ 6) ⊎ (result ≡ 7) ⊎ (result ≡ 8) }

    // The answer to the words and the input is written: all of its text with its own status, or a front of it with 5.
    ensures answered { result ≢ 4 → result ≢ 5 → result ≢ 7 → (text : List ℕ)
        × AnswersWords words.now (S.left source.old) (S.left source.new) ended.new result text
        × Appends (K.written sink.old) (K.written sink.new) text }
    ensures cut_short { result ≡ 5 → (status : ℕ) × (text : List ℕ)
        × AnswersWords words.now (S.left source.old) (S.left source.new) ended.new status text
        × AppendsPrefix (K.written sink.old) (K.written sink.new) text }
    ensures unanswered { (result ≡ 4) ⊎ (result ≡ 7) → (ended.new ≡ Ended.Nothing) × Keeps (K.written sink.old) (K.written sink.new) }

    // So a file of lines is worked through and reported, unless a read or a write failed or memory was refused.
    ensures complete { (bytes : List ℕ) (lines : List Line) → S.left source.old ≡ Some bytes → AskFor words.now Mode.Run
        → length bytes ≤ MOST_BYTES → IsFileOf lines bytes
        → (result ≡ 0) ⊎ (result ≡ 4) ⊎ (result ≡ 5) ⊎ (result ≡ 7) }

    // Wherever a run has ended, no row was used again while it was linked or held, nor twice; and what was given was freed or is linked.
    ensures safe { EndsSafely ended.new }

    // What is read: nothing unless the words ask for a mode that reads, and no more than one byte past the limit.
    ensures nothing_read { ¬ AskToRead words.now → (S.left source.new ≡ S.left source.old) × (S.faults source.new ≡ S.faults source.old) }
    ensures most_read { TakesAtMost (MOST_BYTES + 1) (S.left source.old) (S.left source.new) }

    // Which faults there were.
    ensures read_fault { result ≡ 4 → AskToRead words.now × Rose (S.faults source.old) (S.faults source.new) }
    ensures no_read_fault { result ≢ 4 → S.faults source.new ≡ S.faults source.old }
    ensures write_fault { result ≡ 5 → Rose (K.faults sink.old) (K.faults sink.new) }
    ensures no_write_fault { result ≢ 5 → K.faults sink.new ≡ K.faults sink.old }
{
    let settings = match settings_of(alloc, words) {
        Ok(settings) => settings,
        Err(Refused::Words) => return refuse_words(sink),
        Err(Refused::NoMemory) => return 7,
    };
    let bytes = match read_input(alloc, settings.mode, source) {
        Ok(bytes) => bytes,
        Err(ReadAllError::Failed) => return 4,
        Err(ReadAllError::NoMemory) => return 7,
    };
    let setup = Setup {
        rt,
        alloc,
        settings,
        gate,
    };
    match setup.answer_of(bytes.as_slice(), ended) {
        Ok(answer) => write_text(sink, answer.text.bytes(), answer.status),
        Err(NoMemory) => 7,
    }
}
