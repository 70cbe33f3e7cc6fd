//! What follows from an answer.
ghost use Rattle.std.specs.Prelude.{◌≡◌, ◌≢◌, ◌<◌, ◌≤◌, ◌⊎◌, [], List, Option, Some, length, true, ℕ};
ghost use Rattle.orc_job_files.specs.{JobGrammar.{IsFileOf, Refuses}, declared.cause.Cause.{Cause}};
ghost use Rattle.orc_jobs.specs.declared.line.Line.{Line};
ghost use Rattle.orc_watch.specs.{
  WatchGrammar.{IsFileOf as IsWatchFile, Refuses as RefusesWatch},
  declared.cause.WatchCause.{WatchCause},
  declared.line.WatchLine.{WatchLine},
};
ghost use Rattle.orc_trace.specs.{
  Answers.{audit_lines, fault_line, replay_line},
  Audit.{IsAudit},
  Replay.{IsReplay, RefusesTrace},
  declared.answers.{Audit.{Audit}, Replayed.{Replayed}, TraceFault.{TraceFault}},
};
ghost use Rattle.orc_options.specs.declared.settings.Settings.{Settings};
ghost use Rattle.orc_program.specs.{
  Answers.{ProgramAnswers, IsInput, IsTooLarge, made_text},
  Refusals.{input_too_large, malformed_line, malformed_watch},
  declared.ended.Ended.{Ended},
};

use orc_job_files::FileRefused;
use orc_jobs::MOST_BYTES;
use orc_options::Mode;
use orc_trace::TraceFault;

/// A law, with nothing to run: settings and bytes have one status, and but for a report, a summary and what came of a watch or of a pipeline one text.
/// So whatever answers a file of lines is its report, and so on.
pub fn inputs_have_one_answer()
    ensures large { (s : Settings) (bytes : List ℕ) (e : Ended) (status : ℕ) (text : List ℕ) → ProgramAnswers s bytes e status text
        → IsTooLarge s.mode bytes → (status ≡ 6) × (text ≡ input_too_large) }
    ensures file { (s : Settings) (bytes : List ℕ) (e : Ended) (status : ℕ) (text : List ℕ) → ProgramAnswers s bytes e status text
        → s.mode ≡ Mode.Run → length bytes ≤ MOST_BYTES → (lines : List Line) → IsFileOf lines bytes → status ≡ 0 }
    ensures record { (s : Settings) (bytes : List ℕ) (e : Ended) (status : ℕ) (text : List ℕ) → ProgramAnswers s bytes e status text
        → s.mode ≡ Mode.Run → length bytes ≤ MOST_BYTES → (place : ℕ) (why : Cause) → Refuses bytes (FileRefused.Malformed place why)
        → (status ≡ 3) × (text ≡ malformed_line place why) }
    ensures make { (s : Settings) (e : Ended) (status : ℕ) (text : List ℕ) → ProgramAnswers s [] e status text
        → s.mode ≡ Mode.Make → (status ≡ 0) × (text ≡ made_text s) }
    ensures trial { (s : Settings) (e : Ended) (status : ℕ) (text : List ℕ) → ProgramAnswers s [] e status text → s.mode ≡ Mode.Trial → status ≡ 0 }
    ensures replay { (s : Settings) (bytes : List ℕ) (e : Ended) (status : ℕ) (text : List ℕ) → ProgramAnswers s bytes e status text
        → s.mode ≡ Mode.Replay → length bytes ≤ MOST_BYTES → (played : Replayed) → IsReplay bytes played
        → (status ≡ 0) × (text ≡ replay_line played) }
    ensures audit { (s : Settings) (bytes : List ℕ) (e : Ended) (status : ℕ) (text : List ℕ) → ProgramAnswers s bytes e status text
        → s.mode ≡ Mode.Audit → length bytes ≤ MOST_BYTES → (audit : Audit) → IsAudit bytes audit
        → (status ≡ 0) × (text ≡ audit_lines audit) }
    ensures fault { (s : Settings) (bytes : List ℕ) (e : Ended) (status : ℕ) (text : List ℕ) → ProgramAnswers s bytes e status text
        → (s.mode ≡ Mode.Replay) ⊎ (s.mode ≡ Mode.Audit) → length bytes ≤ MOST_BYTES → (why : TraceFault) → why ≢ TraceFault.NoMemory
        → RefusesTrace bytes why → (status ≡ 8) × (text ≡ fault_line why) }
    ensures watch { (s : Settings) (bytes : List ℕ) (e : Ended) (status : ℕ) (text : List ℕ) → ProgramAnswers s bytes e status text
        → s.mode ≡ Mode.Watch → length bytes ≤ MOST_BYTES → (lines : List WatchLine) → IsWatchFile lines bytes → status ≡ 0 }
    ensures watch_record { (s : Settings) (bytes : List ℕ) (e : Ended) (status : ℕ) (text : List ℕ) → ProgramAnswers s bytes e status text
        → s.mode ≡ Mode.Watch → length bytes ≤ MOST_BYTES → (place : ℕ) (why : WatchCause) → RefusesWatch bytes (FileRefused.Malformed place why)
        → (status ≡ 3) × (text ≡ malformed_watch place why) }
    ensures stages { (s : Settings) (bytes : List ℕ) (e : Ended) (status : ℕ) (text : List ℕ) → ProgramAnswers s bytes e status text
        → s.mode ≡ Mode.Stages → length bytes ≤ MOST_BYTES → (lines : List Line) → IsFileOf lines bytes → status ≡ 0 }
    ensures stages_record { (s : Settings) (bytes : List ℕ) (e : Ended) (status : ℕ) (text : List ℕ) → ProgramAnswers s bytes e status text
        → s.mode ≡ Mode.Stages → length bytes ≤ MOST_BYTES → (place : ℕ) (why : Cause) → Refuses bytes (FileRefused.Malformed place why)
        → (status ≡ 3) × (text ≡ malformed_line place why) }
{}

/// A law, with nothing to run: of an input that is told, the bytes that are answered are all, or more than an input may have.
pub fn inputs_are_read_whole()
    ensures whole { (told bytes : List ℕ) (after : Option (List ℕ)) → IsInput true (Some told) after bytes → length told ≤ MOST_BYTES
        → (bytes ≡ told) × (after ≡ Some []) }
    ensures more { (told bytes : List ℕ) (after : Option (List ℕ)) → IsInput true (Some told) after bytes → MOST_BYTES < length told
        → MOST_BYTES < length bytes }
{}
