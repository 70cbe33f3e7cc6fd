ghost use Rattle.std.specs.Prelude.{◌≡◌, ◌≢◌, List, ℕ};
ghost use Rattle.orc_job_files.specs.{JobGrammar.{HasCause, record_of}, declared.cause.Cause.{Cause}};
ghost use Rattle.orc_jobs.specs.{Line.{IsLine}, declared.line.Line.{Line}};

/// A law, with nothing to run: a record is the spelling of one line at most, has one cause at most,
/// and never both or neither.
pub fn records_are_determined()
    ensures line { (a b : Line) → IsLine a → IsLine b → record_of a ≡ record_of b → a ≡ b }
    ensures cause { (fields : List (List ℕ)) (a b : Cause) → HasCause fields a → HasCause fields b
        → a ≡ b }
    ensures not_both { (line : Line) (why : Cause) → IsLine line → ¬ HasCause (record_of line) why }
    ensures not_neither { (fields : List (List ℕ)) → ((why : Cause) → ¬ HasCause fields why)
        → ¬ ((line : Line) → IsLine line → fields ≢ record_of line) }
{}
