ghost use Rattle.std.specs.Prelude.{◌≡◌, ◌≢◌, IfNone, IfSome, codes, false, true};
ghost use Rattle.orc_job_files.specs.{
  JobGrammar.{HasCause, IsOpWord, record_of},
  Laws.JobLines.{known_by_record, line_has_no_cause, record_has_one_cause},
};
ghost use Rattle.orc_jobs.specs.{
  Line.{IsLine, TakesText, operation_word},
  Numbers.{IsNumberList},
  declared.line.Job.{Job},
};

use crate::{Cause, FromRecord, RecordRefused, field_of, is_text, is_word};
use csv::ByteRecord;
use orc_jobs::{Job, Line, Text, is_number_list, number_of};
use std::alloc::Global;

impl FromRecord for Line {
    type Cause = Cause;

    ghost spelling = { record_of };

    ghost is_line = { IsLine };

    ghost has_cause = { HasCause };

    ghost same_line = { known_by_record };

    ghost no_cause = { line_has_no_cause };

    ghost one_cause = { record_has_one_cause };

    fn from_record(alloc: Global, row: &ByteRecord) -> Result<Line, RecordRefused<Cause>> {
        let verb = field_of(row, 0);
        let is_drop = is_word(verb, b"drop");
        if row.len() != wanted_fields(is_drop) {
            return Err(RecordRefused::Cause(Cause::Fields));
        }
        if !is_text(row) {
            return Err(RecordRefused::Cause(Cause::Utf8));
        }
        if !is_verb(verb) {
            return Err(RecordRefused::Cause(Cause::Verb));
        }
        let Some(id) = number_of(field_of(row, 1)) else {
            return Err(RecordRefused::Cause(Cause::Id));
        };
        if is_drop {
            return Ok(Line::Drop { id });
        }
        let Some(op) = op_of(field_of(row, 2)) else {
            return Err(RecordRefused::Cause(Cause::Op));
        };
        let text = field_of(row, 3);
        if !takes(op, text) {
            return Err(RecordRefused::Cause(Cause::Sum));
        }
        let is_rush = is_word(verb, b"rush");
        let text = Text::from_slice(alloc, text)?;
        if is_rush {
            Ok(Line::Rush { id, op, text })
        } else {
            Ok(Line::Post { id, op, text })
        }
    }
}

// How many fields a record has.
fn wanted_fields(is_drop: bool) -> usize
    ensures drop { is_drop ≡ true → result ≡ 2 }
    ensures job { is_drop ≡ false → result ≡ 4 }
{
    if is_drop { 2 } else { 4 }
}

// Whether a word is one of the three that a record begins with.
fn is_verb(word: &[u8]) -> bool
    ensures yes { result ≡ true → word.now ≢ codes "drop" → word.now ≢ codes "rush" → word.now ≡ codes "post" }
    ensures no { result ≡ false → (word.now ≢ codes "post") × (word.now ≢ codes "rush") × (word.now ≢ codes "drop") }
{
    is_word(word, b"post") || is_word(word, b"rush") || is_word(word, b"drop")
}

// Whether an operation takes a text.
fn takes(op: Job, text: &[u8]) -> bool
    ensures yes { result ≡ true → TakesText op text.now }
    ensures no { result ≡ false → (op ≡ Job.Sum) × ¬ IsNumberList text.now }
{
    op != Job::Sum || is_number_list(text)
}

// The operation of a word.
fn op_of(word: &[u8]) -> Option<Job>
    ensures some { IfSome result (λ op. word.now ≡ operation_word op) }
    ensures none { IfNone result (¬ IsOpWord word.now) }
{
    if is_word(word, b"bytes") {
        Some(Job::Bytes)
    } else if is_word(word, b"words") {
        Some(Job::Words)
    } else if is_word(word, b"sum") {
        Some(Job::Sum)
    } else {
        None
    }
}
