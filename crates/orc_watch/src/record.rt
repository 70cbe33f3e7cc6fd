ghost use Rattle.std.specs.Prelude.{◌≡◌, IfErr, IfOk};
ghost use Rattle.csv.specs.Records.{fields_of};
ghost use Rattle.orc_watch.specs.{
  WatchGrammar.{HasCause, IsLine, record_of},
  Laws.WatchLines.{known_by_record, line_has_no_cause, record_has_one_cause},
};

use crate::{WatchCause, WatchLine};
use csv::ByteRecord;
use orc_job_files::{FromRecord, RecordRefused, field_of, is_text, is_word};
use orc_jobs::number_of;
use std::alloc::Global;

impl FromRecord for WatchLine {
    type Cause = WatchCause;

    ghost spelling = { record_of };

    ghost is_line = { IsLine };

    ghost has_cause = { HasCause };

    ghost same_line = { known_by_record };

    ghost no_cause = { line_has_no_cause };

    ghost one_cause = { record_has_one_cause };

    fn from_record(
        _alloc: Global,
        row: &ByteRecord,
    ) -> Result<WatchLine, RecordRefused<WatchCause>> {
        line_of(row).map_err(RecordRefused::Cause)
    }
}

// The line that a record stands for, or the first cause that applies to it.
fn line_of(row: &ByteRecord) -> Result<WatchLine, WatchCause>
    ensures ok { IfOk result (λ line. (fields_of row.now ≡ record_of line) × IsLine line) }
    ensures err { IfErr result (HasCause (fields_of row.now)) }
{
    let verb = field_of(row, 0);
    let is_see = is_word(verb, b"see");
    let is_both = is_word(verb, b"both");
    let wanted = if is_see {
        1
    } else if is_both {
        3
    } else {
        2
    };
    if row.len() != wanted {
        return Err(WatchCause::Fields);
    }
    if !is_text(row) {
        return Err(WatchCause::Utf8);
    }
    if is_see {
        return Ok(WatchLine::See);
    }
    let is_left = is_word(verb, b"left");
    if !is_both && !is_left && !is_word(verb, b"right") {
        return Err(WatchCause::Verb);
    }
    let Some(first) = number_of(field_of(row, 1)) else {
        return Err(WatchCause::Value);
    };
    if is_left {
        return Ok(WatchLine::Left(first));
    }
    if !is_both {
        return Ok(WatchLine::Right(first));
    }
    match number_of(field_of(row, 2)) {
        Some(second) => Ok(WatchLine::Both(first, second)),
        None => Err(WatchCause::Value),
    }
}
