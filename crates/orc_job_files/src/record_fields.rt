//! The fields of a record.

ghost use Rattle.std.specs.Prelude.{◌≡◌, ◌≢◌, ◌↔◌, All, IsTrue, IsUtf8, true, false};
ghost use Rattle.csv.specs.Records.{fields_of};
ghost use Rattle.orc_job_files.specs.RecordFiles.{field};

use csv::ByteRecord;
use std::str;

/// Whether each field is UTF-8.
pub fn is_text(row: &ByteRecord) -> bool
    ensures { IsTrue result ↔ All IsUtf8 (fields_of row.now) }
{
    for place in 0..row.len() {
        if !is_utf8(field_of(row, place)) {
            return false;
        }
    }
    true
}

fn is_utf8(field: &[u8]) -> bool
    ensures text { result ≡ true → IsUtf8 field.now }
    ensures other { result ≡ false → ¬ IsUtf8 field.now }
{
    str::from_utf8(field).is_ok()
}

/// Whether a field is this word.
pub fn is_word(text: &[u8], word: &[u8]) -> bool
    ensures same { result ≡ true → text.now ≡ word.now }
    ensures other { result ≡ false → text.now ≢ word.now }
{
    text == word
}

/// A field of a record, or nothing past its end.
pub fn field_of(row: &ByteRecord, place: usize) -> &[u8]
    ensures { result.now ≡ field (fields_of row.now) place }
{
    match row.get(place) {
        Some(text) => text,
        None => b"",
    }
}
