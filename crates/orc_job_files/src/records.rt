//! Files of records, of which each stands for a line.
ghost use Rattle.std.specs.Prelude.{◌≡◌, ◌≤◌, List, ℕ, IfErr, IfOk, OnOk, length};
ghost use Rattle.csv.specs.{Records.{fields_of}, Reading.{NotLengths, error_kind}};
ghost use Rattle.orc_job_files.specs.{
  OneRecord.{GivesFault, GivesLines, RefusesFile, RefusesRecord},
  RecordFiles.{IsFile, TakesRecord},
};

use crate::{FromRecord, RecordRefused};
use csv::{ByteRecord, Error, ErrorKind, ReaderBuilder};
use orc_jobs::LineList;
use std::alloc::Global;

// The most records that a file has.
const MOST_RECORDS: usize = 65535;

/// Why bytes are no file of lines.
#[derive(Clone, Copy, Debug, PartialEq, Eq, Drop)]
pub enum FileRefused<C> {
    /// The record of this number, from 0, is the first that has a cause.
    Malformed { line: u32, cause: C },
    /// There are 65,535 lines, and then a further record.
    TooMany,
    NoMemory,
}

/// The lines of a file. It is refused at its first record that has a cause, or at a record past
/// the first 65,535, whatever is in it. A byte order mark at the start is passed over.
///
/// # Errors
///
/// `Malformed` and `TooMany` as said, before any later fault; `NoMemory` where memory is refused.
pub fn read_records<L: FromRecord>(
    alloc: Global,
    bytes: &[u8],
) -> Result<LineList<L>, FileRefused<L::Cause>>
    ensures ok { IfOk result (λ lines. IsFile L.spelling L.is_line lines bytes.now) }
    ensures err { IfErr result (RefusesFile L.spelling L.is_line L.has_cause bytes.now) }

    // A file of lines is read as these, and another is refused as it must be, unless memory runs out.
    ensures only { (file : List L) → IsFile L.spelling L.is_line file bytes.now → GivesLines file result }
    ensures bad { (at : ℕ) (why : L.Cause) → RefusesFile L.spelling L.is_line L.has_cause bytes.now (FileRefused.Malformed at why)
        → GivesFault (FileRefused.Malformed at why) result }
    ensures many { RefusesFile L.spelling L.is_line L.has_cause bytes.now FileRefused.TooMany → GivesFault FileRefused.TooMany result }
{
    read_each(alloc, bytes)
}

// Reads record by record, and stops at the first fault.
fn read_each<L: FromRecord>(
    alloc: Global,
    bytes: &[u8],
) -> Result<LineList<L>, FileRefused<L::Cause>>
    ensures ok { IfOk result (λ lines. IsFile L.spelling L.is_line lines bytes.now) }
    ensures err { IfErr result (RefusesFile L.spelling L.is_line L.has_cause bytes.now) }
{
    let reader = ReaderBuilder::new()
        .has_headers(false)
        .flexible(true)
        .from_reader(alloc, bytes);
    let mut lines = LineList::new(alloc);
    for row in reader.into_byte_records() {
        let row = match row {
            Ok(row) => row,
            Err(error) => return Err(fault_of(error)),
        };
        take_record(alloc, &row, &mut lines)?;
    }
    Ok(lines)
}

// What an error of the reader is told as. Records of unequal lengths are none. That a slice has no failing
// reads, `csv` doesn't say.
fn fault_of<C>(error: Error) -> FileRefused<C>
    requires { NotLengths (error_kind error) }
    ensures { result ≡ FileRefused.NoMemory }
{
    match error.into_kind() {
        ErrorKind::UnequalLengths { .. } => unreachable!(),
        _ => FileRefused::NoMemory,
    }
}

// Appends the line of a record, where there is room for one more.
fn take_record<L: FromRecord>(
    alloc: Global,
    row: &ByteRecord,
    lines: &mut LineList<L>,
) -> Result<(), FileRefused<L::Cause>>
    requires { length lines.old ≤ 65535 }
    ensures ok { OnOk result (TakesRecord L.spelling L.is_line lines.old lines.new (fields_of row.now)) }
    ensures err { IfErr result (RefusesRecord L.has_cause lines.old (fields_of row.now)) }
{
    let place = lines.len();
    if place >= MOST_RECORDS {
        return Err(FileRefused::TooMany);
    }
    let line = match L::from_record(alloc, row) {
        Ok(line) => line,
        Err(RecordRefused::Cause(cause)) => {
            let line = place as u32;
            return Err(FileRefused::Malformed { line, cause });
        }
        Err(RecordRefused::NoMemory) => return Err(FileRefused::NoMemory),
    };
    match lines.push(line) {
        Ok(()) => Ok(()),
        Err(_) => Err(FileRefused::NoMemory),
    }
}
