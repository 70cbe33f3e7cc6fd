ghost use Rattle.std.specs.Prelude.{◌≡◌, List, ℕ, IfErr, IfOk};
ghost use Rattle.csv.specs.Records.{fields_of};
ghost use Rattle.orc_job_files.specs.{OneRecord.{Explains}, declared.from_record.RecordRefused.TheVariants.{NoMemory as Refused}};

use csv::ByteRecord;
use orc_fault::NoMemory;
use std::alloc::Global;

/// Why a record gives no line.
#[derive(Drop)]
pub enum RecordRefused<C> {
    Cause(C),
    NoMemory,
}

impl<C> From<NoMemory> for RecordRefused<C> {
    ghost from_gives = { λ _ e. e ≡ Refused };

    fn from(_refused: NoMemory) -> RecordRefused<C> {
        RecordRefused::NoMemory
    }
}

/// A line of a file of records.
pub trait FromRecord: Drop {
    /// What can be wrong with a record.
    type Cause: Drop;

    // the record that a line is spelled as
    ghost spelling: { Self → List (List ℕ) };

    // a record may stand for the line
    ghost is_line: { Self → Type 0 };

    // this is the cause of a record
    ghost has_cause: { List (List ℕ) → Self.Cause → Type 0 };

    /// The line that a record stands for.
    ///
    /// # Errors
    ///
    /// The first cause that applies to the record, or want of memory.
    fn from_record(alloc: Global, row: &ByteRecord) -> Result<Self, RecordRefused<Self::Cause>>
        ensures ok { IfOk result (λ line. (fields_of row.now ≡ spelling line) × is_line line) }
        ensures err { IfErr result (Explains has_cause (fields_of row.now)) };

    // a line is known by its record
    ghost same_line: { (a b : Self) → is_line a → is_line b → spelling a ≡ spelling b → a ≡ b };

    // the record of a line has no cause
    ghost no_cause: { (line : Self) (why : Self.Cause) → is_line line → ¬ has_cause (spelling line) why };

    // a record has one cause at most
    ghost one_cause: { (fields : List (List ℕ)) (a b : Self.Cause) → has_cause fields a → has_cause fields b → a ≡ b };
}
