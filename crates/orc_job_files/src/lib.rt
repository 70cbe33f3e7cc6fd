//! Files of lines, and job files among them: how they are read, and generated ones.
#![tactic(auto)]

mod cause;
mod from_record;
mod generated;
mod generated_text;
mod laws;
mod read;
mod record;
mod record_fields;
mod records;

pub use cause::Cause;
pub use from_record::{FromRecord, RecordRefused};
pub use generated::make_lines;
pub use generated_text::{generated_lines_are_read, lines_text};
pub use laws::records_are_determined;
pub use read::read_jobs;
pub use record_fields::{field_of, is_text, is_word};
pub use records::{FileRefused, read_records};
