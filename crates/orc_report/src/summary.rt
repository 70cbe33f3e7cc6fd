//! The text of a summary.
ghost use Rattle.std.specs.Prelude.{◌≡◌, ◌<◌, ◌++◌, ◌∷◌, [], List, ℕ, IfOk, OnOk, Some, length, slice_get};
ghost use Rattle.std.specs.Option.{option_to_list};
ghost use Rattle.std.specs.List.{AllByRecursion, flat_map};
ghost use Rattle.std.specs.String.{string_bytes};
ghost use Rattle.orc_jobs.specs.{GoodLines.{AreGood}, declared.line.Job.{Job}};
ghost use Rattle.orc_board.specs.{Follows.{grouped_by_key}, Reportable.{AreReportable}};
ghost use Rattle.orc_report.specs.{
  Summary.{done_as, done_in, done_jobs as jobs_done, firsts, operations_of, summary_of},
  Totals.{operation_totals, key_of_operation as key, line_of, total_of as total},
};

use indexmap::IndexMap;
use orc_board::{Replies, TakeReply, TakeWord};
use orc_fault::NoMemory;
use orc_jobs::{Job, Line, Lines, Text};
use std::alloc::{AllocError, Global};

// The jobs of one operation.
#[derive(Clone, Copy, Drop)]
struct Total {
    op: Job,
    jobs: u64,
    sum: u128,
}

/// The summary: how many jobs were done, and of each operation with a done job how many and the sum of their values, in order of
/// the first record of that operation whose job was done.
///
/// # Errors
///
/// `NoMemory` where memory is refused.
pub fn summary_text(alloc: Global, lines: &Lines, replies: &Replies) -> Result<Text, NoMemory>
    requires good { AreGood lines.now }
    requires reportable { AreReportable lines.now replies.now.posts.items replies.now.takes.items }
    ensures { IfOk result (λ t. t ≡ summary_of (jobs_done lines.now replies.now.takes.items)) }
{
    let jobs = done_jobs(alloc, lines, replies.takes.items())?;
    let text = write_summary(alloc, jobs.as_slice())?;
    Ok(Text::from_string(text))
}

// The jobs that were done, in order of their records.
fn done_jobs(
    alloc: Global,
    lines: &Lines,
    takes: &[TakeReply],
) -> Result<Vec<(Job, u64)>, AllocError>
    requires { AllByRecursion (λ r. r.line < length lines.now) takes.now }
    ensures { IfOk result (λ v. v.items ≡ jobs_done lines.now takes.now) }
{
    let ordered = in_record_order(alloc, lines, takes)?;
    jobs_of(alloc, lines, ordered.as_slice())
}

// The jobs of these replies that were done.
fn jobs_of(alloc: Global, lines: &Lines, takes: &[TakeReply]) -> Result<Vec<(Job, u64)>, AllocError>
    requires { AllByRecursion (λ r. r.line < length lines.now) takes.now }
    ensures { IfOk result (λ v. v.items ≡ flat_map (done_in lines.now) takes.now) }
{
    let mut jobs = Vec::new(alloc);
    for reply in takes {
        if let Some(job) = done_job(lines.get(reply.line as usize), reply.what) {
            jobs.push(job)?;
        }
    }
    Ok(jobs)
}

// The take replies in order of their records.
fn in_record_order(
    alloc: Global,
    lines: &Lines,
    takes: &[TakeReply],
) -> Result<Vec<TakeReply>, AllocError>
    requires { AllByRecursion (λ r. r.line < length lines.now) takes.now }
    ensures { IfOk result (λ v. v.items ≡ grouped_by_key (λ r. r.line) (length lines.now) takes.now) }
{
    let mut ordered = Vec::from_slice(alloc, takes)?;
    ordered.sort_by_key(|r| r.line)?;
    Ok(ordered)
}

// The operation and the value of a record's job, where it was done.
fn done_job(line: &Line, what: TakeWord) -> Option<(Job, u64)>
    ensures { option_to_list result ≡ done_as (Some line.now) what }
{
    match (line, what) {
        (Line::Post { op, .. }, TakeWord::Done(value)) => Some((*op, value)),
        (Line::Rush { op, .. }, TakeWord::Done(value)) => Some((*op, value)),
        _ => None,
    }
}

// The summary of these jobs.
fn write_summary(alloc: Global, jobs: &[(Job, u64)]) -> Result<String, AllocError>
    ensures { IfOk result (λ t. string_bytes t ≡ summary_of jobs.now) }
{
    let totals = totals_of(alloc, jobs)?;
    let mut text = String::new(alloc);
    let done = jobs.len();
    writeln!(text, "done {done}")?;
    for place in 0..totals.len() {
        push_total(&mut text, total_at(&totals, place))?;
    }
    Ok(text)
}

// The total at a place.
fn total_at(totals: &IndexMap<u8, Total>, place: usize) -> Total
    requires { place < length totals.now.entries }
    ensures { (key : ℕ) × (slice_get totals.now.entries place ≡ Some (key, result)) }
{
    match totals.get_index(place) {
        Some((_, total)) => *total,
        None => unreachable!(),
    }
}

// The totals of all operations, in the order in which these are first seen.
fn totals_of(alloc: Global, jobs: &[(Job, u64)]) -> Result<IndexMap<u8, Total>, AllocError>
    ensures { IfOk result (λ m. m.entries ≡ operation_totals jobs.now (firsts (operations_of jobs.now))) }
{
    let mut totals = IndexMap::new(alloc);
    for (op, _) in jobs {
        note_total(&mut totals, jobs, *op)?;
    }
    Ok(totals)
}

// Notes the total of an operation, where it isn't there yet.
fn note_total(
    totals: &mut IndexMap<u8, Total>,
    jobs: &[(Job, u64)],
    op: Job,
) -> Result<(), AllocError>
    ensures { (ops : List Job) → totals.old.entries ≡ operation_totals jobs.now (firsts ops)
        → OnOk result (totals.new.entries ≡ operation_totals jobs.now (firsts (ops ++ op ∷ []))) }
{
    let key = key_of(op);
    if totals.get(&key).is_some() {
        return Ok(());
    }
    totals.insert(key, total_of(jobs, op))?;
    Ok(())
}

// The total of an operation.
fn total_of(jobs: &[(Job, u64)], op: Job) -> Total
    ensures { result ≡ total jobs.now op }
{
    let mut total = Total {
        op,
        jobs: 0,
        sum: 0,
    };
    for (other, value) in jobs {
        if *other == op {
            total.jobs += 1;
            total.sum += u128::from(*value);
        }
    }
    total
}

// The key of an operation.
fn key_of(op: Job) -> u8
    ensures { result ≡ key op }
{
    match op {
        Job::Bytes => 0,
        Job::Words => 1,
        Job::Sum => 2,
    }
}

// The line of a total.
fn push_total(text: &mut String, total: Total) -> Result<(), AllocError>
    ensures { OnOk result (string_bytes text.new ≡ string_bytes text.old ++ line_of total) }
{
    let word = total.op.word();
    let jobs = total.jobs;
    let sum = total.sum;
    writeln!(text, "{word} jobs {jobs} total {sum}")
}
