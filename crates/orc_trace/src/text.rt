//! The lines that a replay and an audit write.

ghost use Rattle.std.specs.Prelude.{◌≡◌, ◌++◌, IfOk, OnOk};
ghost use Rattle.std.specs.String.{string_bytes};
ghost use Rattle.orc_trace.specs.Answers.{audit_lines, fault_line, head_lines, leak_line, life_line, life_lines, replay_line, shape_word};

use crate::answers::{Audit, Leak, Replayed, TraceFault};
use orc_core::Census;
use orc_fault::NoMemory;
use orc_trace_text::ShapeWord;
use orc_words::Words;
use std::alloc::{AllocError, Global};

/// The line of a trace that was played.
///
/// # Errors
///
/// `NoMemory` where memory is refused.
pub fn replay_text(alloc: Global, replayed: &Replayed) -> Result<String, NoMemory>
    ensures { IfOk result (λ text. string_bytes text ≡ replay_line replayed.now) }
{
    let Replayed { steps, census } = *replayed;
    let Census {
        out,
        retired,
        handed,
        listed,
        linked,
    } = census;
    let text = format!(in alloc;
        "steps {steps} out {out} retired {retired} handed {handed} listed {listed} linked {linked}\n"
    )?;
    Ok(text)
}

/// The lines of an audit: the steps, the worst backlog, the lives of rows that were taken, and the first leak.
///
/// # Errors
///
/// `NoMemory` where memory is refused.
pub fn audit_text(alloc: Global, audit: &Audit) -> Result<String, NoMemory>
    ensures { IfOk result (λ text. string_bytes text ≡ audit_lines audit.now) }
{
    let mut text = head_of(alloc, audit.steps, audit.most, audit.after)?;
    push_lives(&mut text, &audit.lives)?;
    push_leak(&mut text, audit.leak)?;
    Ok(text)
}

// The lines of the steps and of the worst backlog.
fn head_of(alloc: Global, steps: u64, most: u32, after: u64) -> Result<String, NoMemory>
    ensures { IfOk result (λ text. string_bytes text ≡ head_lines steps most after) }
{
    let text = format!(in alloc; "steps {steps}\nretired most {most} after {after}\n")?;
    Ok(text)
}

// The lines of the lives at the end of a text.
fn push_lives(text: &mut String, lives: &Words) -> Result<(), AllocError>
    ensures { OnOk result (string_bytes text.new ≡ string_bytes text.old ++ life_lines lives.now) }
{
    for row in 0..lives.len() {
        push_life(text, row, lives.get(row))?;
    }
    Ok(())
}

// The line of a row that was taken at least once.
fn push_life(text: &mut String, row: usize, life: u64) -> Result<(), AllocError>
    ensures { OnOk result (string_bytes text.new ≡ string_bytes text.old ++ life_line row life) }
{
    if life == 0 {
        return Ok(());
    }
    writeln!(text, "row {row} lives {life}")
}

// The line of the first leak.
fn push_leak(text: &mut String, leak: Option<Leak>) -> Result<(), AllocError>
    ensures { OnOk result (string_bytes text.new ≡ string_bytes text.old ++ leak_line leak) }
{
    match leak {
        None => text.push_str("leak none\n"),
        Some(leak) => {
            let Leak { after, row } = leak;
            writeln!(text, "leak after {after} row {row}")
        }
    }
}

/// The line of a fault. Want of memory has none: its text is empty.
pub fn fault_text(alloc: Global, fault: TraceFault) -> Result<String, NoMemory>
    ensures { IfOk result (λ text. string_bytes text ≡ fault_line fault) }
{
    match fault {
        TraceFault::Shape(word) => {
            let word = name_of(word);
            let text = format!(in alloc; "shape: {word}\n")?;
            Ok(text)
        }
        TraceFault::Unreadable(step) => {
            let text = format!(in alloc; "step {step}: unreadable\n")?;
            Ok(text)
        }
        TraceFault::NotAllowed(step) => {
            let text = format!(in alloc; "step {step}: not allowed\n")?;
            Ok(text)
        }
        TraceFault::NoMemory => Ok(String::new(alloc)),
    }
}

// The word for what is amiss with a first line.
fn name_of(word: ShapeWord) -> &'static str
    ensures { result.now ≡ shape_word word }
{
    match word {
        ShapeWord::Unreadable => "unreadable",
        ShapeWord::Rows => "rows",
        ShapeWord::Roots => "roots",
        ShapeWord::Agents => "agents",
        ShapeWord::Limit => "limit",
        ShapeWord::Links => "links",
    }
}
