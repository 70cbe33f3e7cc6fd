//! The text of generated lines.
ghost use Rattle.std.specs.Prelude.{◌≡◌, ◌≤◌, ◌++◌, ℕ, IfOk, OnOk};
ghost use Rattle.orc_job_files.specs.JobGrammar.{IsFileOf};
ghost use Rattle.orc_jobs.specs.Generated.{generated, line_text, text_of_lines};

use orc_fault::NoMemory;
use orc_jobs::{Line, Lines, Text};
use std::alloc::{AllocError, Global};

/// One line `post,ID,OP,TEXT` for each post, whose text is written as it is, without quotes.
///
/// # Errors
///
/// `NoMemory` where memory is refused.
pub fn lines_text(alloc: Global, lines: &Lines) -> Result<Text, NoMemory>
    ensures { IfOk result (λ text. text ≡ text_of_lines lines.now) }
{
    let mut text = Vec::new(alloc);
    for index in 0..lines.len() {
        push_line(alloc, &mut text, lines.get(index))?;
    }
    Ok(Text::from_vec(text))
}

// The line of a post at the end of a text.
fn push_line(alloc: Global, text: &mut Vec<u8>, line: &Line) -> Result<(), AllocError>
    ensures { OnOk result (text.new.items ≡ text.old.items ++ line_text line.now) }
{
    match line {
        Line::Post {
            id,
            op,
            text: field,
        } => {
            let word = op.word();
            let front = format!(in alloc; "post,{id},{word},")?;
            text.extend_from_slice(front.as_bytes())?;
            text.extend_from_slice(field.bytes())?;
            text.push(b'\n')?;
            Ok(())
        }
        Line::Rush { .. } | Line::Drop { .. } => Ok(()),
    }
}

/// A law, with nothing to run: the text of generated lines is a job file of these lines, so it is read as them.
pub fn generated_lines_are_read()
    ensures { (seed lines : ℕ) → lines ≤ 60000 → IsFileOf (generated seed lines) (text_of_lines (generated seed lines)) }
{}
