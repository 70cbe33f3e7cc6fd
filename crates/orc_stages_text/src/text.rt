//! The text of a run of the pipeline.
ghost use Rattle.std.specs.Prelude.{◌≡◌, ◌++◌, IfOk, OnOk};
ghost use Rattle.std.specs.List.{flat_map};
ghost use Rattle.std.specs.String.{string_bytes};
ghost use Rattle.orc_stages_text.specs.StagesText.{move_line, out_line, out_lines, stages_report};

use orc_fault::NoMemory;
use orc_jobs::Text;
use orc_pipeline::StagesDone;
use orc_report::push_posts;
use orc_stages::StageReply;
use std::alloc::{AllocError, Global};

/// The replies of posters in their order, then those of stages in theirs, then the jobs that came out, numbered from 0.
///
/// # Errors
///
/// `NoMemory` where memory is refused.
pub fn stages_text(alloc: Global, done: &StagesDone) -> Result<Text, NoMemory>
    ensures { IfOk result (λ t. t ≡ stages_report done.now.posts.items done.now.moves.items done.now.outs.items) }
{
    let mut text = String::from_str(alloc, "stages\n")?;
    push_posts(&mut text, "put", done.posts.items())?;
    push_moves(&mut text, done.moves.items())?;
    push_outs(&mut text, done.outs.items())?;
    Ok(Text::from_string(text))
}

// The lines of the stages' replies.
fn push_moves(text: &mut String, moves: &[StageReply]) -> Result<(), AllocError>
    ensures { OnOk result (string_bytes text.new ≡ string_bytes text.old ++ flat_map move_line moves.now) }
{
    for reply in moves {
        push_move(text, reply)?;
    }
    Ok(())
}

// The lines of the jobs that came out.
fn push_outs(text: &mut String, outs: &[u64]) -> Result<(), AllocError>
    ensures { OnOk result (string_bytes text.new ≡ string_bytes text.old ++ out_lines 0 outs.now) }
{
    for (at, line) in outs.iter().enumerate() {
        push_out(text, at, *line)?;
    }
    Ok(())
}

// One stage's reply.
fn push_move(text: &mut String, reply: &StageReply) -> Result<(), AllocError>
    ensures { OnOk result (string_bytes text.new ≡ string_bytes text.old ++ move_line reply.now) }
{
    let stage = reply.stage;
    let line = reply.line;
    match reply.value {
        Some(value) => writeln!(text, "stage {stage} line {line} value {value}"),
        None => writeln!(text, "stage {stage} line {line} nonode"),
    }
}

// One job that came out, with its number among them.
fn push_out(text: &mut String, at: usize, line: u64) -> Result<(), AllocError>
    ensures { OnOk result (string_bytes text.new ≡ string_bytes text.old ++ out_line at line) }
{
    writeln!(text, "out {at} line {line}")
}
