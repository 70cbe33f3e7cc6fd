//! The lines of posters' replies.
ghost use Rattle.std.specs.Prelude.{◌≡◌, ◌++◌, OnOk};
ghost use Rattle.std.specs.List.{flat_map};
ghost use Rattle.std.specs.String.{string_bytes};
ghost use Rattle.orc_report.specs.Report.{post_line};

use orc_board::{PostReply, PostWord};
use std::alloc::AllocError;

/// Appends a line for each reply, in which this word says that a job was put at a position of the queue.
///
/// # Errors
///
/// `AllocError` where memory is refused. The text may have got a part of the lines.
pub fn push_posts(text: &mut String, put: &str, posts: &[PostReply]) -> Result<(), AllocError>
    ensures { OnOk result (string_bytes text.new ≡ string_bytes text.old ++ flat_map (post_line put.now) posts.now) }
{
    for reply in posts {
        push_post(text, put, reply)?;
    }
    Ok(())
}

// One poster's reply.
fn push_post(text: &mut String, put: &str, reply: &PostReply) -> Result<(), AllocError>
    ensures { OnOk result (string_bytes text.new ≡ string_bytes text.old ++ post_line put.now reply.now) }
{
    let poster = reply.poster;
    let line = reply.line;
    match reply.what {
        PostWord::Posted(at) => writeln!(text, "poster {poster} line {line} {put} {at}"),
        PostWord::Rushed(at) => writeln!(text, "poster {poster} line {line} rushed {at}"),
        PostWord::Busy => writeln!(text, "poster {poster} line {line} busy"),
        PostWord::NoNode => writeln!(text, "poster {poster} line {line} nonode"),
        PostWord::Positions => writeln!(text, "poster {poster} line {line} positions"),
        PostWord::Spent => writeln!(text, "poster {poster} line {line} spent"),
        PostWord::Dropped => writeln!(text, "poster {poster} line {line} dropped"),
        PostWord::Unknown => writeln!(text, "poster {poster} line {line} unknown"),
        PostWord::Skipped => writeln!(text, "poster {poster} line {line} skipped"),
    }
}
