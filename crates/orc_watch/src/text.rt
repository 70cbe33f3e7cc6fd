//! The text of a watch run.
ghost use Rattle.std.specs.Prelude.{◌≡◌, ◌++◌, IfOk, OnOk, Some};
ghost use Rattle.std.specs.Option.{option_copied};
ghost use Rattle.std.specs.List.{flat_map};
ghost use Rattle.std.specs.String.{string_bytes};
ghost use Rattle.orc_watch.specs.WatchText.{cell_line, now_line, reply_line, rest_lines, watch_report};

use crate::{WatchList, WatchReply, WatchWord};
use orc_fault::NoMemory;
use orc_jobs::Text;
use std::alloc::{AllocError, Global};

/// How many nodes the cell was given and how many were freed, each as often as it was, and how many are linked at rest.
#[derive(Clone, Copy, Drop)]
pub struct CellNumbers {
    pub given: u64,
    pub reused: u64,
    pub linked: u32,
}

/// The replies in their order, then both parts as they were at last, then what is at rest.
///
/// # Errors
///
/// `NoMemory` where memory is refused.
pub fn watch_text(
    alloc: Global,
    replies: &WatchList,
    now_left: u64,
    now_right: u64,
    rest: Option<&CellNumbers>,
) -> Result<Text, NoMemory>
    ensures { IfOk result (λ t. t ≡ watch_report replies.now.items now_left now_right (option_copied rest.entry)) }
{
    let mut text = String::from_str(alloc, "watch\n")?;
    push_replies(&mut text, replies.items())?;
    push_now(&mut text, now_left, now_right)?;
    if let Some(numbers) = rest {
        push_rest(&mut text, numbers)?;
    }
    Ok(Text::from_string(text))
}

// The lines of the replies.
fn push_replies(text: &mut String, replies: &[WatchReply]) -> Result<(), AllocError>
    ensures { OnOk result (string_bytes text.new ≡ string_bytes text.old ++ flat_map reply_line replies.now) }
{
    for reply in replies {
        push_reply(text, reply)?;
    }
    Ok(())
}

// One reply.
fn push_reply(text: &mut String, reply: &WatchReply) -> Result<(), AllocError>
    ensures { OnOk result (string_bytes text.new ≡ string_bytes text.old ++ reply_line reply.now) }
{
    let worker = reply.worker;
    let line = reply.line;
    match reply.what {
        WatchWord::Set(left, right) => {
            writeln!(text, "worker {worker} line {line} set {left} {right}")
        }
        WatchWord::Saw(left, right) => {
            writeln!(text, "worker {worker} line {line} saw {left} {right}")
        }
        WatchWord::NoNode => writeln!(text, "worker {worker} line {line} nonode"),
        WatchWord::Spent => writeln!(text, "worker {worker} line {line} spent"),
    }
}

// Both parts at last.
fn push_now(text: &mut String, left: u64, right: u64) -> Result<(), AllocError>
    ensures { OnOk result (string_bytes text.new ≡ string_bytes text.old ++ now_line left right) }
{
    writeln!(text, "now {left} {right}")
}

// What is at rest.
fn push_rest(text: &mut String, numbers: &CellNumbers) -> Result<(), AllocError>
    ensures { OnOk result (string_bytes text.new ≡ string_bytes text.old ++ rest_lines (Some numbers.now)) }
{
    text.push_str("rest\n")?;
    push_cell(text, numbers.given, numbers.reused, numbers.linked)
}

// What the cell has at rest.
fn push_cell(text: &mut String, given: u64, reused: u64, linked: u32) -> Result<(), AllocError>
    ensures { OnOk result (string_bytes text.new ≡ string_bytes text.old ++ cell_line given reused linked) }
{
    writeln!(text, "cell given {given} reused {reused} linked {linked}")
}
