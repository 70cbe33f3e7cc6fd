//! The text of a report.
ghost use Rattle.std.specs.Prelude.{◌≡◌, ◌<◌, ◌++◌, IfOk, OnOk, codes, length, true, Some};
ghost use Rattle.std.specs.Option.{option_copied};
ghost use Rattle.std.specs.List.{flat_map, AllByRecursion};
ghost use Rattle.std.specs.String.{string_bytes};
ghost use Rattle.orc_jobs.specs.{Line.{line_id}, GoodLines.{AreGood}};
ghost use Rattle.orc_board.specs.Reportable.{AreReportable, takes_with as of_queue, is_side};
ghost use Rattle.orc_report.specs.{
  Report.{by_position, board_line, board_row, take_line, report_of, rest_line, rest_lines, has_rush as tells_rush, if_rush, is_rush as rushes, queue_lines, side_word},
};

use crate::push_posts;
use orc_board::{Replies, TakeReply, TakeWord};
use orc_fault::NoMemory;
use orc_jobs::{Line, Lines, Text};
use std::alloc::{AllocError, Global};

/// How many rows each container gave and freed, each as often as it did, and how many are linked at rest.
#[derive(Clone, Copy, Drop)]
pub struct RestNumbers {
    pub queue_given: u64,
    pub queue_reused: u64,
    pub queue_linked: u32,
    pub rush_given: u64,
    pub rush_reused: u64,
    pub rush_linked: u32,
    pub set_given: u64,
    pub set_reused: u64,
    pub set_linked: u32,
}

/// The report: the board in order of position, that of the rush queue where some line is a Rush, then the replies in their order,
/// then what is at rest.
///
/// # Errors
///
/// `NoMemory` where memory is refused.
pub fn report_text(
    alloc: Global,
    lines: &Lines,
    replies: &Replies,
    rest: Option<&RestNumbers>,
) -> Result<Text, NoMemory>
    requires good { AreGood lines.now }
    requires reportable { AreReportable lines.now replies.now.posts.items replies.now.takes.items }
    ensures { IfOk result (λ t. t ≡ report_of lines.now replies.now.posts.items replies.now.takes.items (option_copied rest.entry)) }
{
    let takes = replies.takes.items();
    let mut text = String::from_str(alloc, "board\n")?;
    push_queue(alloc, &mut text, lines, false, takes)?;
    push_rush_queue(alloc, &mut text, lines, takes)?;
    text.push_str("replies\n")?;
    push_posts(&mut text, "posted", replies.posts.items())?;
    push_takes(&mut text, takes)?;
    if let Some(numbers) = rest {
        push_rest(&mut text, lines, numbers)?;
    }
    Ok(Text::from_string(text))
}

// The lines of the rush queue, where some line is a Rush.
fn push_rush_queue(
    alloc: Global,
    text: &mut String,
    lines: &Lines,
    takes: &[TakeReply],
) -> Result<(), AllocError>
    requires positions { AllByRecursion (λ r. r.at < length (of_queue true takes.now)) (of_queue true takes.now) }
    requires lines { AllByRecursion (λ r. r.line < length lines.now) takes.now }
    ensures { OnOk result (string_bytes text.new ≡ string_bytes text.old ++ if_rush lines.now (codes "rush\n" ++ queue_lines true lines.now takes.now)) }
{
    if !has_rush(lines) {
        return Ok(());
    }
    text.push_str("rush\n")?;
    push_queue(alloc, text, lines, true, takes)
}

// Whether some line is a Rush.
fn has_rush(lines: &Lines) -> bool
    ensures { result ≡ tells_rush lines.now }
{
    for place in 0..lines.len() {
        if is_rush(lines.get(place)) {
            return true;
        }
    }
    false
}

// Whether a line is a Rush.
fn is_rush(line: &Line) -> bool
    ensures { result ≡ rushes line.now }
{
    match line {
        Line::Rush { .. } => true,
        Line::Post { .. } | Line::Drop { .. } => false,
    }
}

// The lines of one queue's positions at the end of a text.
fn push_queue(
    alloc: Global,
    text: &mut String,
    lines: &Lines,
    rush: bool,
    takes: &[TakeReply],
) -> Result<(), AllocError>
    requires positions { AllByRecursion (λ r. r.at < length (of_queue rush takes.now)) (of_queue rush takes.now) }
    requires lines { AllByRecursion (λ r. r.line < length lines.now) takes.now }
    ensures { OnOk result (string_bytes text.new ≡ string_bytes text.old ++ queue_lines rush lines.now takes.now) }
{
    let given = takes_with(alloc, rush, takes)?;
    let board = in_position_order(given)?;
    push_board(text, lines, board.as_slice())
}

// The takes with rush, or without.
fn takes_with(alloc: Global, rush: bool, takes: &[TakeReply]) -> Result<Vec<TakeReply>, AllocError>
    ensures { IfOk result (λ v. v.items ≡ of_queue rush takes.now) }
{
    let mut given = Vec::new(alloc);
    for reply in takes {
        if is_of(rush, reply) {
            given.push(*reply)?;
        }
    }
    Ok(given)
}

// Whether a take is with rush, or without.
fn is_of(rush: bool, reply: &TakeReply) -> bool
    ensures { result ≡ is_side rush reply.now.rush }
{
    reply.rush == rush
}

// These take replies, that of position 0 first.
fn in_position_order(mut takes: Vec<TakeReply>) -> Result<Vec<TakeReply>, AllocError>
    requires { AllByRecursion (λ r. r.at < length takes.items) takes.items }
    ensures { IfOk result (λ v. v.items ≡ by_position takes.items) }
{
    takes.sort_by_key(|r| r.at)?;
    Ok(takes)
}

// The board's lines at the end of a text.
fn push_board(text: &mut String, lines: &Lines, board: &[TakeReply]) -> Result<(), AllocError>
    requires { AllByRecursion (λ r. r.line < length lines.now) board.now }
    ensures { OnOk result (string_bytes text.new ≡ string_bytes text.old ++ flat_map (board_line lines.now) board.now) }
{
    for reply in board {
        let id = id_of_line(lines.get(reply.line as usize));
        push_board_row(text, reply.at, reply.line, id, reply.what)?;
    }
    Ok(())
}

// The lines of the takers' replies.
fn push_takes(text: &mut String, takes: &[TakeReply]) -> Result<(), AllocError>
    ensures { OnOk result (string_bytes text.new ≡ string_bytes text.old ++ flat_map take_line takes.now) }
{
    for reply in takes {
        push_take(text, reply)?;
    }
    Ok(())
}

// The id that a line names.
fn id_of_line(line: &Line) -> u32
    ensures { result ≡ line_id line.now }
{
    match line {
        Line::Post { id, .. } | Line::Rush { id, .. } | Line::Drop { id } => *id,
    }
}

// One line of the board.
fn push_board_row(
    text: &mut String,
    at: u64,
    place: u32,
    id: u32,
    what: TakeWord,
) -> Result<(), AllocError>
    ensures { OnOk result (string_bytes text.new ≡ string_bytes text.old ++ board_row at place id what) }
{
    match what {
        TakeWord::Done(value) => writeln!(text, "{at} line {place} id {id} done {value}"),
        TakeWord::Void => writeln!(text, "{at} line {place} id {id} void"),
    }
}

// One taker's reply.
fn push_take(text: &mut String, reply: &TakeReply) -> Result<(), AllocError>
    ensures { OnOk result (string_bytes text.new ≡ string_bytes text.old ++ take_line reply.now) }
{
    let taker = reply.taker;
    let side = word_of_side(reply.rush);
    let at = reply.at;
    match reply.what {
        TakeWord::Done(value) => writeln!(text, "taker {taker} {side} {at} done {value}"),
        TakeWord::Void => writeln!(text, "taker {taker} {side} {at} void"),
    }
}

// The word before the position of a take with rush, or without.
fn word_of_side(rush: bool) -> &'static str
    ensures { result.now ≡ side_word rush }
{
    if rush { "rush" } else { "at" }
}

// What is at rest.
fn push_rest(text: &mut String, lines: &Lines, numbers: &RestNumbers) -> Result<(), AllocError>
    ensures { OnOk result (string_bytes text.new ≡ string_bytes text.old ++ rest_lines lines.now (Some numbers.now)) }
{
    let n = numbers;
    text.push_str("rest\n")?;
    push_rest_line(text, "queue", n.queue_given, n.queue_reused, n.queue_linked)?;
    push_rush_rest(text, lines, n)?;
    push_rest_line(text, "set", n.set_given, n.set_reused, n.set_linked)
}

// What the rush queue has at rest, where some line is a Rush.
fn push_rush_rest(text: &mut String, lines: &Lines, n: &RestNumbers) -> Result<(), AllocError>
    ensures { OnOk result (string_bytes text.new ≡ string_bytes text.old
        ++ if_rush lines.now (rest_line (codes "rush") n.now.rush_given n.now.rush_reused n.now.rush_linked)) }
{
    if !has_rush(lines) {
        return Ok(());
    }
    push_rest_line(text, "rush", n.rush_given, n.rush_reused, n.rush_linked)
}

// What one container has at rest.
fn push_rest_line(
    text: &mut String,
    name: &str,
    given: u64,
    reused: u64,
    linked: u32,
) -> Result<(), AllocError>
    ensures { OnOk result (string_bytes text.new ≡ string_bytes text.old ++ rest_line name.now given reused linked) }
{
    writeln!(text, "{name} given {given} reused {reused} linked {linked}")
}
