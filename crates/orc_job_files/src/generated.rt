//! Generated work.
ghost use Rattle.std.specs.Prelude.{◌≡◌, ◌≤◌, ◌++◌, ◌∷◌, [], List, ℕ, IfOk, OnOk, length};
ghost use Rattle.std.specs.List.{join_with_byte};
ghost use Rattle.std.specs.String.{string_bytes};
ghost use Rattle.orc_jobs.specs.{
  Generated.{behind, behind_line, behind_text, drawn as next_draw, generated, line_from, op_of as chosen, text_of as drawn_text},
  GoodLines.{AreGood},
  declared.line.Job.{Job},
};

use orc_fault::NoMemory;
use orc_jobs::{Job, Line, Lines, Text};
use std::alloc::{AllocError, Global};

/// Lines that follow from a seed: posts with the ids 0, 1, 2 and so on, whose texts have up to 7 letters, words or numbers below
/// 1,000. The seed is at least 1, and there are 1 to 60,000 lines.
///
/// # Errors
///
/// `NoMemory` where memory is refused.
pub fn make_lines(alloc: Global, seed: u32, lines: u32) -> Result<Lines, NoMemory>
    requires seed { 1 ≤ seed }
    requires lines { (1 ≤ lines) × (lines ≤ 60000) }
    ensures lines { IfOk result (λ made. made ≡ generated seed lines) }
    ensures good { IfOk result AreGood }
{
    let mut made = Lines::new(alloc);
    let mut state = u64::from(seed);
    for id in 0..lines {
        let (line, behind) = make_line(alloc, id, state)?;
        made.push(line)?;
        state = behind;
    }
    Ok(made)
}

// The line with this id that is drawn from this state, and the state behind it.
fn make_line(alloc: Global, id: u32, state: u64) -> Result<(Line, u64), NoMemory>
    ensures { IfOk result (λ r. (r.0 ≡ line_from id state) × (r.1 ≡ behind_line state)) }
{
    let first = drawn(state);
    let second = drawn(first);
    let op = op_of(first);
    let (text, behind) = make_text(alloc, op, second % 8, second)?;
    Ok((Line::Post { id, op, text }, behind))
}

// The next draw, which is the next state.
pub(crate) fn drawn(state: u64) -> u64
    ensures { result ≡ next_draw state }
{
    let x = state ^ (state << 13);
    let y = x ^ (x >> 7);
    y ^ (y << 17)
}

// The operation that a draw chooses.
fn op_of(draw: u64) -> Job
    ensures { result ≡ chosen draw }
{
    match draw % 3 {
        0 => Job::Bytes,
        1 => Job::Words,
        _ => Job::Sum,
    }
}

// A text of so many pieces, with what is drawn from this state, and the state behind it.
fn make_text(alloc: Global, op: Job, pieces: u64, state: u64) -> Result<(Text, u64), NoMemory>
    ensures { IfOk result (λ r. (r.0 ≡ drawn_text op pieces state) × (r.1 ≡ behind_text op pieces state)) }
{
    match op {
        Job::Bytes => Ok((Text::from_string(letters(alloc, pieces)?), state)),
        Job::Words => Ok((Text::from_string(words(alloc, pieces)?), state)),
        Job::Sum => {
            let (text, behind) = numbers(alloc, pieces, state)?;
            Ok((Text::from_string(text), behind))
        }
    }
}

// So many letters.
fn letters(alloc: Global, count: u64) -> Result<String, AllocError>
    ensures { IfOk result (λ t. string_bytes t ≡ drawn_text Job.Bytes count 0) }
{
    let mut text = String::new(alloc);
    for _ in 0..count {
        text.push('x')?;
    }
    Ok(text)
}

// So many words, with one space between two of them.
fn words(alloc: Global, count: u64) -> Result<String, AllocError>
    ensures { IfOk result (λ t. string_bytes t ≡ drawn_text Job.Words count 0) }
{
    let mut text = String::new(alloc);
    for at in 0..count {
        push_piece(&mut text, at, "ab")?;
    }
    Ok(text)
}

// So many drawn numbers, with one space between two of them, and the state behind the draws.
fn numbers(alloc: Global, count: u64, state: u64) -> Result<(String, u64), AllocError>
    ensures { IfOk result (λ r. (string_bytes r.0 ≡ drawn_text Job.Sum count state) × (r.1 ≡ behind count state)) }
{
    let mut text = String::new(alloc);
    let mut draw = state;
    for at in 0..count {
        draw = drawn(draw);
        let number = draw % 1000;
        let piece = format!(in alloc; "{number}")?;
        push_piece(&mut text, at, piece.as_str())?;
    }
    Ok((text, draw))
}

#[tactic(auto, using(crate::proofs::GeneratedLines::piece_first, crate::proofs::GeneratedLines::piece_next))]
// Appends a piece behind so many, with a space before it unless it is the first.
fn push_piece(text: &mut String, before: u64, piece: &str) -> Result<(), AllocError>
    ensures { (pieces : List (List ℕ)) → length pieces ≡ before → string_bytes text.old ≡ join_with_byte 32 pieces
        → OnOk result (string_bytes text.new ≡ join_with_byte 32 (pieces ++ piece.now ∷ [])) }
{
    if before == 0 {
        return text.push_str(piece);
    }
    text.push_str(" ")?;
    text.push_str(piece)
}
