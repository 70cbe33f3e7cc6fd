//! The first line of a trace.

ghost use Rattle.std.specs.Prelude.{◌≡◌, ◌∷◌, ◌≢◌, List, ℕ, IfNone, IfSome, IfOk, IfErr, min};
ghost use Rattle.std.specs.Fmt.{decimal};
ghost use Rattle.std.specs.Option.{option_copied};
ghost use Rattle.orc_words.specs.Bounds.{Bounds, IsShape, bounds_of};
ghost use Rattle.orc_trace_text.specs.{
  Asked.{bounds_asked},
  FirstLines.{HasTable, IsFirstOut, IsShapeFault},
  Reading.{EndsInLinks, words_left},
  TraceText.{AreWide, IsShapeText, IsWide},
};

use crate::cut::{cut, first_word, one_word};
use crate::kind::is_the_word;
use orc_decimal::number_of;
use orc_words::{Shape, ShapeFault};

/// What is amiss with the first line: its form, or the first number that is out of range.
#[derive(Clone, Copy)]
pub enum ShapeWord {
    Unreadable,
    Rows,
    Roots,
    Agents,
    Limit,
    Links,
}

// The numbers of a first line, in range or not.
#[derive(Clone, Copy)]
struct Asked {
    rows: u64,
    roots: u64,
    agents: u64,
    limit: u64,
    links: u64,
}

// The number that the first of the words left spells, and what is left behind it.
fn first_number(left: Option<&[u8]>) -> Option<(u64, Option<&[u8]>)>
    ensures some { IfSome result (λ found. IsWide found.0
        × (words_left (option_copied left.entry) ≡ decimal found.0 ∷ words_left (option_copied found.1))) }
    ensures none { IfNone result ((number : ℕ) (words : List (List ℕ)) → IsWide number
        → words_left (option_copied left.entry) ≢ decimal number ∷ words) }
{
    let (word, left) = first_word(left)?;
    let number = number_of(word)?;
    Some((number, left))
}

// The number of links that the words behind the limit spell, in range or not: 1 where there are none.
fn links_of(left: Option<&[u8]>) -> Option<u64>
    ensures some { IfSome result (λ links. IsWide links × EndsInLinks links (words_left (option_copied left.entry))) }
    ensures none { IfNone result ((links : ℕ) → IsWide links → ¬ EndsInLinks links (words_left (option_copied left.entry))) }
{
    if left.is_none() {
        return Some(1);
    }
    let word = one_word(left)?;
    number_of(word)
}

// The numbers that a first line spells.
fn read_numbers(line: &[u8]) -> Option<Asked>
    ensures some { IfSome result (λ asked. AreWide (bounds_asked asked) × IsShapeText (bounds_asked asked) line.now) }
    ensures none { IfNone result ((b : Bounds) → AreWide b → ¬ IsShapeText b line.now) }
{
    let (word, left) = cut(line, b' ');
    if !is_the_word(word, b"shape") {
        return None;
    }
    let (rows, left) = first_number(left)?;
    let (roots, left) = first_number(left)?;
    let (agents, left) = first_number(left)?;
    let (limit, left) = first_number(left)?;
    let links = links_of(left)?;
    Some(Asked {
        rows,
        roots,
        agents,
        limit,
        links,
    })
}

// The number, or the greatest of 32 bits, which is out of every range too.
fn narrow(number: u64) -> u32
    ensures { result ≡ min number u32.MAX }
{
    match u32::try_from(number) {
        Ok(number) => number,
        Err(_) => u32::MAX,
    }
}

// The shape of these numbers, or the first that is out of range.
fn shape_of(asked: &Asked) -> Result<Shape, ShapeWord>
    ensures ok { IfOk result (λ shape. (bounds_of shape ≡ bounds_asked asked.now) × IsShape (bounds_asked asked.now)) }
    ensures err { IfErr result (IsFirstOut (bounds_asked asked.now)) }
{
    let rows = narrow(asked.rows);
    let roots = narrow(asked.roots);
    let agents = narrow(asked.agents);
    let links = narrow(asked.links);
    match Shape::with_links(rows, roots, agents, asked.limit, links) {
        Ok(shape) => Ok(shape),
        Err(ShapeFault::Rows(_)) => Err(ShapeWord::Rows),
        Err(ShapeFault::Roots(_)) => Err(ShapeWord::Roots),
        Err(ShapeFault::Agents(_)) => Err(ShapeWord::Agents),
        Err(ShapeFault::Limit(_)) => Err(ShapeWord::Limit),
        Err(ShapeFault::Links(_)) => Err(ShapeWord::Links),
    }
}

/// The shape of the first line, and the lines behind it; or what is amiss with the first line.
pub fn read_shape(bytes: &[u8]) -> Result<(Shape, &[u8]), ShapeWord>
    ensures ok { IfOk result (λ found. HasTable (bounds_of found.0) found.1.now bytes.now) }
    ensures err { IfErr result (IsShapeFault bytes.now) }
{
    let (line, rest) = cut(bytes, b'\n');
    let Some(lines) = rest else {
        return Err(ShapeWord::Unreadable);
    };
    let Some(asked) = read_numbers(line) else {
        return Err(ShapeWord::Unreadable);
    };
    let shape = shape_of(&asked)?;
    Ok((shape, lines))
}
