//! The words behind the word of a kind: numbers, places and links.

ghost use Rattle.std.specs.Prelude.{◌≡◌, ◌≢◌, ◌<◌, ◌∷◌, [], ℕ, IfNone, IfSome, Option};
ghost use Rattle.std.specs.Fmt.{decimal};
ghost use Rattle.std.specs.Option.{ForSome, option_copied};
ghost use Rattle.orc_words.specs.{declared.packed.RowLink.{RowLink}, declared.place.Word.{Word}, Bounds.{bounds_of}};
ghost use Rattle.orc_trace_text.specs.{Reading.{words_left}, TraceText.{IsLink, IsPlace, link_text, place_text, target_text}};

use crate::cut::{cut, one_word, two_words};
use crate::kind::is_the_word;
use orc_decimal::number_of;
use orc_words::{RowLink, Shape, Word};

/// The number below `end` that a word spells.
pub fn number_below(text: &[u8], end: u32) -> Option<u32>
    ensures some { IfSome result (λ number. (number < end) × (text.now ≡ decimal number)) }
    ensures none { IfNone result ((number : ℕ) → number < end → text.now ≢ decimal number) }
{
    let number = number_of(text)?;
    if number < u64::from(end) {
        Some(number as u32)
    } else {
        None
    }
}

/// The number below `end` that the only word left spells.
pub fn one_number(left: Option<&[u8]>, end: u32) -> Option<u32>
    ensures some { IfSome result (λ number. (number < end) × (words_left (option_copied left.entry) ≡ decimal number ∷ [])) }
    ensures none { IfNone result ((number : ℕ) → number < end → words_left (option_copied left.entry) ≢ decimal number ∷ []) }
{
    let word = one_word(left)?;
    number_below(word, end)
}

/// The numbers below `end` and below `last` that the two words left spell.
pub fn two_numbers(left: Option<&[u8]>, end: u32, last: u32) -> Option<(u32, u32)>
    ensures some { IfSome result (λ found. (found.0 < end) × (found.1 < last) × (words_left (option_copied left.entry) ≡ decimal found.0 ∷ decimal found.1 ∷ [])) }
    ensures none { IfNone result ((first second : ℕ) → first < end → second < last → words_left (option_copied left.entry) ≢ decimal first
        ∷ decimal second ∷ []) }
{
    let (first, second) = two_words(left)?;
    let first = number_below(first, end)?;
    let second = number_below(second, last)?;
    Some((first, second))
}

/// The place that a word spells: `r` and a root, or `n` or, where a row has two links, `s` and a row.
pub fn read_place(shape: &Shape, text: &[u8]) -> Option<Word>
    ensures some { IfSome result (λ place. IsPlace (bounds_of shape.now) place × (text.now ≡ place_text place)) }
    ensures none { IfNone result ((place : Word) → IsPlace (bounds_of shape.now) place → text.now ≢ place_text place) }
{
    match text {
        [b'r', digits @ ..] => {
            let root = number_below(digits, shape.roots())?;
            Some(Word::Root(root))
        }
        [b'n', digits @ ..] => {
            let row = number_below(digits, shape.rows())?;
            Some(Word::Next(row))
        }
        [b's', digits @ ..] if shape.links() > 1 => {
            let row = number_below(digits, shape.rows())?;
            Some(Word::Side(row))
        }
        _ => None,
    }
}

// The target that a word spells: `-` for none, or a row.
fn read_target(shape: &Shape, text: &[u8]) -> Option<Option<u32>>
    ensures some { IfSome result (λ to. ForSome to (λ row. row < (bounds_of shape.now).rows) × (text.now ≡ target_text to)) }
    ensures none { IfNone result ((to : Option ℕ) → ForSome to (λ row. row < (bounds_of shape.now).rows) → text.now ≢ target_text to) }
{
    if is_the_word(text, b"-") {
        return Some(None);
    }
    let row = number_below(text, shape.rows())?;
    Some(Some(row))
}

/// The link that a word spells: its target, with `m` behind it where it is marked.
pub fn read_link(shape: &Shape, text: &[u8]) -> Option<RowLink>
    ensures some { IfSome result (λ link. IsLink (bounds_of shape.now) link × (text.now ≡ link_text link)) }
    ensures none { IfNone result ((link : RowLink) → IsLink (bounds_of shape.now) link → text.now ≢ link_text link) }
{
    let (target, behind) = cut(text, b'm');
    let to = read_target(shape, target)?;
    match behind {
        None => Some(RowLink { to, mark: false }),
        Some(rest) if rest.is_empty() => Some(RowLink { to, mark: true }),
        Some(_) => None,
    }
}

/// The row and the link that the two words left spell.
pub fn row_and_link(shape: &Shape, left: Option<&[u8]>) -> Option<(u32, RowLink)>
    ensures some { IfSome result (λ found. (found.0 < (bounds_of shape.now).rows) × IsLink (bounds_of shape.now) found.1
        × (words_left (option_copied left.entry) ≡ decimal found.0 ∷ link_text found.1 ∷ [])) }
    ensures none { IfNone result ((row : ℕ) (link : RowLink) → row < (bounds_of shape.now).rows → IsLink (bounds_of shape.now) link
        → words_left (option_copied left.entry) ≢ decimal row ∷ link_text link ∷ []) }
{
    let (row, link) = two_words(left)?;
    let row = number_below(row, shape.rows())?;
    let link = read_link(shape, link)?;
    Some((row, link))
}
