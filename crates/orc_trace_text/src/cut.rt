//! Texts cut at a byte, and the words that are left of a line.

ghost use Rattle.std.specs.Prelude.{◌≡◌, ◌≢◌, ◌∷◌, [], ℕ, List, IfNone, IfSome};
ghost use Rattle.std.specs.Option.{option_copied};
ghost use Rattle.orc_trace_text.specs.Reading.{Cuts, words_left};

/// What stands before the first such byte of a text, and what stands behind it where there is one.
pub fn cut(text: &[u8], byte: u8) -> (&[u8], Option<&[u8]>)
    ensures { Cuts byte text.now result.0.now (option_copied result.1) }
{
    match text.iter().position(|&other| other == byte) {
        Some(place) => (&text[..place], Some(&text[place + 1..])),
        None => (text, None),
    }
}

/// The first of the words that are left, and what is left behind it.
pub fn first_word(left: Option<&[u8]>) -> Option<(&[u8], Option<&[u8]>)>
    ensures some { IfSome result (λ found. words_left (option_copied left.entry) ≡ found.0.now ∷ words_left (option_copied found.1)) }
    ensures none { IfNone result (words_left (option_copied left.entry) ≡ []) }
{
    let text = left?;
    Some(cut(text, b' '))
}

/// The word that is left, where it is the only one.
pub fn one_word(left: Option<&[u8]>) -> Option<&[u8]>
    ensures some { IfSome result (λ word. words_left (option_copied left.entry) ≡ word.now ∷ []) }
    ensures none { IfNone result ((word : List ℕ) → words_left (option_copied left.entry) ≢ word ∷ []) }
{
    let (word, left) = first_word(left)?;
    if left.is_none() { Some(word) } else { None }
}

/// The words that are left, where they are two.
pub fn two_words(left: Option<&[u8]>) -> Option<(&[u8], &[u8])>
    ensures some { IfSome result (λ found. words_left (option_copied left.entry) ≡ found.0.now ∷ found.1.now ∷ []) }
    ensures none { IfNone result ((first second : List ℕ) → words_left (option_copied left.entry) ≢ first ∷ second ∷ []) }
{
    let (first, left) = first_word(left)?;
    let second = one_word(left)?;
    Some((first, second))
}

/// The words that are left, where they are three.
pub fn three_words(left: Option<&[u8]>) -> Option<(&[u8], &[u8], &[u8])>
    ensures some { IfSome result (λ found. words_left (option_copied left.entry) ≡ found.0.now ∷ found.1.now ∷ found.2.now ∷ []) }
    ensures none { IfNone result ((first second third : List ℕ) → words_left (option_copied left.entry) ≢ first ∷ second ∷ third ∷ []) }
{
    let (first, left) = first_word(left)?;
    let (second, third) = two_words(left)?;
    Some((first, second, third))
}
