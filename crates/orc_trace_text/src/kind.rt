//! The words that name the kinds of steps.

ghost use Rattle.std.specs.Prelude.{◌≡◌, ◌≢◌, IfNone, IfSome, true, false};
ghost use Rattle.orc_trace_text.specs.{Reading.{kind_word}, declared.kind.StepKind.{StepKind}};

/// What a word asks for: a kind of step, or one of the three uses of a counter's load.
#[derive(Clone, Copy)]
pub enum StepKind {
    Enroll,
    Look,
    Take,
    Fill,
    Read,
    Load,
    Publish,
    Clear,
    Arm,
    Cas,
    Store,
    Side,
    Inc,
    Dec,
    Set,
    Count,
    Start,
    End,
    Unretire,
    Slot,
    Hand,
    TakeIn,
    Free,
    MoveOn,
    Handover,
    DecHeld,
}

// All of them.
const KINDS: [StepKind; 26] = [
    StepKind::Enroll,
    StepKind::Look,
    StepKind::Take,
    StepKind::Fill,
    StepKind::Read,
    StepKind::Load,
    StepKind::Publish,
    StepKind::Clear,
    StepKind::Arm,
    StepKind::Cas,
    StepKind::Store,
    StepKind::Side,
    StepKind::Inc,
    StepKind::Dec,
    StepKind::Set,
    StepKind::Count,
    StepKind::Start,
    StepKind::End,
    StepKind::Unretire,
    StepKind::Slot,
    StepKind::Hand,
    StepKind::TakeIn,
    StepKind::Free,
    StepKind::MoveOn,
    StepKind::Handover,
    StepKind::DecHeld,
];

impl StepKind {
    // The word that names it.
    fn word(self) -> &'static [u8]
        ensures { result.now ≡ kind_word self }
    {
        match self {
            StepKind::Enroll => b"enroll",
            StepKind::Look => b"look",
            StepKind::Take => b"take",
            StepKind::Fill => b"fill",
            StepKind::Read => b"read",
            StepKind::Load => b"load",
            StepKind::Publish => b"publish",
            StepKind::Clear => b"clear",
            StepKind::Arm => b"arm",
            StepKind::Cas => b"cas",
            StepKind::Store => b"store",
            StepKind::Side => b"side",
            StepKind::Inc => b"inc",
            StepKind::Dec => b"dec",
            StepKind::Set => b"set",
            StepKind::Count => b"count",
            StepKind::Start => b"start",
            StepKind::End => b"end",
            StepKind::Unretire => b"unretire",
            StepKind::Slot => b"slot",
            StepKind::Hand => b"hand",
            StepKind::TakeIn => b"takein",
            StepKind::Free => b"free",
            StepKind::MoveOn => b"moveon",
            StepKind::Handover => b"handover",
            StepKind::DecHeld => b"decheld",
        }
    }
}

/// Whether a text is this word.
pub fn is_the_word(text: &[u8], word: &[u8]) -> bool
    ensures same { result ≡ true → text.now ≡ word.now }
    ensures other { result ≡ false → text.now ≢ word.now }
{
    text == word
}

/// The kind that a word names.
pub fn kind_of(word: &[u8]) -> Option<StepKind>
    ensures some { IfSome result (λ kind. word.now ≡ kind_word kind) }
    ensures none { IfNone result ((kind : StepKind) → word.now ≢ kind_word kind) }
{
    for kind in KINDS {
        if is_the_word(word, kind.word()) {
            return Some(kind);
        }
    }
    None
}
