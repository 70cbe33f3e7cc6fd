//! What a call answers to C.

ghost use Rattle.std.specs.Prelude.{◌≡◌};
ghost use Rattle.mooringakee_c_passes.specs.Codes.{code_of};

/// What a call answers.
#[derive(Clone, Copy)]
pub enum Answer {
    /// It is done.
    Done,
    /// All turns were used up, since other agents' calls came in between.
    Again,
    /// No row was free.
    Full,
    /// No position is left.
    Positions,
    /// The queue was empty.
    Empty,
    /// A number is out of range.
    Shape,
    /// Memory was refused.
    NoMemory,
    /// There is no pass.
    NoPass,
    /// There is a pass already.
    Live,
    /// The pass is one to a container of the other kind.
    Kind,
    /// A row is used up.
    Spent,
    /// Other passes of the container are live.
    Others,
    /// The pass has rows left to work through.
    Kept,
}

impl Answer {
    /// The number that C sees. A null pointer has number 9, which the C side answers.
    pub fn code(self) -> i32
        ensures { result ≡ code_of self }
    {
        match self {
            Answer::Done => 0,
            Answer::Again => 1,
            Answer::Full => 2,
            Answer::Positions => 3,
            Answer::Empty => 4,
            Answer::Shape => 5,
            Answer::NoMemory => 6,
            Answer::NoPass => 7,
            Answer::Live => 8,
            Answer::Kind => 10,
            Answer::Spent => 11,
            Answer::Others => 12,
            Answer::Kept => 13,
        }
    }
}
