//! What the replay of a trace answers.

ghost use Rattle.std.specs.Prelude.{◌≡◌};
ghost use Rattle.orc_trace.specs.declared.answers.TraceFault.TheVariants.{NoMemory as Refused};

use orc_core::Census;
use orc_fault::NoMemory;
use orc_trace_text::ShapeWord;
use orc_words::Words;

/// A trace that was played to its end.
#[derive(Clone, Copy)]
pub struct Replayed {
    pub steps: u64,
    /// The counts of the state after the last step.
    pub census: Census,
}

/// What the audit of a trace tells of its run.
#[derive(Drop)]
pub struct Audit {
    pub steps: u64,
    /// The greatest backlog after any number of steps: the retired rows that are in no work list.
    pub most: u32,
    /// The least number of steps after which the backlog was that.
    pub after: u64,
    /// The life of each row after the last step, in order of row.
    pub lives: Words,
    /// The first leak, if there is one.
    pub leak: Option<Leak>,
}

/// A row that is out at rest, and to which no links lead from the roots.
#[derive(Clone, Copy)]
pub struct Leak {
    /// After how many steps.
    pub after: u64,
    /// The least row that leaks then.
    pub row: u32,
}

/// The first fault of a trace. Steps are numbered from 0, on the line after the first.
#[derive(Clone, Copy)]
pub enum TraceFault {
    Shape(ShapeWord),
    /// The number of a step whose line can't be read.
    Unreadable(u64),
    /// The number of a step that isn't allowed where it stands.
    NotAllowed(u64),
    NoMemory,
}

impl From<NoMemory> for TraceFault {
    ghost from_gives = { λ _ e. e ≡ Refused };

    fn from(_refused: NoMemory) -> TraceFault {
        TraceFault::NoMemory
    }
}
