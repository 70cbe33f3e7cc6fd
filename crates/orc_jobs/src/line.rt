ghost use Rattle.std.specs.Prelude.{◌≡◌};
ghost use Rattle.orc_jobs.specs.Line.{operation_word};

use crate::Text;

/// What is computed of a text: its bytes or its words are counted, or its numbers are added.
#[derive(Clone, Copy, Drop)]
pub enum Job {
    Bytes,
    Words,
    Sum,
}

impl Job {
    /// Its word in a job file.
    pub fn word(self) -> &'static str
        ensures { result.now ≡ operation_word self }
    {
        match self {
            Job::Bytes => "bytes",
            Job::Words => "words",
            Job::Sum => "sum",
        }
    }
}

/// A line of a job file: it opens an id and posts a job with it, on the queue or on the rush queue, or closes an id.
#[derive(Drop)]
pub enum Line {
    Post { id: u32, op: Job, text: Text },
    Rush { id: u32, op: Job, text: Text },
    Drop { id: u32 },
}
