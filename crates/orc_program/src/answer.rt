//! What the program answers to the bytes of an input.
ghost use Rattle.std.specs.Prelude.{◌≡◌, IfErr, IfOk, IsErr, Ok};
ghost use Rattle.orc_options.specs.Settings.{AreInRange};
ghost use Rattle.orc_program.specs.Answers.{ProgramAnswers};

use crate::Ended;
use crate::jobs_mode::Way;
use crate::make_mode::answer_make;
use crate::refusing::too_large;
use crate::trace_mode::{Told, answer_trace};
use orc_board::Gate;
use orc_fault::NoMemory;
use orc_jobs::{MOST_BYTES, Text};
use orc_options::{Mode, Settings};
use std::alloc::Global;
use std::mem;
use std::sync::Wait;
use std::thread::Threads;

/// With what an answer is worked out: threads, memory, the settings and a gate.
#[derive(Drop)]
pub(crate) struct Setup<'a, R, G> {
    pub(crate) rt: &'a R,
    pub(crate) alloc: Global,
    pub(crate) settings: Settings,
    pub(crate) gate: &'a G,
}

/// The status with which the program ends, and the text that it writes.
#[derive(Drop)]
pub(crate) struct Answer {
    pub(crate) status: u8,
    pub(crate) text: Text,
}

// Answers with this text, and leaves what has ended; where there is no text, `ended` stays.
pub(crate) fn leave(
    what: Ended,
    text: Result<Text, NoMemory>,
    ended: &mut Ended,
) -> Result<Answer, NoMemory>
    ensures answered { IfOk result (λ a. (a.status ≡ 0) × (ended.new ≡ what) × (text ≡ Ok a.text)) }
    ensures unanswered { IsErr result → IsErr text × (ended.new ≡ ended.old) }
{
    match text {
        Ok(text) => {
            mem::replace(ended, what).let_go();
            Ok(Answer { status: 0, text })
        }
        Err(NoMemory) => {
            what.let_go();
            Err(NoMemory)
        }
    }
}

impl<R: Threads + Wait + Sync, G: Gate + Sync> Setup<'_, R, G> {
    // What the settings ask for: the report of the jobs of these bytes, a generated file, the summary of generated work, what is told
    // of a trace, what came of a watch, or of the jobs of a pipeline; or the refusal of the bytes. What has ended is left in `ended`.
    pub(crate) fn answer_of(&self, bytes: &[u8], ended: &mut Ended) -> Result<Answer, NoMemory>
        requires ranges { AreInRange self.now.settings }
        requires nothing { ended.old ≡ Ended.Nothing }
        ensures answered { IfOk result (λ a. ProgramAnswers self.now.settings bytes.now ended.new a.status a.text) }
        ensures unanswered { IfErr result (λ _. ended.new ≡ Ended.Nothing) }
    {
        if bytes.len() > MOST_BYTES {
            return too_large(self.alloc);
        }
        match self.settings.mode {
            Mode::Run => self.answer_jobs(bytes, Way::Board, ended),
            Mode::Make => answer_make(self.alloc, self.settings),
            Mode::Trial => self.answer_trial(ended),
            Mode::Replay => answer_trace(self.alloc, bytes, Told::Census),
            Mode::Audit => answer_trace(self.alloc, bytes, Told::Audit),
            Mode::Watch => self.answer_watch(bytes, ended),
            Mode::Stages => self.answer_jobs(bytes, Way::Stages, ended),
        }
    }
}
