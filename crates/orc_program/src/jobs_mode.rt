//! Modes run and stages: the jobs of a job file are worked through and reported, or go through a pipeline.
ghost use Rattle.std.specs.Prelude.{◌≡◌, ◌≤◌, ◌⊎◌, if◌then◌else◌, IfErr, IfOk, None, Some, length};
ghost use Rattle.orc_job_files.specs.JobGrammar.{Refuses};
ghost use Rattle.orc_jobs.specs.GoodLines.{AreGood};
ghost use Rattle.orc_options.specs.Settings.{AreInRange};
ghost use Rattle.orc_program.specs.{Answers.{AnswersJobs, RefusesSize, TellsJobs}, Ended.{HasReported}, Headline.{numbers_of_rest}};

use crate::Ended;
use crate::answer::{Answer, Setup, leave};
use crate::refusing::refuse_file;
use orc_board::Gate;
use orc_fault::NoMemory;
use orc_job_files::{FileRefused, read_jobs};
use orc_jobs::{Lines, MOST_BYTES};
use orc_report::{RestNumbers, report_text};
use orc_run::Finished;
use std::sync::Wait;
use std::thread::Threads;

/// What the jobs of a file go through.
#[derive(Clone, Copy)]
pub(crate) enum Way {
    /// The queue, the rush queue and the set of the job board.
    Board,
    /// A pipeline of queues.
    Stages,
}

impl<R: Threads + Wait + Sync, G: Gate + Sync> Setup<'_, R, G> {
    // What came of the jobs of these bytes, or why nothing did.
    pub(crate) fn answer_jobs(
        &self,
        bytes: &[u8],
        way: Way,
        ended: &mut Ended,
    ) -> Result<Answer, NoMemory>
        requires ranges { AreInRange self.now.settings }
        requires few { length bytes.now ≤ MOST_BYTES }
        requires nothing { ended.old ≡ Ended.Nothing }
        ensures answered { IfOk result (λ a. AnswersJobs way self.now.settings bytes.now ended.new a.status a.text
            ⊎ RefusesSize (Refuses bytes.now FileRefused.TooMany) ended.new a.status a.text) }
        ensures unanswered { IfErr result (λ _. ended.new ≡ Ended.Nothing) }
    {
        match read_jobs(self.alloc, bytes) {
            Ok(lines) => self.tell(&lines, way, ended),
            Err(fault) => refuse_file(self.alloc, fault),
        }
    }

    // Takes these lines their way, and tells what came of them.
    fn tell(&self, lines: &Lines, way: Way, ended: &mut Ended) -> Result<Answer, NoMemory>
        requires ranges { AreInRange self.now.settings }
        requires good { AreGood lines.now }
        requires nothing { ended.old ≡ Ended.Nothing }
        ensures answered { IfOk result (λ a. (a.status ≡ 0) × TellsJobs way lines.now self.now.settings ended.new a.text) }
        ensures unanswered { IfErr result (λ _. ended.new ≡ Ended.Nothing) }
    {
        match way {
            Way::Board => self.report(lines, ended),
            Way::Stages => self.send_through(lines, ended),
        }
    }

    // Works through these lines, and reports.
    fn report(&self, lines: &Lines, ended: &mut Ended) -> Result<Answer, NoMemory>
        requires ranges { AreInRange self.now.settings }
        requires good { AreGood lines.now }
        requires nothing { ended.old ≡ Ended.Nothing }
        ensures answered { IfOk result (λ a. (a.status ≡ 0) × HasReported lines.now self.now.settings ended.new a.text) }
        ensures unanswered { IfErr result (λ _. ended.new ≡ Ended.Nothing) }
    {
        let finished = self.run(lines)?;
        let numbers = numbers_at_rest(self.settings.rest, &finished);
        let text = report_text(self.alloc, lines, &finished.replies, numbers.as_ref());
        leave(Ended::Run(finished), text, ended)
    }
}

// What is at rest after a run, where it is asked for.
fn numbers_at_rest(asked: bool, finished: &Finished) -> Option<RestNumbers>
    ensures { result ≡ (if asked then Some (numbers_of_rest finished.now) else None) }
{
    if !asked {
        return None;
    }
    Some(RestNumbers {
        queue_given: finished.queue.given(),
        queue_reused: finished.queue.reused(),
        queue_linked: finished.queue.linked(),
        rush_given: finished.rush.given(),
        rush_reused: finished.rush.reused(),
        rush_linked: finished.rush.linked(),
        set_given: finished.set.given(),
        set_reused: finished.set.reused(),
        set_linked: finished.set.linked(),
    })
}
