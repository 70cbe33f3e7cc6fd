//! Mode trial: generated work is worked through and summed up.
ghost use Rattle.std.specs.Prelude.{◌≡◌, IfErr, IfOk};
ghost use Rattle.orc_options.specs.Settings.{AreInRange};
ghost use Rattle.orc_program.specs.Ended.{HasSummed};

use crate::Ended;
use crate::answer::{Answer, Setup, leave};
use orc_board::Gate;
use orc_fault::NoMemory;
use orc_job_files::make_lines;
use orc_report::summary_text;
use std::sync::Wait;
use std::thread::Threads;

impl<R: Threads + Wait + Sync, G: Gate + Sync> Setup<'_, R, G> {
    // Works through the lines that are generated from the settings' seed, and sums up.
    pub(crate) fn answer_trial(&self, ended: &mut Ended) -> Result<Answer, NoMemory>
        requires ranges { AreInRange self.now.settings }
        requires nothing { ended.old ≡ Ended.Nothing }
        ensures answered { IfOk result (λ a. (a.status ≡ 0) × HasSummed self.now.settings ended.new a.text) }
        ensures unanswered { IfErr result (λ _. ended.new ≡ Ended.Nothing) }
    {
        let made = make_lines(self.alloc, self.settings.seed, self.settings.lines)?;
        let finished = self.run(&made)?;
        let text = summary_text(self.alloc, &made, &finished.replies);
        leave(Ended::Run(finished), text, ended)
    }
}
