//! Mode stages: jobs go through a pipeline, and what came of them is told.
ghost use Rattle.std.specs.Prelude.{◌≡◌, IfErr, IfOk};
ghost use Rattle.orc_jobs.specs.GoodLines.{AreGood};
ghost use Rattle.orc_options.specs.Settings.{AreInRange};
ghost use Rattle.orc_program.specs.Ended.{TellsStages};

use crate::Ended;
use crate::answer::{Answer, Setup, leave};
use orc_board::Gate;
use orc_fault::NoMemory;
use orc_jobs::Lines;
use orc_options::Settings;
use orc_stages_run::run_pipeline;
use orc_stages_text::stages_text;
use std::sync::Wait;
use std::thread::Threads;

impl<R: Threads + Wait + Sync, G: Gate + Sync> Setup<'_, R, G> {
    // Sends the jobs of these lines through the stages, and tells what came of them.
    pub(crate) fn send_through(&self, lines: &Lines, ended: &mut Ended) -> Result<Answer, NoMemory>
        requires ranges { AreInRange self.now.settings }
        requires good { AreGood lines.now }
        requires nothing { ended.old ≡ Ended.Nothing }
        ensures answered { IfOk result (λ a. (a.status ≡ 0) × TellsStages lines.now self.now.settings ended.new a.text) }
        ensures unanswered { IfErr result (λ _. ended.new ≡ Ended.Nothing) }
    {
        let Settings {
            posters,
            stages,
            rows,
            ..
        } = self.settings;
        let finished = run_pipeline(self.rt, self.alloc, lines, posters, stages, rows, self.gate)?;
        let text = stages_text(self.alloc, &finished.done);
        leave(Ended::Stages(finished), text, ended)
    }
}
